// The lines of a description of a hearings file.
use crate::records::{BadRecord, Record};
use std::error::Error;
use std::fmt;

// A line that tells no record, by its number in the description, and why.
#[derive(Clone, Copy, Debug, PartialEq, Eq)]
pub(crate) struct BadLine {
    pub(crate) number: usize,
    pub(crate) why: BadRecord,
}

impl fmt::Display for BadLine {
    fn fmt<W: fmt::Write>(&self, f: &mut fmt::Formatter<W>) -> fmt::Result {
        write!(f, "line {}: {}", self.number, self.why)
    }
}

impl Error for BadLine {}

// The record that a line tells, if it tells one: what follows a # is a comment, and an empty line tells none.
pub(crate) fn read_line(line: &str) -> Result<Option<Record>, BadRecord> {
    let told = line.split_once('#').map_or(line, |(told, _)| told).trim();
    if told.is_empty() {
        return Ok(None);
    }
    Ok(Some(told.parse()?))
}
