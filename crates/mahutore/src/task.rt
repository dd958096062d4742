// A task: a code, and the calls of a record of it, one command a line.
use record::Call;
use std::alloc::{AllocError, AllocFailed, Global};
use std::fmt;
use std::num::ParseIntError;
use std::str::FromStr;

// the bytes that each list has for its buffer, enough for sixteen messages of sixteen letters
pub const ROOM: usize = 256;

#[derive(Clone, Copy, Debug, PartialEq, Eq)]
pub enum Chosen {
    Block,
    Slab,
    Header,
    Brine,
}

#[derive(Drop)]
pub struct Task {
    pub chosen: Chosen,
    pub calls: Vec<Call>,
}

// Why a text is no task.
#[derive(Clone, Copy, Debug, PartialEq, Eq)]
pub enum BadTask {
    // the first line names no code
    Code,
    // a line that is no command
    Command,
    // a word that is no number of its kind
    Number,
    // want of memory
    Memory,
}

impl From<AllocError> for BadTask {
    fn from(_: AllocError) -> BadTask {
        BadTask::Memory
    }
}

impl<T: Drop> From<AllocFailed<T>> for BadTask {
    fn from(_: AllocFailed<T>) -> BadTask {
        BadTask::Memory
    }
}

impl fmt::Display for BadTask {
    fn fmt<W: fmt::Write>(&self, f: &mut fmt::Formatter<W>) -> fmt::Result {
        f.write_str(match self {
            BadTask::Code => "the first line is: code block, code slab, code header or code brine",
            BadTask::Command => "a command is: hear PLACE LETTER, strike PLACE, or list AGREEMENT",
            BadTask::Number =>
                "a place and an agreement are whole numbers, and a letter is below 256",
            BadTask::Memory => "there is not enough memory",
        })
    }
}

impl From<ParseIntError> for BadTask {
    fn from(_: ParseIntError) -> BadTask {
        BadTask::Number
    }
}

impl FromStr for Chosen {
    type Err = BadTask;

    fn from_str(line: &str) -> Result<Chosen, BadTask> {
        match line.trim() {
            "code block" => Ok(Chosen::Block),
            "code slab" => Ok(Chosen::Slab),
            "code header" => Ok(Chosen::Header),
            "code brine" => Ok(Chosen::Brine),
            _ => Err(BadTask::Code),
        }
    }
}

fn read_call(line: &str) -> Result<Call, BadTask> {
    let mut words = line.split_whitespace();
    match (words.next(), words.next(), words.next(), words.next()) {
        (Some("hear"), Some(place), Some(letter), None) => Ok(Call::Hear {
            place: place.parse()?,
            letter: letter.parse()?,
        }),
        (Some("strike"), Some(place), None, None) => Ok(Call::Strike {
            place: place.parse()?,
        }),
        (Some("list"), Some(t), None, None) => Ok(Call::List {
            t: t.parse()?,
            room: ROOM,
        }),
        _ => Err(BadTask::Command),
    }
}

impl Task {
    // The task that a text gives. Empty lines are passed over.
    pub(crate) fn read(heap: Global, text: &str) -> Result<Task, BadTask> {
        let mut lines = text.lines();
        let chosen = lines.next().unwrap_or("").parse()?;
        let mut calls = Vec::new(heap);
        for line in lines {
            if !line.trim().is_empty() {
                calls.push(read_call(line)?)?;
            }
        }
        Ok(Task { chosen, calls })
    }
}
