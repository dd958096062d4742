// Turns a description of a hearings file on standard input, one record a line, into the file on standard output:
//
//     choose header
//     heard 0 1
//     struck 9
//     list 4

#![tactic(auto)]

mod description;
mod records;

use anyhow::Context;
use description::{BadLine, read_line};
use std::io::{self, BufRead, BufReader, Write};

fn main(rt: HostRuntime) -> anyhow::Result<()> {
    let heap = rt.alloc();
    let mut file = Vec::new(heap);
    for (i, line) in BufReader::new(heap, rt.reader())?.lines(heap).enumerate() {
        let line = line.context("the description cannot be read from standard input")?;
        let record = read_line(line.as_str()).map_err(|why| BadLine { number: i + 1, why })?;
        if let Some(record) = record {
            record.write(&mut file)?;
        }
    }
    io::writer(&rt).write_all(file.as_slice())?;
    Ok(())
}
