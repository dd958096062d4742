// Reads a hearings file from standard input, and prints its text.

#![tactic(auto)]

ghost use Rattle.std.specs.Prelude.{◌≡◌, ◌<◌, ◌≤◌, length, IfOk, IfSome, MatchResult};
ghost use Rattle.hearings.specs.Text.{text_of};

use anyhow::Context;
use hearings::report;
use std::alloc::Global;
use std::error::Error;
use std::fmt;
use std::io::{self, Read, Write};

// One byte more than the longest file that is read, so that a longer one is seen to be too long.
const LONGEST_INPUT: u64 = 65_537;

// The bytes of the longest text that is printed.
const LONGEST_TEXT: usize = 65_536;

// A text that the buffer does not hold.
#[derive(Clone, Copy, Debug)]
struct TooLong {
    length: usize,
}

impl fmt::Display for TooLong {
    fn fmt<W: fmt::Write>(&self, f: &mut fmt::Formatter<W>) -> fmt::Result {
        write!(
            f,
            "the text has {} bytes, and one of over {LONGEST_TEXT} is not printed",
            self.length
        )
    }
}

impl Error for TooLong {}

// The text of a file, where the buffer holds it.
fn text_in<'a>(file: &[u8], buffer: &'a mut [u8]) -> Result<&'a [u8], TooLong>
    ensures { MatchResult result
        (λ text. (text.now ≡ text_of file.now) × (length text.now ≤ length buffer.old))
        (λ long. (long.length ≡ length (text_of file.now)) × (length buffer.old < long.length)) }
{
    let length = report(file, buffer);
    buffer.get(..length).ok_or(TooLong { length })
}

// Reads a hearings file to its end, or as much of one that is too long as tells its text.
fn read_file<R: Read + Drop>(heap: Global, input: R) -> anyhow::Result<Vec<u8>>
    ensures { IfOk result (λ read. IfSome (R.remaining input) (λ file. text_of read.items ≡ text_of file)) }
{
    let mut file = Vec::new(heap);
    input
        .take(LONGEST_INPUT)
        .read_to_end(&mut file)
        .context("the hearings file cannot be read from standard input")?;
    Ok(file)
}

fn main(rt: HostRuntime) -> anyhow::Result<()> {
    let heap = rt.alloc();
    let file = read_file(heap, rt.stdin())?;
    let mut buffer = vec![in heap; 0u8; LONGEST_TEXT]?;
    match text_in(file.as_slice(), buffer.as_mut_slice()) {
        Ok(text) => io::writer(&rt).write_all(text)?,
        Err(long) => eprintln!(rt; "{long}")?,
    }
    Ok(())
}
