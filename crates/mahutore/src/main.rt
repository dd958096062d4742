// Serves a record. A task comes from standard input, one command a line, and what was done is printed:
//
//     code header
//     hear 0 1
//     strike 9
//     list 4

#![tactic(auto)]

mod task;

use code::{Code, number_of};
use fault::Fault;
use house_codes::{brine_code, header_code, slab_code, slab_inner_code};
use record::{Answer, Call, replay};
use std::io;
use std::io::Read;
use task::{Chosen, ROOM, Task};

// more than any task has
const LONGEST_INPUT: u64 = 65_536;

// A line for each of the first `count` messages: its number, where it has one, and its letters.
fn print_messages(
    rt: &HostRuntime,
    bytes: &[u8],
    count: usize,
    dimension: usize,
    largest: u8,
) -> io::Result<()> {
    if dimension == 0 {
        return Ok(());
    }
    for message in bytes.chunks_exact(dimension).take(count) {
        if let Some(number) = number_of(message, largest) {
            print!(rt; "  message {number}:")?;
        }
        for letter in message {
            print!(rt; " {letter}")?;
        }
        println!(rt; "")?;
    }
    Ok(())
}

// What a call answered.
fn print_answer(rt: &HostRuntime, call: Call, answer: Answer) -> io::Result<()> {
    match answer {
        Ok(count) => println!(rt; "{call}: {count}"),
        Err(fault) => println!(rt; "{call}: {fault}"),
    }
}

// Serves all the calls in one run, and prints the answers and the lists.
fn serve<C: Code + Drop>(rt: &HostRuntime, code: C, task: &Task) -> anyhow::Result<()> {
    let heap = rt.alloc();
    let dimension = code.dimension();
    let largest = code.largest();
    println!(rt;
        "family {} letters {} places {} top {} least {}",
        C::FAMILY,
        code.letters(),
        code.places(),
        code.top(),
        code.least()
    )?;
    let calls = task.calls.as_slice();
    let mut answers = vec![in heap; Err(Fault::Empty); calls.len()]?;
    let mut buffers = vec![in heap; 0u8; ROOM.saturating_mul(calls.len())]?;
    let _record = replay(code, calls, answers.as_mut_slice(), buffers.as_mut_slice());
    let mut lists = buffers.as_slice().chunks_exact(ROOM);
    for (call, answer) in calls.iter().zip(answers.as_slice()) {
        print_answer(rt, *call, *answer)?;
        if let Call::List { .. } = *call {
            let bytes = lists.next().unwrap_or(&[]);
            print_messages(rt, bytes, answer.unwrap_or(0), dimension, largest)?;
        }
    }
    Ok(())
}

fn main(rt: HostRuntime) -> anyhow::Result<()> {
    let mut text = String::new(rt.alloc());
    if rt
        .stdin()
        .take(LONGEST_INPUT)
        .read_to_string(&mut text)
        .is_err()
    {
        println!(rt; "bad task: the input is no text")?;
        return Ok(());
    }
    let task = match Task::read(rt.alloc(), text.as_str()) {
        Ok(task) => task,
        Err(bad) => {
            println!(rt; "bad task: {bad}")?;
            return Ok(());
        }
    };
    match task.chosen {
        Chosen::Block => serve(&rt, slab_inner_code(), &task),
        Chosen::Slab => serve(&rt, slab_code(), &task),
        Chosen::Header => serve(&rt, header_code(), &task),
        Chosen::Brine => serve(&rt, brine_code(), &task),
    }
}
