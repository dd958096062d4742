// What a list costs: lists by a fitting at the sizes of the codes of the house, and with an argument how many products of the field each takes, and how long.

#![tactic(auto)]

mod counted;
mod task;

use counted::Counted;
use field::{BinaryField, Field, PrimeField};
use std::env;
use std::time::Instant;
use task::Task;

const ROUNDS: u32 = 100;

// What each list costs, printed after what it found: the products counted in one list, the time over many.
fn print_costs<F: Field + Drop>(
    rt: &HostRuntime,
    field: F,
    task: &Task,
    pairs: &[(u8, u8)],
) -> anyhow::Result<()> {
    let start = Instant::now(rt)?;
    for _ in 0..ROUNDS {
        let _ = task.list(&field, pairs);
    }
    let micros = start.elapsed(rt)?.as_micros() / ROUNDS as u128;
    let counted = Counted::new(field);
    let _ = task.list(&counted, pairs);
    let products = counted.take_products();
    print!(rt; ", {products} products, {micros} microseconds")?;
    Ok(())
}

// Lists the task, and says what it costs where asked.
fn measure<F: Field + Drop>(
    rt: &HostRuntime,
    field: F,
    task: &Task,
    costs: bool,
) -> anyhow::Result<()> {
    let pairs = task.pairs(rt.alloc(), &field)?;
    let found = task.list(&field, pairs.as_slice()).unwrap_or(0);
    print!(rt; "{task}: {found} found")?;
    if costs {
        print_costs(rt, field, task, pairs.as_slice())?;
    }
    println!(rt; "")?;
    Ok(())
}

fn main(rt: HostRuntime) -> anyhow::Result<()> {
    let costs = env::args(&rt)?.count() > 1;
    let bytes = BinaryField::new(8)?;
    measure(&rt, bytes, &Task::new("brine outer", 24, 4, 10, 24), costs)?;
    measure(&rt, bytes, &Task::new("brine outer", 24, 4, 11, 24), costs)?;
    measure(&rt, bytes, &Task::new("brine outer", 24, 4, 12, 40), costs)?;
    let nibbles = BinaryField::new(4)?;
    measure(&rt, nibbles, &Task::new("brine inner", 8, 2, 4, 8), costs)?;
    measure(&rt, nibbles, &Task::new("brine inner", 8, 2, 4, 13), costs)?;
    measure(&rt, nibbles, &Task::new("slab outer", 15, 4, 8, 15), costs)?;
    let eleven = PrimeField::new(11)?;
    measure(&rt, eleven, &Task::new("header", 10, 3, 5, 10), costs)
}
