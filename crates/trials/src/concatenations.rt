// Concatenations, two and three deep, against brute force: all inner messages on every block, then all outer messages on what they give.
use crate::messages::{compare, scoring};
use crate::sheets::noisy_sheet;
use code::Code;
use concatenated::Concatenated;
use field::{BinaryField, PrimeField};
use generator::Generator;
use reed_solomon::ReedSolomon;
use sheet::Marks;
use std::alloc::Global;
use std::process::Abort;
use std::test::Fail;

// the letters of the block code: two message letters and their sum
const SUM_ROWS: [u8; 6] = [1, 0, 1, 0, 1, 1];

// 3 places of one bit, with 4 messages.
fn sum_code() -> Result<Generator<PrimeField>, Fail> {
    Ok(Generator::new(PrimeField::new(2)?, 3, 2, &SUM_ROWS)?)
}

// 4 places of two bits, with 16 messages.
fn quad_code() -> Result<ReedSolomon<BinaryField>, Fail> {
    Ok(ReedSolomon::new(BinaryField::new(2)?, 4, 2)?)
}

// The marks of these numbers, which are below 256.
fn marks_of(numbers: &[usize]) -> Result<Marks, Fail> {
    let mut marks = Marks::new();
    for v in numbers {
        marks.insert(u8::try_from(*v)?);
    }
    Ok(marks)
}

// What each block of a plain code, with `total` messages, gives at an agreement.
fn lift<I: Code>(
    heap: Global,
    inner: &I,
    total: usize,
    agreement: usize,
    sheet: &[Marks],
) -> Result<Vec<Marks>, Fail> {
    let mut lifted = Vec::new(heap);
    for block in sheet.chunks_exact(inner.places().max(1)) {
        lifted.push(marks_of(scoring(heap, inner, total, block, agreement)?.as_slice())?)?;
    }
    Ok(lifted)
}

// The numbers of the messages of the quad code above the sum code.
fn numbers_of_two(heap: Global, sheet: &[Marks], t: usize) -> Result<Vec<usize>, Fail> {
    let lifted = lift(heap, &sum_code()?, 4, 2, sheet)?;
    scoring(heap, &quad_code()?, 16, lifted.as_slice(), t)
}

// Two deep: the quad code above the sum code. Answers how many lists were in reach.
fn two_deep(rt: &impl Abort, heap: Global, state: &mut u32) -> Result<usize, Fail> {
    let code = Concatenated::new(quad_code()?, sum_code()?, 2)?;
    let sheet = noisy_sheet(heap, &code, state)?;
    let mut answered = 0usize;
    for t in 1..5 {
        let expected = numbers_of_two(heap, sheet.as_slice(), t)?;
        if compare(rt, heap, &code, expected.as_slice(), sheet.as_slice(), t)? {
            answered = answered.saturating_add(1);
        }
    }
    Ok(answered)
}

#[test]
fn two_codes_deep(rt: HostRuntime) -> Result<(), Fail> {
    let mut state = 5;
    let mut answered = 0usize;
    for _ in 0..100 {
        answered = answered.saturating_add(two_deep(&rt, rt.alloc(), &mut state)?);
    }
    assert!(rt; answered > 100);
    Ok(())
}

// Three deep: a Reed-Solomon code over 16 elements above the two. Answers how many lists were in reach.
fn three_deep(rt: &impl Abort, heap: Global, state: &mut u32) -> Result<usize, Fail> {
    let high = ReedSolomon::new(BinaryField::new(4)?, 8, 2)?;
    let pair = Concatenated::new(quad_code()?, sum_code()?, 2)?;
    let code = Concatenated::new(ReedSolomon::new(BinaryField::new(4)?, 8, 2)?, pair, 4)?;
    let sheet = noisy_sheet(heap, &code, state)?;
    let mut lifted = Vec::new(heap);
    for block in sheet.as_slice().chunks_exact(12) {
        lifted.push(marks_of(numbers_of_two(heap, block, 4)?.as_slice())?)?;
    }
    let mut answered = 0usize;
    for t in 1..9 {
        let expected = scoring(heap, &high, 256, lifted.as_slice(), t)?;
        if compare(rt, heap, &code, expected.as_slice(), sheet.as_slice(), t)? {
            answered = answered.saturating_add(1);
        }
    }
    Ok(answered)
}

#[test]
fn three_codes_deep(rt: HostRuntime) -> Result<(), Fail> {
    let mut state = 3;
    let mut answered = 0usize;
    for _ in 0..20 {
        answered = answered.saturating_add(three_deep(&rt, rt.alloc(), &mut state)?);
    }
    assert!(rt; answered > 20);
    Ok(())
}
