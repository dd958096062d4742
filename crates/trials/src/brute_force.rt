// Random sheets with several letters a place: each list is compared with the list of all messages that score enough.
use crate::messages::{compare, scoring};
use crate::sheets::noisy_sheet;
use code::Code;
use field::{BinaryField, PrimeField};
use generator::Generator;
use reed_solomon::ReedSolomon;
use sheet::Marks;
use std::alloc::Global;
use std::process::Abort;
use std::test::Fail;

// One sheet at every agreement; answers how many lists were in reach.
fn compare_all<C: Code>(
    rt: &impl Abort,
    heap: Global,
    code: &C,
    total: usize,
    sheet: &[Marks],
) -> Result<usize, Fail> {
    let mut answered = 0usize;
    for t in 1..=code.top() {
        let expected = scoring(heap, code, total, sheet, t)?;
        if compare(rt, heap, code, expected.as_slice(), sheet, t)? {
            answered = answered.saturating_add(1);
        }
    }
    Ok(answered)
}

// Some sheets; answers how many lists were in reach.
fn compare_some<C: Code>(
    rt: &impl Abort,
    heap: Global,
    code: &C,
    total: usize,
    rounds: usize,
    state: &mut u32,
) -> Result<usize, Fail> {
    let mut answered = 0usize;
    for _ in 0..rounds {
        let sheet = noisy_sheet(heap, code, state)?;
        answered = answered.saturating_add(compare_all(rt, heap, code, total, sheet.as_slice())?);
    }
    Ok(answered)
}

#[test]
fn reed_solomon_over_small_fields(rt: HostRuntime) -> Result<(), Fail> {
    let mut state = 7;
    let five = ReedSolomon::new(PrimeField::new(5)?, 5, 2)?;
    assert!(rt; compare_some(&rt, rt.alloc(), &five, 25, 60, &mut state)? > 100);
    let seven = ReedSolomon::new(PrimeField::new(7)?, 7, 3)?;
    assert!(rt; compare_some(&rt, rt.alloc(), &seven, 343, 30, &mut state)? > 60);
    let eight = ReedSolomon::new(BinaryField::new(3)?, 8, 2)?;
    assert!(rt; compare_some(&rt, rt.alloc(), &eight, 64, 60, &mut state)? > 150);
    let sixteen = ReedSolomon::new(BinaryField::new(4)?, 12, 2)?;
    assert!(rt; compare_some(&rt, rt.alloc(), &sixteen, 256, 30, &mut state)? > 100);
    Ok(())
}

#[test]
fn generator_code_of_a_slab_block(rt: HostRuntime) -> Result<(), Fail> {
    let mut state = 11;
    let rows = [
        1, 0, 0, 0, 0, 1, 1, 1, //
        0, 1, 0, 0, 1, 0, 1, 1, //
        0, 0, 1, 0, 1, 1, 0, 1, //
        0, 0, 0, 1, 1, 1, 1, 0,
    ];
    let block = Generator::new(PrimeField::new(2)?, 8, 4, &rows)?;
    assert_eq!(rt;
        compare_some(&rt, rt.alloc(), &block, 16, 50, &mut state)?,
        400
    );
    Ok(())
}
