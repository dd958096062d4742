// A published Reed-Solomon word: over 7 elements, n 7, k 3, the polynomial 1 + 2x + 3x^2, received with two errors.
use code::Code;
use field::PrimeField;
use reed_solomon::ReedSolomon;
use sheet::Marks;
use std::alloc::{AllocError, Global};
use std::test::Fail;

const MESSAGE: [u8; 3] = [1, 2, 3];

const WORD: [u8; 7] = [1, 6, 3, 6, 1, 2, 2];

const RECEIVED: [u8; 7] = [1, 5, 3, 6, 3, 2, 2];

// The sheet with one letter a place.
fn sheet_of(heap: Global, word: &[u8]) -> Result<Vec<Marks>, AllocError> {
    let mut sheet = Vec::new(heap);
    for letter in word {
        let mut marks = Marks::new();
        marks.insert(*letter);
        sheet.push(marks)?;
    }
    Ok(sheet)
}

#[test]
fn two_errors_over_seven_elements(rt: HostRuntime) -> Result<(), Fail> {
    let code = ReedSolomon::new(PrimeField::new(7)?, 7, 3)?;
    let mut word = [0u8; 7];
    code.encode(&MESSAGE, &mut word)?;
    assert_eq!(rt; word, WORD);
    let sheet = sheet_of(rt.alloc(), &RECEIVED)?;
    let mut buf = [9u8; 6];
    assert_eq!(rt; code.list(sheet.as_slice(), 5, &mut buf)?, 1);
    assert_eq!(rt; buf, [1, 2, 3, 0, 0, 0]);
    Ok(())
}
