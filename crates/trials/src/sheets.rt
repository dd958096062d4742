// Sheets that look random, near a word of a code.
use crate::messages::word_of;
use code::Code;
use sheet::Marks;
use std::alloc::Global;
use std::test::Fail;

// The next number of a fixed sequence that looks random, below 2^15.
fn next(state: &mut u32) -> u32 {
    *state = state.wrapping_mul(1_103_515_245).wrapping_add(12_345);
    *state / 65_536 % 32_768
}

// The letters of one place: mostly the word's, and sometimes another.
fn noisy_place(state: &mut u32, letter: u8, letters: u32) -> Marks {
    let mut marks = Marks::new();
    if next(state) % 4 != 0 {
        marks.insert(letter);
    }
    if letters > 0 && next(state) % 3 == 0 {
        marks.insert((next(state) % letters % 256) as u8);
    }
    marks
}

// A random word of the code with some letters changed, and some letters more.
pub(crate) fn noisy_sheet<C: Code>(
    heap: Global,
    code: &C,
    state: &mut u32,
) -> Result<Vec<Marks>, Fail> {
    let word = word_of(heap, code, next(state) as usize)?;
    let letters = u32::try_from(code.letters())?;
    let mut sheet = Vec::new(heap);
    for letter in &word {
        sheet.push(noisy_place(state, *letter, letters))?;
    }
    Ok(sheet)
}
