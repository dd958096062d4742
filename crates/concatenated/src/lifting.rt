// The lifted sheet: at each outer place the numbers of the messages that the inner code lists on its block.
ghost use Rattle.std.specs.Prelude.{◌≡◌, ◌+◌, ◌*◌, ◌<◌, ◌≤◌, true, length, nat_lt};
ghost use Rattle.sheet.specs.Standing.{stands, sheet_of};
ghost use Rattle.code.specs.Messages.{every, number, rows};
ghost use Rattle.code.specs.Meaning.{is_sheet};
ghost use Rattle.concatenated.specs.Concatenation.{places_limit};
ghost use Rattle.concatenated.specs.Lifted.{block, numbers};
ghost use Rattle.concatenated.specs.Lifting.{Blocks, Lifts, LiftsAt, LiftsAll};

use crate::joining::Concatenated;
use crate::places::{block_of, raised};
use code::{Code, MAX_DIMENSION, number_of};
use fault::{Fault, Reach};
use sheet::Marks;

// The letters of the longest inner list: 256 messages.
const FOUND: usize = 256 * MAX_DIMENSION;

// The number of a message, which is a letter.
fn letter_of(message: &[u8], last: u8) -> u8
    requires { number (last + 1) message.now < 256 }
    ensures { result ≡ number (last + 1) message.now }
{
    match number_of(message, last) {
        Some(v) => v as u8,
        None => unreachable!(),
    }
}

// The numbers of the first `count` messages of k letters, which lie one after another.
fn gather(found: &[u8], count: usize, k: usize, last: u8) -> Marks
    requires some { 1 ≤ k }
    requires room { count * k ≤ length found.now }
    requires fits { every (λ m. nat_lt (number (last + 1) m) 256) (rows k count found.now) ≡ true }
    ensures { stands result ≡ numbers (last + 1) (rows k count found.now) }
{
    let mut marks = Marks::new();
    for message in found[..count * k].chunks_exact(k) {
        marks.insert(letter_of(message, last));
    }
    marks
}

impl<O: Code, I: Code> Concatenated<O, I> {
    // The numbers of the messages that the inner code lists on one block.
    fn lift_block(&self, part: &[Marks]) -> Result<Marks, Reach>
        requires { is_sheet (I.means self.now.inner) (sheet_of part.now) ≡ true }
        ensures { Lifts (I.means self.now.inner) self.now.agreement (sheet_of part.now) result }
    {
        let mut found = [0u8; FOUND];
        match self.inner.list(part, self.agreement, &mut found) {
            Ok(count) => Ok(gather(&found, count, self.inner.dimension(), self.inner.largest())),
            // In a match of its own: of what a pattern inside a pattern leaves over, a proof is not told that it is no Reach, and that
            // no other refusal comes is shown here.
            Err(fault) => match fault {
                Fault::Reach(reach) => Err(reach),
                _ => unreachable!(),
            },
        }
    }

    // The same of block b of a sheet, for blocks of n places, a refusal as the concatenated code tells it.
    fn lift_at(&self, sheet: &[Marks], n: usize, b: usize) -> Result<Marks, Reach>
        requires width { n ≡ (I.means self.now.inner).n }
        requires inside { b * n + n ≤ length sheet.now }
        requires few { b * n + n ≤ places_limit }
        requires whole { is_sheet (I.means self.now.inner) (sheet_of (block n sheet.now b)) ≡ true }
        ensures { LiftsAt (I.means self.now.inner) self.now.agreement (sheet_of (block n sheet.now b)) (b * n) result }
    {
        let first = b * n;
        self.lift_block(block_of(sheet, b, n))
            .map_err(|reach| raised(reach, first))
    }

    // All the blocks, from the first.
    pub(crate) fn lift_blocks(&self, sheet: &[Marks], above: &mut [Marks]) -> Result<(), Reach>
        requires { Blocks (I.means self.now.inner) (length above.old) (sheet_of sheet.now) }
        ensures { LiftsAll (I.means self.now.inner) self.now.agreement (sheet_of sheet.now) (length above.old) (sheet_of above.new) result }
    {
        let n = self.inner.places();
        // By index: what is written through an iterator is not known to a proof afterwards.
        for b in 0..above.len() {
            above[b] = self.lift_at(sheet, n, b)?;
        }
        Ok(())
    }
}
