// The steps of a generator code over all its messages.
ghost use Rattle.std.specs.Prelude.{◌≡◌, ◌+◌, ◌*◌, ◌≤◌, length, replicate};
ghost use Rattle.sheet.specs.Standing.{sheet_of};
ghost use Rattle.code.specs.Answers.{padded};
ghost use Rattle.code.specs.Meaning.{listing};
ghost use Rattle.code.specs.Messages.{each};
ghost use Rattle.generator.specs.Generator.{max_messages};
ghost use Rattle.generator.specs.Values.{meaning_of, distance_of};
ghost use Rattle.generator.specs.Steps.{how_many, passes, added, written, lower};

use crate::table::{Generator, MAX_PLACES, MAX_ROWS};
use crate::words::{is_blank, nonzeros_of, word_of};
use code::{Code, hits, spell};
use field::Field;
use sheet::Marks;

impl<F: Field> Generator<F> {
    // How many messages there are.
    fn total(&self) -> usize
        ensures { result ≡ how_many (meaning_of self.now) }
    {
        (self.field.size() as usize).pow(self.k as u32)
    }

    // Whether message v scores at least t. It spells and encodes as `fewer` does: a helper that hands both rows back would be no plainer.
    fn passes(&self, sheet: &[Marks], t: usize, v: usize) -> bool
        ensures { result ≡ passes (meaning_of self.now) (sheet_of sheet.now) t v }
    {
        let mut letters = [0u8; MAX_ROWS];
        let message = &mut letters[0..self.k];
        spell(v, self.largest(), message);
        let mut places = [0u8; MAX_PLACES];
        let word = &mut places[0..self.n];
        word_of(&self.field, &self.table, message, word);
        t <= hits(sheet, word)
    }

    // The fewer of best and the nonzero letters of message v's word, where the message is not zero.
    fn fewer(&self, v: usize, best: usize) -> usize
        ensures { result ≡ lower (meaning_of self.now) best v }
    {
        let mut letters = [0u8; MAX_ROWS];
        let message = &mut letters[0..self.k];
        spell(v, self.largest(), message);
        if is_blank(message) {
            return best;
        }
        let mut places = [0u8; MAX_PLACES];
        let word = &mut places[0..self.n];
        word_of(&self.field, &self.table, message, word);
        best.min(nonzeros_of(word))
    }

    // The fewest nonzero letters in the word of a nonzero message.
    pub fn distance(&self) -> usize
        ensures { result ≡ distance_of self.now }
    {
        let mut best = self.n;
        for v in 0..self.total() {
            best = self.fewer(v, best);
        }
        best
    }

    // How many messages the list has.
    pub(crate) fn count(&self, sheet: &[Marks], t: usize) -> usize
        ensures exact { result ≡ length (listing (meaning_of self.now) (sheet_of sheet.now) t) }
        ensures few { result ≤ max_messages }
    {
        let mut count = 0;
        for v in 0..self.total() {
            if self.passes(sheet, t, v) {
                count += 1;
            }
        }
        count
    }

    // The buffer is the caller's, in fixed memory. Writes message v into it from a place on, where it scores at least t. Answers the place after it.
    fn put(&self, sheet: &[Marks], t: usize, v: usize, buf: &mut [u8], at: usize) -> usize
        requires room { at + length (added (meaning_of self.now) (sheet_of sheet.now) t v) ≤ length buf.old }
        ensures place { result ≡ at + length (added (meaning_of self.now) (sheet_of sheet.now) t v) }
        ensures buffer { buf.new ≡ written at (added (meaning_of self.now) (sheet_of sheet.now) t v) buf.old }
    {
        if !self.passes(sheet, t, v) {
            return at;
        }
        spell(v, self.largest(), &mut buf[at..at + self.k]);
        at + self.k
    }

    // Writes the list to the front of a zero buffer.
    pub(crate) fn write(&self, sheet: &[Marks], t: usize, buf: &mut [u8])
        requires zeros { buf.old ≡ replicate (length buf.old) 0 }
        requires room { self.now.k * length (listing (meaning_of self.now) (sheet_of sheet.now) t) ≤ length buf.old }
        ensures { buf.new ≡ padded (length buf.old) (each (λ x. x) (listing (meaning_of self.now) (sheet_of sheet.now) t)) }
    {
        let mut at = 0;
        for v in 0..self.total() {
            at = self.put(sheet, t, v, buf, at);
        }
    }
}
