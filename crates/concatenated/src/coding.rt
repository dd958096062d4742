// A concatenated code is a code.
ghost use Rattle.std.specs.Prelude.{◌≡◌, length};
ghost use Rattle.sheet.specs.Standing.{sheet_of};
ghost use Rattle.code.specs.Answers.{listed, shown};
ghost use Rattle.concatenated.specs.Values.{meaning_of};
ghost use Rattle.concatenated.specs.Lifting.{InRange};
ghost use Rattle.concatenated.specs.Law.{concatenated_lawful};

use crate::joining::Concatenated;
use crate::places::scaled;
use crate::words::write_blocks;
use code::{Code, MAX_PLACES};
use fault::Fault;
use sheet::Marks;

impl<O: Code, I: Code> Concatenated<O, I> {
    // The list on a sheet of the code, at an agreement in range: the blocks from the first, then the outer code.
    fn recover(&self, sheet: &[Marks], t: usize, buf: &mut [u8]) -> Result<usize, Fault>
        requires asked { InRange (O.means self.now.outer) (I.means self.now.inner) self.now.agreement (sheet_of sheet.now) t }
        ensures answer { result ≡ listed (meaning_of self.now) (sheet_of sheet.now) t (length buf.old) }
        ensures buffer { buf.new ≡ shown (meaning_of self.now) (sheet_of sheet.now) t (length buf.old) }
    {
        let blank = Marks::new();
        let mut table = [blank; MAX_PLACES];
        let above = &mut table[0..self.outer.places()];
        if let Err(reach) = self.lift_blocks(sheet, above) {
            buf.fill(0);
            return Err(Fault::Reach(reach));
        }
        match self.outer.list(above, t, buf) {
            Ok(count) => Ok(count),
            // In a match of its own: of what a pattern inside a pattern leaves over, a proof is not told that it is no Reach; and the
            // three answers are proved apart, which a closure for map_err leaves in one.
            Err(fault) => match fault {
                Fault::Reach(reach) => Err(Fault::Reach(scaled(reach, self.inner.places()))),
                _ => Err(fault),
            },
        }
    }
}

impl<O: Code, I: Code> Code for Concatenated<O, I> {
    const FAMILY: u8 = I::FAMILY;

    ghost FAMILY = { I.FAMILY };

    ghost means = { λ c. meaning_of c };

    ghost family = { λ c. I.family c.inner };

    ghost lawful = { λ c. concatenated_lawful _ _ c.agreement (O.lawful c.outer) (I.lawful c.inner) c.joined };

    fn family_number(&self) -> u8 {
        self.inner.family_number()
    }

    fn letters(&self) -> usize {
        self.inner.letters()
    }

    fn places(&self) -> usize {
        let blocks = self.outer.places();
        blocks * self.inner.places()
    }

    fn base(&self) -> usize {
        self.outer.base()
    }

    fn dimension(&self) -> usize {
        self.outer.dimension()
    }

    fn top(&self) -> usize {
        self.outer.top()
    }

    fn least(&self) -> usize {
        self.outer.least()
    }

    fn encode(&self, message: &[u8], word: &mut [u8]) -> Result<(), Fault> {
        word.fill(0);
        self.check_word(message, word.len())?;
        let mut letters = [0u8; MAX_PLACES];
        let above = &mut letters[0..self.outer.places()];
        let _ = self.outer.encode(message, above);
        write_blocks(&self.inner, above, word);
        Ok(())
    }

    fn list(&self, sheet: &[Marks], t: usize, buf: &mut [u8]) -> Result<usize, Fault> {
        // The buffer is filled here only for a refusal, since the outer list fills it too.
        if let Err(fault) = self.check_list(sheet, t) {
            buf.fill(0);
            return Err(fault);
        }
        self.recover(sheet, t, buf)
    }
}
