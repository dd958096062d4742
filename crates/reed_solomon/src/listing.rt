// A Reed-Solomon code is a code.
ghost use Rattle.std.specs.Prelude.{◌≡◌, length};
ghost use Rattle.sheet.specs.Standing.{sheet_of};
ghost use Rattle.code.specs.Answers.{listed, shown};
ghost use Rattle.reed_solomon.specs.Few.{Few};
ghost use Rattle.reed_solomon.specs.Values.{meaning_of};
ghost use Rattle.reed_solomon.specs.Law.{lawful_at_limits};

use crate::evaluation::{ReedSolomon, least_of, write_values};
use code::Code;
use fault::Fault;
use field::Field;
use sheet::Marks;

impl<F: Field> Code for ReedSolomon<F> {
    const FAMILY: u8 = F::FAMILY;

    ghost FAMILY = { F.FAMILY };

    ghost means = { λ c. meaning_of c };

    ghost family = { λ c. F.family c.field };

    ghost lawful = { λ c. lawful_at_limits _ (F.lawful c.field) c.n c.k c.kept };

    fn family_number(&self) -> u8 {
        self.field.family_number()
    }

    fn letters(&self) -> usize {
        self.field.size() as usize
    }

    fn places(&self) -> usize {
        self.n
    }

    fn base(&self) -> usize {
        self.letters()
    }

    fn dimension(&self) -> usize {
        self.k
    }

    fn top(&self) -> usize {
        self.places()
    }

    fn least(&self) -> usize {
        least_of(self.n, self.k)
    }

    fn encode(&self, message: &[u8], word: &mut [u8]) -> Result<(), Fault> {
        word.fill(0);
        self.check_word(message, word.len())?;
        write_values(&self.field, message, word);
        Ok(())
    }

    // As every code lists, and never more than fifteen.
    fn list(&self, sheet: &[Marks], t: usize, buf: &mut [u8]) -> Result<usize, Fault>
        ensures answer { result ≡ listed (meaning_of self.now) (sheet_of sheet.now) t (length buf.old) }
        ensures buffer { buf.new ≡ shown (meaning_of self.now) (sheet_of sheet.now) t (length buf.old) }
        ensures few { Few result }
    {
        // The buffer is filled here only for a refusal, since the walk fills it too.
        if let Err(fault) = self.check_list(sheet, t) {
            buf.fill(0);
            return Err(fault);
        }
        self.recover(sheet, t, buf)
    }
}
