// A generator code is a code: every sheet is in reach, and the list is found by trying every message.
ghost use Rattle.generator.specs.Values.{meaning_of};
ghost use Rattle.generator.specs.OfField.{ring_of};
ghost use Rattle.generator.specs.Law.{generator_lawful};

use crate::table::Generator;
use crate::words::word_of;
use code::Code;
use fault::Fault;
use field::Field;
use sheet::Marks;

impl<F: Field> Code for Generator<F> {
    const FAMILY: u8 = F::FAMILY;

    ghost FAMILY = { F.FAMILY };

    ghost means = { λ c. meaning_of c };

    ghost family = { λ c. F.family c.field };

    ghost lawful = { λ c. generator_lawful _ (ring_of _ (F.lawful c.field)) c.table c.n c.k c.kept };

    fn family_number(&self) -> u8 {
        self.field.family_number()
    }

    fn letters(&self) -> usize {
        self.field.size() as usize
    }

    fn places(&self) -> usize {
        self.n
    }

    fn base(&self) -> usize {
        self.letters()
    }

    fn dimension(&self) -> usize {
        self.k
    }

    fn top(&self) -> usize {
        self.places()
    }

    fn least(&self) -> usize {
        self.top().saturating_sub(self.distance()) + 1
    }

    fn encode(&self, message: &[u8], word: &mut [u8]) -> Result<(), Fault> {
        word.fill(0);
        self.check_word(message, word.len())?;
        word_of(&self.field, &self.table, message, word);
        Ok(())
    }

    fn list(&self, sheet: &[Marks], t: usize, buf: &mut [u8]) -> Result<usize, Fault> {
        buf.fill(0);
        self.check_list(sheet, t)?;
        let count = self.count(sheet, t);
        if buf.len() < self.k * count {
            return Err(Fault::Short);
        }
        self.write(sheet, t, buf);
        Ok(count)
    }
}
