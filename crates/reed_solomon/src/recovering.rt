// Lists by a fitting.
ghost use Rattle.std.specs.Prelude.{◌≡◌, ◌≤◌, true, length};
ghost use Rattle.sheet.specs.Standing.{sheet_of};
ghost use Rattle.code.specs.Meaning.{is_sheet, listing};
ghost use Rattle.code.specs.Answers.{reached, laid};
ghost use Rattle.reed_solomon.specs.Values.{meaning_of};

use crate::evaluation::ReedSolomon;
use crate::gathering::offer_sheet;
use fault::Fault;
use field::Field;
use interpolation::{Gathering, open};
use sheet::{Marks, load};

impl<F: Field> ReedSolomon<F> {
    // Lists through a fitting: the letters of the sheet are its pairs, and the load its limit.
    pub(crate) fn recover(&self, sheet: &[Marks], t: usize, buf: &mut [u8]) -> Result<usize, Fault>
        requires whole { is_sheet (meaning_of self.now) (sheet_of sheet.now) ≡ true }
        requires low { 1 ≤ t }
        requires high { t ≤ self.now.n }
        ensures answer { result ≡ reached self.now.k (length buf.old) (listing (meaning_of self.now) (sheet_of sheet.now) t) ((meaning_of self.now).reach (sheet_of sheet.now) t) }
        ensures buffer { buf.new ≡ laid (length buf.old) (listing (meaning_of self.now) (sheet_of sheet.now) t) result }
    {
        match open(self.k, t, load(sheet)) {
            Ok(plan) => {
                let mut fitting = Gathering::new(&self.field, plan);
                offer_sheet(&mut fitting, sheet);
                fitting.close().walk(buf)
            }
            Err(fault) => {
                buf.fill(0);
                Err(fault)
            }
        }
    }
}
