// A code, by what it means: one value, on which the listing rule holds.
ghost use Rattle.std.specs.Prelude.{◌≡◌, ℕ, ◌+◌, ◌&&◌, length, nat_le};
ghost use Rattle.sheet.specs.Standing.{sheet_of};
ghost use Rattle.code.specs.Meaning.{Meaning};
ghost use Rattle.code.specs.Rule.{ListingRule};
ghost use Rattle.code.specs.Answers.{encoded, filled, admitted, listed, shown};

use crate::messages::is_row;
use crate::sheets::is_sheet;
use fault::Fault;
use sheet::Marks;

// Whether an agreement lies between 1 and the largest.
fn is_agreement(t: usize, top: usize) -> bool
    ensures { result ≡ (nat_le 1 t && nat_le t top) }
{
    1 <= t && t <= top
}

pub trait Code {
    // the number of the family of its field
    const FAMILY: u8;

    ghost FAMILY: { ℕ };

    ghost means: { Self → Meaning };

    ghost family: { (c : Self) → (means c).family ≡ FAMILY };

    // The number of the family, for a caller that holds a code and does not name its type.
    fn family_number(&self) -> u8
        ensures { result ≡ (means self.now).family };

    // How many letters there are, and how many of them a word has.
    fn letters(&self) -> usize
        ensures { result ≡ (means self.now).q };

    fn places(&self) -> usize
        ensures { result ≡ (means self.now).n };

    // How many letters there are in messages, and how many of them a message has.
    fn base(&self) -> usize
        ensures { result ≡ (means self.now).p };

    fn dimension(&self) -> usize
        ensures { result ≡ (means self.now).k };

    // The largest letter of messages.
    fn largest(&self) -> u8
        ensures { result + 1 ≡ (means self.now).p }
    {
        (self.base() - 1) as u8
    }

    // The largest agreement, and the least at which a clean word is sure to be listed alone.
    fn top(&self) -> usize
        ensures { result ≡ (means self.now).top };

    fn least(&self) -> usize
        ensures { result ≡ (means self.now).least };

    // What encoding is refused for: a buffer not of n letters, and then a message that is none.
    fn check_word(&self, message: &[u8], room: usize) -> Result<(), Fault>
        ensures { result ≡ encoded (means self.now) message.now room }
    {
        if room != self.places() {
            return Err(Fault::Length);
        }
        if !is_row(message, self.dimension(), self.base()) {
            return Err(Fault::Message);
        }
        Ok(())
    }

    // What every list is refused for: a sheet that is none, and then an agreement out of range.
    fn check_list(&self, sheet: &[Marks], t: usize) -> Result<(), Fault>
        ensures { result ≡ admitted (means self.now) (sheet_of sheet.now) t }
    {
        if !is_sheet(sheet, self.places(), self.letters()) {
            return Err(Fault::Sheet);
        }
        if !is_agreement(t, self.top()) {
            return Err(Fault::Agreement);
        }
        Ok(())
    }

    fn encode(&self, message: &[u8], word: &mut [u8]) -> Result<(), Fault>
        ensures answer { result ≡ encoded (means self.now) message.now (length word.old) }
        ensures buffer { word.new ≡ filled (means self.now) message.now (length word.old) };

    fn list(&self, sheet: &[Marks], t: usize, buf: &mut [u8]) -> Result<usize, Fault>
        ensures answer { result ≡ listed (means self.now) (sheet_of sheet.now) t (length buf.old) }
        ensures buffer { buf.new ≡ shown (means self.now) (sheet_of sheet.now) t (length buf.old) };

    ghost lawful: { (c : Self) → ListingRule (means c) };
}
