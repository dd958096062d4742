// A hearings file is read, and its text printed.
ghost use Rattle.std.specs.Prelude.{◌≡◌, length};
ghost use Rattle.hearings.specs.File.{entries};
ghost use Rattle.hearings.specs.Writing.{puts, blank, Wrote, held};
ghost use Rattle.hearings.specs.Text.{unchosen, lines, text_of};

use crate::items::read_front;
use crate::readers::Reader;
use crate::writing::Text;
use fault::Fault;

// The bytes of the longest file that is read.
const LONGEST: usize = 65536;

impl Text<'_> {
    // What the records of a file print.
    fn push_records(&mut self, file: &[u8])
        ensures { Wrote self.old (lines unchosen (entries file.now)) self.new }
    {
        let mut reader = Reader::Unchosen;
        let mut left = file;
        loop {
            let offset = file.len() - left.len();
            match read_front(left) {
                Ok(None) => return,
                Ok(Some((item, rest))) => {
                    reader.turn(item, offset, self);
                    left = rest;
                }
                Err(fault) => {
                    self.push_refusal(offset, fault);
                    return;
                }
            }
        }
    }

    // The text of a file.
    #[tactic(auto, using(crate::proofs::Texts::text_long, crate::proofs::Texts::text_read, crate::proofs::Wrote::wrote_as))]
    fn push_file(&mut self, file: &[u8])
        ensures { Wrote self.old (text_of file.now) self.new }
    {
        if file.len() > LONGEST {
            self.push_refusal(LONGEST, Fault::Long);
        } else {
            self.push_records(file);
        }
    }
}

// The text of a file is printed over a buffer from its start on. Answers its length.
fn print(file: &[u8], buffer: &mut [u8]) -> usize
    ensures bytes { buffer.new ≡ (puts (blank buffer.old) (text_of file.now)).bytes }
    ensures kept { length buffer.new ≡ length buffer.old }
    ensures length { result ≡ length (text_of file.now) }
{
    let mut text = Text::new(buffer);
    text.push_file(file);
    text.len()
}

// The length of a file's text. The buffer then holds the text and zeros, or zeros alone where the text is longer than the buffer.
pub fn report(file: &[u8], buffer: &mut [u8]) -> usize
    ensures length { result ≡ length (text_of file.now) }
    ensures text { buffer.new ≡ held (length buffer.old) (text_of file.now) }
{
    buffer.fill(0);
    let length = print(file, buffer);
    if length > buffer.len() {
        buffer.fill(0);
    }
    length
}
