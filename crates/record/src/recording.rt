// A record: a code, and a set of letters for each of its places.
ghost use Rattle.std.specs.Prelude.{◌≡◌, length};
ghost use Rattle.code.specs.Answers.{listed, shown};
ghost use Rattle.record.specs.Values.{code_of, letters_of};
ghost use Rattle.record.specs.Book.{fresh, hear_says, heard, strike_says, struck, says, next, left_in};

use crate::calls::{Answer, Call};
use crate::marking::{check_letter, check_place, clear_letters, join_letter};
use code::{Code, MAX_PLACES};
use sheet::Marks;

// The places of the sheet beyond those of the code are never used.
#[derive(Drop)]
pub struct Record<C: Code> {
    pub(crate) code: C,
    pub(crate) sheet: [Marks; MAX_PLACES],
}

impl<C: Code> Record<C> {
    // A record in which no letter stands.
    pub fn new(code: C) -> Record<C>
        ensures same { result.code ≡ code }
        ensures blank { letters_of C.means result ≡ fresh (C.means code) }
    {
        let blank = Marks::new();
        Record {
            code,
            sheet: [blank; MAX_PLACES],
        }
    }

    // A letter is heard at a place. Answers how many letters then stand there. Refused where there is no such place, and then where there is no such letter.
    pub fn hear(&mut self, place: usize, letter: u8) -> Answer
        ensures same { self.new.code ≡ self.old.code }
        ensures answer { result ≡ hear_says (code_of C.means self.old) (letters_of C.means self.old) place letter }
        ensures after { letters_of C.means self.new ≡ heard (code_of C.means self.old) (letters_of C.means self.old) place letter }
    {
        check_letter(place, self.code.places(), letter, self.code.letters())?;
        Ok(join_letter(&mut self.sheet[place], letter))
    }

    // The letters of a place are struck out. Answers how many stood there. Refused where there is no such place, and then where no letter stands.
    pub fn strike(&mut self, place: usize) -> Answer
        ensures same { self.new.code ≡ self.old.code }
        ensures answer { result ≡ strike_says (code_of C.means self.old) (letters_of C.means self.old) place }
        ensures after { letters_of C.means self.new ≡ struck (code_of C.means self.old) (letters_of C.means self.old) place }
    {
        check_place(place, self.code.places())?;
        clear_letters(&mut self.sheet[place])
    }

    // Lists by the code on the letters that stand. Refused, it leaves the buffer zero.
    pub fn list(&self, t: usize, buffer: &mut [u8]) -> Answer
        ensures answer { result ≡ listed (code_of C.means self.now) (letters_of C.means self.now) t (length buffer.old) }
        ensures buffer { buffer.new ≡ shown (code_of C.means self.now) (letters_of C.means self.now) t (length buffer.old) }
    {
        let n = self.code.places();
        self.code.list(&self.sheet[0..n], t, buffer)
    }

    // One call that is given as a value, with its buffer. Hear and strike leave the buffer as it is.
    pub fn serve(&mut self, call: Call, buffer: &mut [u8]) -> Answer
        ensures same { self.new.code ≡ self.old.code }
        ensures answer { result ≡ says (code_of C.means self.old) (letters_of C.means self.old) call (length buffer.old) }
        ensures after { letters_of C.means self.new ≡ next (code_of C.means self.old) (letters_of C.means self.old) call }
        ensures buffer { buffer.new ≡ left_in (code_of C.means self.old) (letters_of C.means self.old) call buffer.old }
    {
        match call {
            Call::Hear { place, letter } => self.hear(place, letter),
            Call::Strike { place } => self.strike(place),
            Call::List { t, .. } => self.list(t, buffer),
        }
    }
}
