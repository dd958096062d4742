// What a reader of a hearings file has, and what it does with the records of the file.
ghost use Rattle.std.specs.Prelude.{◌≡◌};
ghost use Rattle.house_codes.specs.House.{house};
ghost use Rattle.hearings.specs.File.{call as asked};
ghost use Rattle.hearings.specs.Writing.{Wrote};
ghost use Rattle.hearings.specs.Text.{opened, choice_lines, lines_of, turned};
ghost use Rattle.hearings.specs.Values.{entry_of};
ghost use Rattle.hearings.specs.Readers.{book_of};

use crate::choices::{Choice, refused_again};
use crate::items::Item;
use crate::records::{HouseRecord, ROOM};
use crate::writing::Text;
use fault::Fault;
use house_codes::{BrineCode, HeaderCode, SlabCode};
use record::Call;

// No code yet, or a record of the chosen code.
#[derive(Drop)]
pub(crate) enum Reader {
    Unchosen,
    Slab(HouseRecord<SlabCode>),
    Header(HouseRecord<HeaderCode>),
    Brine(HouseRecord<BrineCode>),
}

// The first choice of a code.
fn first_choice(number: u8, offset: usize, text: &mut Text<'_>) -> Reader
    ensures book { book_of result ≡ opened (house number) }
    ensures wrote { Wrote text.old (choice_lines offset number (house number)) text.new }
{
    match Choice::try_from(number) {
        Ok(choice) => {
            choice.tell(text);
            choice.open()
        }
        Err(fault) => {
            text.push_refusal(offset, fault);
            Reader::Unchosen
        }
    }
}

impl Reader {
    // A call of the record of the chosen code.
    fn call(&mut self, call: Call, offset: usize, text: &mut Text<'_>)
        ensures book { book_of self.new ≡ turned (book_of self.old) (asked call) }
        ensures wrote { Wrote text.old (lines_of (book_of self.old) offset (asked call)) text.new }
    {
        match self {
            Reader::Unchosen => text.push_refusal(offset, Fault::Unchosen),
            Reader::Slab(record) => record.tell(call, offset, text),
            Reader::Header(record) => record.tell(call, offset, text),
            Reader::Brine(record) => record.tell(call, offset, text),
        }
    }

    // One record of the file, whose kind byte stands at this offset: by what the reader has and by the record's kind.
    pub(crate) fn turn(&mut self, item: Item<'_>, offset: usize, text: &mut Text<'_>)
        ensures book { book_of self.new ≡ turned (book_of self.old) (entry_of item.entry) }
        ensures wrote { Wrote text.old (lines_of (book_of self.old) offset (entry_of item.entry)) text.new }
    {
        match (&mut *self, item) {
            (Reader::Unchosen, Item::Choose(body)) => *self = first_choice(body[0], offset, text),
            (_, Item::Choose(body)) => text.push_refusal(offset, refused_again(body[0])),
            (_, Item::Heard(body)) => {
                let place = body[0] as usize;
                let letter = body[1];
                self.call(Call::Hear { place, letter }, offset, text)
            }
            (_, Item::Struck(body)) => {
                let place = body[0] as usize;
                self.call(Call::Strike { place }, offset, text)
            }
            (_, Item::List(body)) => {
                let t = body[0] as usize;
                self.call(Call::List { t, room: ROOM }, offset, text)
            }
        }
    }
}
