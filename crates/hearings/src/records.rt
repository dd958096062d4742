// Records of the house codes.
ghost use Rattle.std.specs.Prelude.{◌≡◌, ◌≤◌};
ghost use Rattle.record.specs.Values.{letters_of};
ghost use Rattle.record.specs.Book.{fresh, next};
ghost use Rattle.hearings.specs.Writing.{Wrote};
ghost use Rattle.hearings.specs.Text.{call_lines};

use crate::messages::Messages;
use crate::writing::Text;
use code::Code;
use record::{Call, Record};

// The bytes that each list has for its buffer.
pub(crate) const ROOM: usize = 256;

// A record of letters, and how many letters a message of its code has.
#[derive(Drop)]
pub(crate) struct HouseRecord<C: Code> {
    record: Record<C>,
    dimension: usize,
    ghost same: { dimension ≡ (C.means record.code).k },
    ghost some: { 1 ≤ dimension },
}

impl<C: Code> HouseRecord<C> {
    // A record in which no letter stands.
    pub(crate) fn new(code: C) -> HouseRecord<C>
        requires some { 1 ≤ (C.means code).k }
        ensures same { result.record.code ≡ code }
        ensures blank { letters_of C.means result.record ≡ fresh (C.means code) }
    {
        let dimension = code.dimension();
        let record = Record::new(code);
        HouseRecord { record, dimension }
    }

    // Serves a call, and prints what it answers: a list its count and its messages, another call that is accepted nothing.
    #[tactic(auto, unfolding(crate::specs::Writing::puts))]
    pub(crate) fn tell(&mut self, call: Call, offset: usize, text: &mut Text<'_>)
        ensures same { self.new.record.code ≡ self.old.record.code }
        ensures after { letters_of C.means self.new.record ≡ next (C.means self.old.record.code) (letters_of C.means self.old.record) call }
        ensures wrote { Wrote text.old (call_lines offset (C.means self.old.record.code) (letters_of C.means self.old.record) call) text.new }
    {
        let k = self.dimension;
        let mut buffer = [0u8; ROOM];
        let answer = self.record.serve(call, &mut buffer);
        match (answer, call) {
            (Ok(count), Call::List { t, .. }) => {
                let bytes = &buffer;
                text.push_list(t, Messages { k, count, bytes })
            }
            (Ok(_), _) => {}
            (Err(fault), _) => text.push_refusal(offset, fault),
        }
    }
}
