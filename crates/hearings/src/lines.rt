// The lines of a text.
ghost use Rattle.std.specs.Prelude.{◌≡◌, ◌*◌, ◌≤◌, ◌++◌, length, take};
ghost use Rattle.hearings.specs.Writing.{Wrote};
ghost use Rattle.hearings.specs.Lines.{choice_line, where_out, refusal, list_line, gap, letters_from, message_line};
ghost use Rattle.hearings.specs.Values.{message_lines};

use crate::messages::Messages;
use crate::writing::Text;
use code::Code;
use fault::Fault;

// What parts letter i from those before it.
fn gap_before(i: usize) -> &'static [u8]
    ensures { result.now ≡ gap i }
{
    if i == 0 { b"" } else { b" " }
}

impl Text<'_> {
    // What a code is, for the one that was chosen by this number.
    pub(crate) fn push_choice<C: Code>(&mut self, number: u8, code: &C)
        ensures { Wrote self.old (choice_line number (C.means code.now)) self.new }
    {
        self.push_field(b"code ", number as usize);
        self.push_field(b" family ", C::FAMILY as usize);
        self.push_field(b" letters ", code.letters());
        self.push_field(b" places ", code.places());
        self.push_field(b" top ", code.top());
        self.push_field(b" least ", code.least());
        self.end_line();
    }

    // Where a list is out of reach; nothing for other refusals.
    #[tactic(auto, unfolding(crate::specs::Writing::puts))]
    fn push_where(&mut self, fault: Fault)
        ensures { Wrote self.old (where_out fault) self.new }
    {
        if let Fault::Reach(reach) = fault {
            self.push_field(b" level ", reach.level as usize);
            self.push_field(b" place ", reach.place as usize);
        }
    }

    // Why the record whose kind byte stands at this offset was refused.
    pub(crate) fn push_refusal(&mut self, offset: usize, fault: Fault)
        ensures { Wrote self.old (refusal offset fault) self.new }
    {
        self.push_field(b"refused ", fault.number() as usize);
        self.push_field(b" at ", offset);
        self.push_where(fault);
        self.end_line();
    }

    fn push_letters(&mut self, letters: &[u8])
        ensures { Wrote self.old (letters_from 0 letters.now) self.new }
    {
        for (i, letter) in letters.iter().enumerate() {
            self.push_field(gap_before(i), *letter as usize);
        }
    }

    // The letters of a message, in a line.
    #[tactic(auto, using(crate::proofs::Wrote::puts_append))]
    fn push_message(&mut self, letters: &[u8])
        ensures { Wrote self.old (message_line letters.now) self.new }
    {
        self.push_letters(letters);
        self.end_line();
    }

    fn push_messages(&mut self, messages: Messages<'_>)
        ensures { Wrote self.old (message_lines messages.entry) self.new }
    {
        let k = messages.k;
        for message in messages.bytes[..messages.count * k].chunks_exact(k) {
            self.push_message(message);
        }
    }

    // A list that was answered: its agreement, its count, and its messages.
    pub(crate) fn push_list(&mut self, t: usize, messages: Messages<'_>)
        ensures { Wrote self.old (list_line t messages.entry.count ++ message_lines messages.entry) self.new }
    {
        self.push_field(b"list ", t);
        self.push_field(b" ", messages.count);
        self.end_line();
        self.push_messages(messages);
    }
}
