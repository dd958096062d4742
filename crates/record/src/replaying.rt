// Whole sequences of calls, and what is promised of them.
ghost use Rattle.std.specs.Prelude.{◌≡◌, ◌+◌, ◌-◌, ◌<◌, ◌≤◌, min, ◌++◌, length, take, drop, slice_set};
ghost use Rattle.record.specs.Values.{code_of, letters_of};
ghost use Rattle.record.specs.Book.{fresh, says, next, left_in, takes, served, ByTheBook};
ghost use Rattle.record.specs.Promise.{Promise};

use crate::calls::{Answer, Call, taken};
use crate::recording::Record;
use code::Code;

// How many calls are served: each has a slot for its answer.
fn count_served(calls: &[Call], answers: &[Answer]) -> usize
    ensures { result ≡ min (length calls.now) (length answers.now) }
{
    calls.len().min(answers.len())
}

// Where the bytes of a call end that has those from `at` on for its buffer.
fn end_of(call: Call, at: usize, total: usize) -> usize
    requires { at ≤ total }
    ensures end { result ≡ at + takes call (total - at) }
    ensures inside { result ≤ total }
{
    at + taken(call, total - at)
}

impl<C: Code> Record<C> {
    // One call: its answer goes into slot i, and its buffer is the bytes from `at` to `end`.
    fn serve_into(
        &mut self,
        call: Call,
        i: usize,
        answers: &mut [Answer],
        at: usize,
        end: usize,
        buffers: &mut [u8],
    )
        requires slot { i < length answers.old }
        requires begin { at ≤ end }
        requires end { end ≤ length buffers.old }
        ensures same { self.new.code ≡ self.old.code }
        ensures after { letters_of C.means self.new ≡ next (code_of C.means self.old) (letters_of C.means self.old) call }
        ensures answer { answers.new ≡ slice_set answers.old i (says (code_of C.means self.old) (letters_of C.means self.old) call (end - at)) }
        ensures buffer { buffers.new ≡ take at buffers.old ++ (left_in (code_of C.means self.old) (letters_of C.means self.old) call (take (end - at) (drop at buffers.old)) ++ drop (end - at) (drop at buffers.old)) }
    {
        answers[i] = self.serve(call, &mut buffers[at..end]);
    }

    // All the calls that have a slot for their answer. Each list has the next of the bytes for its buffer.
    fn serve_all(&mut self, calls: &[Call], answers: &mut [Answer], buffers: &mut [u8])
        ensures same { self.new.code ≡ self.old.code }
        ensures book { ByTheBook (code_of C.means self.old) (letters_of C.means self.old) calls.now answers.old buffers.old (letters_of C.means self.new) answers.new buffers.new }
    {
        let mut at = 0;
        // By index: i is the call's number and that of its slot, and no plainer from a part of the calls.
        for i in 0..count_served(calls, answers) {
            let end = end_of(calls[i], at, buffers.len());
            self.serve_into(calls[i], i, answers, at, end, buffers);
            at = end;
        }
    }
}

// A record of this code after the calls. It is empty at first; call i has slot i for its answer, and each list the next of the bytes for its buffer.
// Calls for which there is no slot are not served. Slots and bytes that no call takes stay as they are.
pub fn replay<C: Code>(
    code: C,
    calls: &[Call],
    answers: &mut [Answer],
    buffers: &mut [u8],
) -> Record<C>
    ensures same { result.code ≡ code }
    ensures book { ByTheBook (C.means code) (fresh (C.means code)) calls.now answers.old buffers.old (letters_of C.means result) answers.new buffers.new }
    ensures promise { Promise (C.means code) (served calls.now answers.old) answers.new (length buffers.old) buffers.new (letters_of C.means result) }
{
    let mut record = Record::new(code);
    record.serve_all(calls, answers, buffers);
    record
}
