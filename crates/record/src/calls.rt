// The calls of a record, as values.
ghost use Rattle.std.specs.Prelude.{◌≡◌, Some};
ghost use Rattle.record.specs.Book.{takes};
ghost use Rattle.record.specs.Words.{words};

use fault::Fault;
use std::fmt;

#[derive(Clone, Copy, Debug, PartialEq, Eq)]
pub enum Call {
    // A letter is heard at a place.
    Hear { place: usize, letter: u8 },
    // The letters of a place are struck out.
    Strike { place: usize },
    // The messages with agreement t at least are listed, into a buffer of so many bytes.
    List { t: usize, room: usize },
}

// The call as a command.
impl fmt::Display for Call {
    ghost output = { λ c. Some (words c) };

    fn fmt<W: fmt::Write>(&self, f: &mut fmt::Formatter<W>) -> fmt::Result {
        match self {
            Call::Hear { place, letter } => write!(f, "hear {place} {letter}"),
            Call::Strike { place } => write!(f, "strike {place}"),
            Call::List { t, .. } => write!(f, "list {t}"),
        }
    }
}

// A count, or why the call is refused.
pub type Answer = Result<usize, Fault>;

// How many of the bytes that are left a call takes for its buffer.
pub(crate) fn taken(call: Call, left: usize) -> usize
    ensures { result ≡ takes call left }
{
    match call {
        Call::Hear { .. } | Call::Strike { .. } => 0,
        Call::List { room, .. } => room.min(left),
    }
}
