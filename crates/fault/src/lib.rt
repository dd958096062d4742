// Why a call is refused: one enum for the whole library, each case with its number.

#![tactic(auto)]

ghost use Rattle.std.specs.Prelude.{◌≡◌, Some};
ghost use Rattle.fault.specs.Numbers.{number};
ghost use Rattle.fault.specs.Words.{words};
ghost use Rattle.fault.specs.declared.Fault.TheVariants.{Reach as OutOfReach};

use std::error::Error;
use std::fmt;

// Where a list is out of reach: how many codes further down the refusal arose, and the first place of the part that it speaks of.
// A place has 16 bits, since codes may grow to more places than a byte counts.
#[derive(Clone, Copy, Debug, PartialEq, Eq)]
pub struct Reach {
    pub level: u8,
    pub place: u16,
}

#[derive(Clone, Copy, Debug, PartialEq, Eq)]
pub enum Fault {
    // refused for the input
    // not a listed field
    Field,
    // a size outside its limits
    Shape,
    // a generator table with a wrong count of letters, a letter not below q, or no identity
    Generator,
    // two codes that cannot be concatenated
    Join,
    // a place not below the number of places
    Place,
    // a letter not below q
    Letter,
    // an agreement outside 1 to top
    Agreement,
    // a sheet not of n places, or with a mark not below q
    Sheet,
    // a word buffer not of n letters
    Length,
    // a message not of k letters below p
    Message,
    // an unknown kind of record in a hearings file
    Kind,
    // a hearings file that ends inside a record
    Cut,
    // a hearings file that is too long
    Long,
    // an unknown house code
    Code,
    // refused for the state
    // more letters than the method can recover from
    Reach(Reach),
    // a list that does not fit the buffer
    Short,
    // a strike of an empty place
    Empty,
    // a call before a code is chosen
    Unchosen,
    // a second choice of a code
    Chosen,
    // a pair that is already taken
    Twice,
    // a fitting that holds all its pairs
    Full,
}

impl Fault {
    // The number under which the refusal is printed.
    pub fn number(self) -> u8
        ensures { result ≡ number self }
    {
        match self {
            Fault::Field => 1,
            Fault::Shape => 2,
            Fault::Generator => 3,
            Fault::Join => 4,
            Fault::Place => 5,
            Fault::Letter => 6,
            Fault::Agreement => 7,
            Fault::Sheet => 8,
            Fault::Length => 9,
            Fault::Message => 10,
            Fault::Kind => 11,
            Fault::Cut => 12,
            Fault::Long => 13,
            Fault::Code => 14,
            Fault::Reach(_) => 20,
            Fault::Short => 21,
            Fault::Empty => 22,
            Fault::Unchosen => 23,
            Fault::Chosen => 24,
            Fault::Twice => 25,
            Fault::Full => 26,
        }
    }
}

impl From<Reach> for Fault {
    ghost from_gives = { λ reach fault. fault ≡ OutOfReach reach };

    fn from(reach: Reach) -> Fault {
        Fault::Reach(reach)
    }
}

// The refusal in a line: its number, and where a list is out of reach.
impl fmt::Display for Fault {
    ghost output = { λ f. Some (words f) };

    fn fmt<W: fmt::Write>(&self, f: &mut fmt::Formatter<W>) -> fmt::Result {
        let number = self.number();
        match self {
            Fault::Reach(Reach { level, place }) => {
                write!(f, "refused {number} level {level} place {place}")
            }
            _ => write!(f, "refused {number}"),
        }
    }
}

impl Error for Fault {}
