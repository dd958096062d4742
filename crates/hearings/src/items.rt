// The records of a hearings file, which borrow their bodies from it.
ghost use Rattle.std.specs.Prelude.{◌≡◌, ◌<◌, ◌≤◌, length, take, drop, MatchResult};
ghost use Rattle.fault.specs.declared.Fault.TheVariants.{Cut};
ghost use Rattle.hearings.specs.File.{front, after_kind};
ghost use Rattle.hearings.specs.Values.{Kinds, number_of_kind, part_of, front_of};

use fault::Fault;

// What a record asks for.
#[derive(Clone, Copy)]
pub(crate) enum Kind {
    Choose,
    Heard,
    Struck,
    List,
}

impl TryFrom<u8> for Kind {
    type Error = Fault;

    ghost try_from_gives = { Kinds };

    fn try_from(number: u8) -> Result<Kind, Fault> {
        match number {
            1 => Ok(Kind::Choose),
            2 => Ok(Kind::Heard),
            3 => Ok(Kind::Struck),
            4 => Ok(Kind::List),
            _ => Err(Fault::Kind),
        }
    }
}

// A record: its kind, and the part of the file that is its body.
#[derive(Clone, Copy)]
pub(crate) enum Item<'a> {
    // the number of a house code
    Choose(&'a [u8; 1]),
    // a place and a letter
    Heard(&'a [u8; 2]),
    // a place
    Struck(&'a [u8; 1]),
    // an agreement
    List(&'a [u8; 1]),
}

// The body at the front of the bytes, and the bytes after it.
fn split_body<const N: usize>(bytes: &[u8]) -> Result<(&[u8; N], &[u8]), Fault>
    ensures { MatchResult result
        (λ p. (p.0.now ≡ take N bytes.now) × (p.1.now ≡ drop N bytes.now) × (N ≤ length bytes.now))
        (λ f. (f ≡ Cut) × (length bytes.now < N)) }
{
    bytes.split_first_chunk().ok_or(Fault::Cut)
}

impl Kind {
    // The record of this kind whose body is at the front of the bytes, and the bytes after it.
    fn read(self, bytes: &[u8]) -> Result<(Item<'_>, &[u8]), Fault>
        ensures { part_of result ≡ after_kind (number_of_kind self) bytes.now }
    {
        match self {
            Kind::Choose => split_body(bytes).map(|(body, rest)| (Item::Choose(body), rest)),
            Kind::Heard => split_body(bytes).map(|(body, rest)| (Item::Heard(body), rest)),
            Kind::Struck => split_body(bytes).map(|(body, rest)| (Item::Struck(body), rest)),
            Kind::List => split_body(bytes).map(|(body, rest)| (Item::List(body), rest)),
        }
    }
}

// The record at the front of the bytes that are left, if there are any, and the bytes after it.
pub(crate) fn read_front(left: &[u8]) -> Result<Option<(Item<'_>, &[u8])>, Fault>
    ensures { front_of result ≡ front left.now }
{
    let Some((number, rest)) = left.split_first() else {
        return Ok(None);
    };
    Ok(Some(Kind::try_from(*number)?.read(rest)?))
}
