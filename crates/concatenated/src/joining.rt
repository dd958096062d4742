// The joining of an outer and an inner code.
ghost use Rattle.std.specs.Prelude.{◌≡◌, ◌^◌, ◌≤◌, true, false, Ok, Err, ◌==◌};
ghost use Rattle.fault.specs.declared.Fault.TheVariants.{Join};
ghost use Rattle.concatenated.specs.Concatenation.{joins, Joined};

use code::{Code, MAX_PLACES};
use fault::Fault;

// An outer code above an inner code, whose blocks are listed at an agreement of the inner code.
#[derive(Drop)]
pub struct Concatenated<O: Code, I: Code> {
    pub(crate) outer: O,
    pub(crate) inner: I,
    pub(crate) agreement: usize,
    // The outer letters are the numbers of the inner messages, and the agreement and the places lie in their limits.
    pub ghost joined: { Joined (O.means outer) (I.means inner) agreement },
}

// Whether q is p to the k.
fn is_power(q: usize, p: usize, k: usize) -> bool
    requires few { q ≤ 256 }
    requires short { k ≤ 16 }
    ensures { result ≡ (q == p ^ k) }
{
    p.checked_pow(k as u32) == Some(q)
}

impl<O: Code + Drop, I: Code + Drop> Concatenated<O, I> {
    // Joins two codes where the outer letters are the numbers of the inner messages, the agreement lies between the inner least and top, and the places are few enough. Refused, it lets both go.
    pub fn new(outer: O, inner: I, agreement: usize) -> Result<Concatenated<O, I>, Fault>
        ensures { elim result [ Ok c ↦ (joins (O.means outer) (I.means inner) agreement ≡ true) × (c.outer ≡ outer) × (c.inner ≡ inner) × (c.agreement ≡ agreement) | Err f ↦ (joins (O.means outer) (I.means inner) agreement ≡ false) × (f ≡ Join) ] }
    {
        if !is_power(outer.letters(), inner.base(), inner.dimension()) {
            return Err(Fault::Join);
        }
        if agreement < inner.least() || agreement > inner.top() {
            return Err(Fault::Join);
        }
        if outer.places() * inner.places() > MAX_PLACES {
            return Err(Fault::Join);
        }
        Ok(Concatenated {
            outer,
            inner,
            agreement,
        })
    }
}
