// A Reed-Solomon code over a field: its sizes, its words, and its least agreement.
ghost use Rattle.std.specs.Prelude.{◌≡◌, ◌≤◌, true, false, length, Ok, Err};
ghost use Rattle.fault.specs.declared.Fault.TheVariants.{Shape as OutOfLimits};
ghost use Rattle.counting.specs.Counting.{limits};
ghost use Rattle.code.specs.Messages.{span};
ghost use Rattle.reed_solomon.specs.Least.{least_reach};
ghost use Rattle.reed_solomon.specs.ReedSolomon.{word_at, shaped, Shape};

use counting::counting;
use fault::Fault;
use field::{Field, value};

// The most message letters, and places.
pub const MAX_LETTERS: usize = 16;

pub const MAX_PLACES: usize = 64;

// The code of n places and messages of k letters: a word is the values of a polynomial at the elements with codes 0 to n - 1.
#[derive(Drop)]
pub struct ReedSolomon<F: Field> {
    pub(crate) field: F,
    pub(crate) n: usize,
    pub(crate) k: usize,
    // n and k lie in their limits over the field.
    pub ghost kept: { Shape (F.means field) n k },
}

// Whether n and k lie in their limits, over a field of q elements.
fn is_shaped(q: usize, n: usize, k: usize) -> bool
    ensures { result ≡ shaped q n k }
{
    1 <= k && k <= MAX_LETTERS && k <= n && n <= MAX_PLACES && n <= q
}

// Fills in the values of the message's polynomial at the elements with codes from 0 on.
pub(crate) fn write_values<F: Field>(field: &F, message: &[u8], word: &mut [u8])
    requires { length word.old ≤ 256 }
    ensures { word.new ≡ word_at (F.means field.now) (span 0 (length word.old)) message.now }
{
    // By index: what is written through an iterator is not known to a proof afterwards.
    for i in 0..word.len() {
        word[i] = value(field, message, i as u8);
    }
}

// The smallest agreement from k to n such that load n is in reach at it and at each above it to n.
pub(crate) fn least_of(n: usize, k: usize) -> usize
    requires low { 1 ≤ k }
    requires within { k ≤ n }
    requires high { n ≤ 64 }
    ensures { result ≡ least_reach limits n k }
{
    for t in (k..n).rev() {
        if counting(k - 1, t, n).is_none() {
            return t + 1;
        }
    }
    k
}

impl<F: Field + Drop> ReedSolomon<F> {
    // The code, where n and k lie in their limits.
    pub fn new(field: F, n: usize, k: usize) -> Result<ReedSolomon<F>, Fault>
        ensures { elim result [ Ok c ↦ (shaped (F.means field).size n k ≡ true) × (c.field ≡ field) × (c.n ≡ n) × (c.k ≡ k) | Err e ↦ (shaped (F.means field).size n k ≡ false) × (e ≡ OutOfLimits) ] }
    {
        let q = field.size() as usize;
        if is_shaped(q, n, k) {
            Ok(ReedSolomon { field, n, k })
        } else {
            Err(Fault::Shape)
        }
    }
}
