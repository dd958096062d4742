// The pairs that a fitting has taken, in fixed memory.
ghost use Rattle.std.specs.Prelude.{◌≡◌, ◌<◌, ◌≤◌, [], ◌∷◌, ◌++◌, length};

use crate::plan::MAX_PAIRS;
use arrayvec::ArrayVec;

// A point, and the value that a polynomial is to have there: codes of elements of the field.
#[derive(Clone, Copy, Default, PartialEq, Eq)]
pub struct Pair {
    pub(crate) point: u8,
    pub(crate) value: u8,
}

#[derive(Drop)]
pub struct Pairs {
    table: ArrayVec<Pair, MAX_PAIRS>,
}

impl Pairs {
    ghost use Rattle.interpolation.specs.Pairs.{pairs_of, points_of, values_of};
    ghost use Rattle.interpolation.specs.Fitting.{among};

    pub(crate) fn new() -> Pairs
        ensures points { points_of result ≡ [] }
        ensures values { values_of result ≡ [] }
    {
        Pairs {
            table: ArrayVec::new(),
        }
    }

    // The pairs that are held.
    pub(crate) fn held(&self) -> &[Pair]
        ensures { result.now ≡ pairs_of self.now }
    {
        self.table.as_slice()
    }

    // How many pairs are held.
    pub(crate) fn len(&self) -> usize
        ensures value { result ≡ length (points_of self.now) }
        ensures few { result ≤ 1024 }
    {
        self.table.len()
    }

    // Whether the pair is held.
    pub(crate) fn has(&self, pair: Pair) -> bool
        ensures { result ≡ among (points_of self.now) (values_of self.now) pair.point pair.value }
    {
        self.held().contains(&pair)
    }

    // One pair more.
    pub(crate) fn push(&mut self, pair: Pair)
        requires { length (points_of self.old) < 1024 }
        ensures points { points_of self.new ≡ points_of self.old ++ pair.point ∷ [] }
        ensures values { values_of self.new ≡ values_of self.old ++ pair.value ∷ [] }
    {
        self.table.push(pair);
    }
}
