// What a fitting is opened with, checked: k coefficients, agreement t, a limit of pairs, and the multiplicity by which the limit meets the counting rule.
ghost use Rattle.std.specs.Prelude.{◌≡◌, ◌-◌, ◌*◌, ◌<◌, ◌≤◌, true};
ghost use Rattle.counting.specs.Counting.{limits, suits};

use crate::curve::Bound;

// The most coefficients of a polynomial, the highest agreement, and more pairs than any limit allows.
pub const MAX_COEFFICIENTS: usize = 16;

pub const MAX_AGREEMENT: usize = 64;

pub const MAX_PAIRS: usize = 1024;

#[derive(Clone, Copy)]
pub struct Plan {
    pub(crate) k: usize,
    pub(crate) t: usize,
    pub(crate) limit: usize,
    pub(crate) r: usize,
    ghost k_low: { 1 ≤ k },
    ghost k_high: { k ≤ 16 },
    ghost t_low: { 1 ≤ t },
    ghost t_high: { t ≤ 64 },
    ghost few: { limit < 1024 },
    ghost r_low: { 1 ≤ r },
    ghost r_high: { r ≤ 4 },
    ghost counted: { suits limits (k - 1) t limit r ≡ true },
}

impl Plan {
    // What the terms of the curve keep to.
    pub(crate) fn bound(&self) -> Bound
        ensures weight { result.weight ≡ self.now.k - 1 }
        ensures degree { result.degree ≡ self.now.r * self.now.t - 1 }
    {
        Bound {
            weight: self.k - 1,
            degree: self.r * self.t - 1,
        }
    }
}
