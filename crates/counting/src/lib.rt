// The counting rule: how many pairs a curve of bounded degree can be fitted to.

#![tactic(auto)]

ghost use Rattle.std.specs.Prelude.{◌≡◌, ◌-◌, ◌≤◌, nat_lt};
ghost use Rattle.algebra.specs.Interpolation.{monomials};
ghost use Rattle.counting.specs.Counting.{limits, conditions, suits, by_counting};

// The bounds of the method: multiplicities from 1, powers of y and weighted degrees from 0.
pub const MAX_MULTIPLICITY: usize = 4;

pub const MAX_POWER: usize = 15;

pub const MAX_DEGREE: usize = 63;

// No more monomials than this are ever counted.
const MOST_MONOMIALS: usize = 1024;

// How many monomials have a power of y up to MAX_POWER and weighted degree d at most, the weight of y being v.
#[tactic(auto, using(algebra::proofs::Totals::monomials_is), unfolding(algebra::specs::Interpolation::total))]
fn count_monomials(v: usize, d: usize) -> usize
    requires { d ≤ 63 }
    ensures { result ≡ monomials 16 v d }
{
    let mut sum = 0;
    for j in 0..=MAX_POWER {
        sum += (d + 1).saturating_sub(v.saturating_mul(j));
    }
    sum
}

// More monomials than conditions: as many would not do, since then zero may be the only curve.
fn exceeds(monomials: usize, load: usize, r: usize) -> bool
    requires load { load ≤ 1024 }
    requires high { r ≤ 4 }
    ensures { result ≡ nat_lt (conditions load r) monomials }
{
    load * r * (r + 1) / 2 < monomials
}

// Whether multiplicity r is admitted, with more monomials than conditions.
#[tactic(auto, using(crate::proofs::Steps::grown, crate::proofs::Steps::room_le, crate::proofs::Steps::conditions_low), unfolding(crate::specs::Counting::suits))]
fn does_suit(v: usize, t: usize, load: usize, r: usize) -> bool
    requires low { 1 ≤ r }
    requires high { r ≤ 4 }
    ensures { result ≡ suits limits v t load r }
{
    if t > MAX_DEGREE + 1 {
        return false;
    }
    let d = (r * t).saturating_sub(1);
    if d > MAX_DEGREE || load > MOST_MONOMIALS {
        return false;
    }
    exceeds(count_monomials(v, d), load, r)
}

// The smallest multiplicity by which a load is in reach at the agreement t, for messages of v + 1 letters; none where it is out of reach.
pub fn counting(v: usize, t: usize, load: usize) -> Option<usize>
    ensures { result ≡ by_counting limits v t load }
{
    for r in 1..=MAX_MULTIPLICITY {
        if does_suit(v, t, load, r) {
            return Some(r);
        }
    }
    None
}
