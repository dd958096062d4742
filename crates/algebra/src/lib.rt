// The mathematics of list recovery. Nothing is computed here: the contract of each function is a theorem,
// over every field, and for the codes of every field that keeps the laws.

#![tactic(auto)]

ghost use Rattle.std.specs.Prelude.{◌≡◌, ℕ, ◌+◌, ◌*◌, ◌/◌, ◌<◌, [], ◌∷◌};
ghost use Rattle.algebra.specs.Field.{Meaning, Laws, codes};
ghost use Rattle.algebra.specs.Prime.{prime};
ghost use Rattle.algebra.specs.Ring.{Field};
ghost use Rattle.algebra.specs.Curve.{hasse, Lies};
ghost use Rattle.algebra.specs.Recovery.{Vanishing, Few, Unique, StepKeeps, RunEnds, Interpolates, WalkMeets, Recovery};
ghost use Rattle.algebra.specs.CodeRecovery.{CodeVanishing, CodeFew, CodeUnique, CodeStepKeeps, CodeRunEnds, CodeInterpolates, CodeWalkMeets, CodeListBound, CodeRecovery};
ghost use Rattle.algebra.specs.Example.{line, square, Example};

// The values of the type are the elements of a field.
pub trait Scalar: Sized {
    ghost laws: { Field Self };
}

// All theorems over a field. The functions below each state one of them, with its numbers.
fn over_fields<K: Scalar>()
    ensures { Recovery K.laws }
{}

// All theorems for codes.
fn over_codes()
    ensures { CodeRecovery }
{}

// A curve with multiplicity r at different pairs, of weighted degree below r t, vanishes on every polynomial through t of them.
pub fn curve_vanishes<K: Scalar>()
    ensures elements { (r t : ℕ) → Vanishing K.laws r t (r * t) }
    ensures coded { (F : Meaning) → Laws F → (r t : ℕ) → CodeVanishing F r t (r * t) }
{
    over_fields::<K>();
    over_codes();
}

// On a curve that is not zero lie fewer polynomials than it has rows.
pub fn few_on_curve<K: Scalar>()
    ensures elements { (rows : ℕ) → Few K.laws rows rows }
    ensures coded { (F : Meaning) → Laws F → (rows : ℕ) → CodeFew F rows rows }
{
    over_fields::<K>();
    over_codes();
}

// Two polynomials of k coefficients that agree at k points are equal.
pub fn polynomials_are_unique<K: Scalar>()
    ensures elements { (k : ℕ) → Unique K.laws k k }
    ensures coded { (F : Meaning) → Laws F → (k : ℕ) → CodeUnique F k k }
{
    over_fields::<K>();
    over_codes();
}

// A step of Kötter's method keeps the invariant, as long as the columns of the table hold the degree.
pub fn step_keeps<K: Scalar>()
    ensures elements { (columns degree : ℕ) → degree < columns → StepKeeps K.laws columns degree }
    ensures coded { (F : Meaning) → Laws F → (columns degree : ℕ) → degree < columns → CodeStepKeeps F columns degree }
{
    over_fields::<K>();
    over_codes();
}

// Where the monomials exceed the conditions of multiplicity r at N pairs, the steps end with a fitted curve.
pub fn steps_end<K: Scalar>()
    ensures elements { (r N : ℕ) → RunEnds K.laws r N (N * r * (r + 1) / 2) }
    ensures coded { (F : Meaning) → Laws F → (r N : ℕ) → CodeRunEnds F r N (N * r * (r + 1) / 2) }
{
    over_fields::<K>();
    over_codes();
}

// So a fitted curve exists there.
pub fn curve_exists<K: Scalar>()
    ensures elements { (r N : ℕ) → Interpolates K.laws r N (N * r * (r + 1) / 2) }
    ensures coded { (F : Meaning) → Laws F → (r N : ℕ) → CodeInterpolates F r N (N * r * (r + 1) / 2) }
{
    over_fields::<K>();
    over_codes();
}

// The walk meets every polynomial on a curve whose weighted degree is below the number of columns.
pub fn walk_misses_nothing<K: Scalar>()
    ensures elements { (columns rows : ℕ) → WalkMeets K.laws columns rows columns }
    ensures coded { (F : Meaning) → Laws F → (columns rows : ℕ) → CodeWalkMeets F columns rows columns }
{
    over_fields::<K>();
    over_codes();
}

// Where the counting rule holds, fewer polynomials than rows pass through t of the pairs.
pub fn lists_are_short()
    ensures { (F : Meaning) → Laws F → (r t rows : ℕ) → CodeListBound F r t rows rows }
{
    over_codes();
}

// A small instance, in which what the theorems assume is met.
fn over_two_elements()
    ensures { Example }
{}

// Over two elements the polynomial 0 lies on the curve y and 1 does not, and the second Hasse derivative of x^2 is one,
// where a plain derivative would be zero.
pub fn small_instance()
    ensures lies { Lies (codes (prime 2)) 1 2 line (0 ∷ []) }
    ensures off { Lies (codes (prime 2)) 1 2 line (1 ∷ []) → ⊥ }
    ensures second { hasse (codes (prime 2)) 3 1 1 0 2 0 square ≡ 1 }
{
    over_two_elements();
}
