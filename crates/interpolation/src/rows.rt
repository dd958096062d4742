// Rows of coefficients: a sum under weights, and the two changes that a step makes.
// A row is written by index: what is written through an iterator is not known to the proof afterwards.
ghost use Rattle.std.specs.Prelude.{◌≡◌, ℕ, ◌<◌, ◌≤◌, length};
ghost use Rattle.algebra.specs.Field.{codes};
ghost use Rattle.algebra.specs.Curve.{dot};
ghost use Rattle.algebra.specs.CodeRecovery.{at};
ghost use Rattle.interpolation.specs.Region.{mixed, lifted};

use field::Field;

// The sum of weight times coefficient. By index: a zip of the two made the lists of a header twice as slow.
pub(crate) fn dot<F: Field>(field: &F, weights: &[u8], row: &[u8]) -> u8
    requires { length row.now ≤ length weights.now }
    ensures { result ≡ dot (codes (F.means field.now)) (length row.now) (at weights.now) (at row.now) }
{
    let mut sum = 0;
    for (i, coefficient) in row.iter().enumerate() {
        sum = field.add(sum, field.mul(weights[i], *coefficient));
    }
    sum
}

// d times the row less e times the pivot's row, in its place.
pub(crate) fn mix_row<F: Field>(field: &F, d: u8, row: &mut [u8], e: u8, pivot: &[u8])
    requires { length row.old ≤ length pivot.now }
    ensures { (i : ℕ) → i < length row.old → at row.new i ≡ mixed (F.means field.now) d (at row.old i) e (at pivot.now i) }
{
    for i in 0..row.len() {
        row[i] = field.sub(field.mul(d, row[i]), field.mul(e, pivot[i]));
    }
}

// x - a times the row, in its place, without the term past its end.
pub(crate) fn lift_row<F: Field>(field: &F, a: u8, row: &mut [u8])
    ensures { (i : ℕ) → i < length row.old → at row.new i ≡ lifted (F.means field.now) a (at row.old) i }
{
    let mut before = 0;
    for i in 0..row.len() {
        let here = row[i];
        row[i] = field.sub(before, field.mul(a, here));
        before = here;
    }
}
