// The weights C(i, u) a^(i - u) that a derivative of order u at a gives to the powers of x, by Pascal's rule.
// A row is written by index: what is written through an iterator is not known to the proof afterwards.
ghost use Rattle.std.specs.Prelude.{ℕ, suc, length};
ghost use Rattle.interpolation.specs.Weighed.{Weighed};

use field::Field;

// The weights of order zero: the powers of a.
pub(crate) fn powers<F: Field>(field: &F, a: u8, row: &mut [u8])
    ensures { Weighed (F.means field.now) a 0 (length row.old) row.new }
{
    let mut power = 1;
    for i in 0..row.len() {
        row[i] = power;
        power = field.mul(a, power);
    }
}

// From the weights of one order to those of the next, in place.
pub(crate) fn raise<F: Field>(field: &F, a: u8, row: &mut [u8])
    ensures { (u : ℕ) → Weighed (F.means field.now) a u (length row.old) row.old → Weighed (F.means field.now) a (suc u) (length row.old) row.new }
{
    let mut last = 0;
    for i in 0..row.len() {
        let lower = row[i];
        row[i] = last;
        last = field.add(field.mul(a, last), lower);
    }
}
