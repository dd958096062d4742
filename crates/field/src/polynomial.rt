// The value of a polynomial at a point: one routine for every field.
ghost use Rattle.std.specs.Prelude.{◌≡◌};
ghost use Rattle.algebra.specs.Polynomial.{value};

use crate::traits::Field;

// The value at the point of the polynomial with these coefficients, the constant first. By Horner's rule:
// from the last coefficient down, the sum so far times the point, and the coefficient.
pub fn value<F: Field>(field: &F, coefficients: &[u8], point: u8) -> u8
    ensures { result ≡ value (F.means field.now) coefficients.now point }
{
    coefficients.iter().rev().fold(
        0,
        |sum, coefficient| field.add(*coefficient, field.mul(point, sum)),
    )
}
