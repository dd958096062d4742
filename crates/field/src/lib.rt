// Finite fields by code: an element is a number below the size, 0 is zero and 1 is one.

#![tactic(auto)]

mod binary;
mod operand;
mod polynomial;
mod prime;
mod traits;

pub use binary::BinaryField;
pub use polynomial::value;
pub use prime::PrimeField;
pub use traits::Field;
