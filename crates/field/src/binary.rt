// The fields of 2^m elements: family 2. The bits of a code are the coefficients of a polynomial, bit 0 the constant.
ghost use Rattle.std.specs.Prelude.{◌≡◌, refl, ◌^◌, ◌<◌, T, Ok, Err};
ghost use Rattle.fault.specs.declared.Fault.TheVariants.{Field as Unlisted};
ghost use Rattle.algebra.specs.Listed.{is_exponent};
ghost use Rattle.algebra.specs.Binary.{binary, modulus, times, times_x};
ghost use Rattle.algebra.proofs.BinaryLaws.{binary_laws};

use crate::operand::operand;
use crate::traits::Field;
use fault::Fault;

// the polynomials by which products are reduced, from m = 2 on
const MODULI: [u16; 7] = [0x7, 0xB, 0x13, 0x25, 0x43, 0x89, 0x11D];

#[derive(Clone, Copy)]
pub struct BinaryField {
    m: u8,
    ghost listed: { T (is_exponent m) },
}

impl BinaryField {
    // The field of 2^m elements, where m is listed.
    pub fn new(m: u8) -> Result<BinaryField, Fault>
        ensures { elim result [ Ok f ↦ T (is_exponent m) × (f.m ≡ m) | Err e ↦ (T (is_exponent m) → ⊥) × (e ≡ Unlisted) ] }
    {
        if m >= 2 && m <= 8 {
            Ok(BinaryField { m })
        } else {
            Err(Fault::Field)
        }
    }
}

impl BinaryField {
    fn modulus(self) -> u16
        ensures value { result ≡ modulus self.m }
        ensures small { result < 2 ^ 9 }
    {
        MODULI[self.m as usize - 2]
    }

    // x times r, reduced by the modulus g.
    fn times_x(self, g: u16, r: u16) -> u16
        requires below { r < 2 ^ self.m }
        requires small { g < 2 ^ 9 }
        ensures { result ≡ times_x self.m g r }
    {
        (r * 2) ^ ((r >> (self.m - 1)) % 2 * g)
    }

    // The product of two codes below the size, from the highest bit of b down: x times what there is, and a where the bit is set.
    fn times_reduced(self, a: u8, b: u8) -> u8
        requires { a < 2 ^ self.m }
        ensures { result ≡ times self.m (modulus self.m) self.m a b }
    {
        let g = self.modulus();
        let mut r = 0u16;
        for i in (0..self.m).rev() {
            r = ((b >> i) % 2 * a) as u16 ^ self.times_x(g, r);
        }
        r as u8
    }
}

impl Field for BinaryField {
    const FAMILY: u8 = 2;

    ghost FAMILY = { 2 };

    ghost means = { λ f. binary f.m };

    ghost family = { λ f. refl };

    ghost lawful = { λ f. binary_laws f.m f.listed };

    fn family_number(&self) -> u8 {
        Self::FAMILY
    }

    fn size(&self) -> u16 {
        1 << self.m
    }

    fn add(&self, a: u8, b: u8) -> u8 {
        operand(a, self.size()) ^ operand(b, self.size())
    }

    fn sub(&self, a: u8, b: u8) -> u8 {
        self.add(a, b)
    }

    fn mul(&self, a: u8, b: u8) -> u8 {
        self.times_reduced(operand(a, self.size()), operand(b, self.size()))
    }
}
