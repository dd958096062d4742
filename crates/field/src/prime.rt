// The whole numbers modulo a listed prime: family 1.
ghost use Rattle.std.specs.Prelude.{◌≡◌, refl, T, Ok, Err};
ghost use Rattle.fault.specs.declared.Fault.TheVariants.{Field as Unlisted};
ghost use Rattle.algebra.specs.Listed.{is_prime_size};
ghost use Rattle.algebra.specs.Prime.{prime};
ghost use Rattle.algebra.proofs.Modular.{prime_laws};

use crate::operand::operand;
use crate::traits::Field;
use fault::Fault;

#[derive(Clone, Copy)]
pub struct PrimeField {
    p: u8,
    ghost listed: { T (is_prime_size p) },
}

impl PrimeField {
    // The whole numbers modulo p, where p is listed.
    pub fn new(p: u8) -> Result<PrimeField, Fault>
        ensures { elim result [ Ok f ↦ T (is_prime_size p) × (f.p ≡ p) | Err e ↦ (T (is_prime_size p) → ⊥) × (e ≡ Unlisted) ] }
    {
        match p {
            2 | 3 | 5 | 7 | 11 | 13 | 17 => Ok(PrimeField { p }),
            _ => Err(Fault::Field),
        }
    }
}

impl Field for PrimeField {
    const FAMILY: u8 = 1;

    ghost FAMILY = { 1 };

    ghost means = { λ f. prime f.p };

    ghost family = { λ f. refl };

    ghost lawful = { λ f. prime_laws f.p f.listed };

    fn family_number(&self) -> u8 {
        Self::FAMILY
    }

    fn size(&self) -> u16 {
        self.p as u16
    }

    fn add(&self, a: u8, b: u8) -> u8 {
        let p = self.size();
        ((operand(a, p) as u16 + operand(b, p) as u16) % p) as u8
    }

    fn sub(&self, a: u8, b: u8) -> u8 {
        let p = self.size();
        ((operand(a, p) as u16 + (p - operand(b, p) as u16)) % p) as u8
    }

    fn mul(&self, a: u8, b: u8) -> u8 {
        let p = self.size();
        ((operand(a, p) as u16 * operand(b, p) as u16) % p) as u8
    }
}
