// A field, by what it means: one value, on which the field laws hold.
ghost use Rattle.std.specs.Prelude.{◌≡◌, ℕ};
ghost use Rattle.algebra.specs.Field.{Meaning, Laws};

pub trait Field {
    // the number of the family
    const FAMILY: u8;

    ghost FAMILY: { ℕ };

    ghost means: { Self → Meaning };

    ghost family: { (f : Self) → (means f).family ≡ FAMILY };

    // The family's number, for a caller that holds a field and does not name its type.
    fn family_number(&self) -> u8
        ensures { result ≡ (means self.now).family };

    // How many elements there are.
    fn size(&self) -> u16
        ensures { result ≡ (means self.now).size };

    fn add(&self, a: u8, b: u8) -> u8
        ensures { result ≡ (means self.now).sum a b };

    fn sub(&self, a: u8, b: u8) -> u8
        ensures { result ≡ (means self.now).difference a b };

    fn mul(&self, a: u8, b: u8) -> u8
        ensures { result ≡ (means self.now).product a b };

    // The inverse; that of zero is zero. No code below the size but the inverse gives one as the product.
    fn inv(&self, a: u8) -> u8
        ensures { result ≡ (means self.now).inverse a }
    {
        for b in 0..self.size() {
            if self.mul(a, b as u8) == 1 {
                return b as u8;
            }
        }
        0
    }

    ghost lawful: { (f : Self) → Laws (means f) };
}
