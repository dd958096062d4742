// A field that counts its products.
use field::Field;
use std::cell::Cell;

#[derive(Drop)]
pub(crate) struct Counted<F: Field> {
    field: F,
    products: Cell<u64>,
}

impl<F: Field> Counted<F> {
    pub(crate) fn new(field: F) -> Counted<F> {
        Counted {
            field,
            products: Cell::new(0),
        }
    }

    // How many products there were since the last call, or since it was made.
    pub(crate) fn take_products(&self) -> u64 {
        self.products.replace(0)
    }
}

impl<F: Field> Field for Counted<F> {
    const FAMILY: u8 = F::FAMILY;

    ghost FAMILY = { F.FAMILY };

    ghost means = { λ c. F.means c.field };

    ghost family = { λ c. F.family c.field };

    ghost lawful = { λ c. F.lawful c.field };

    fn family_number(&self) -> u8 {
        self.field.family_number()
    }

    fn size(&self) -> u16 {
        self.field.size()
    }

    fn add(&self, a: u8, b: u8) -> u8 {
        self.field.add(a, b)
    }

    fn sub(&self, a: u8, b: u8) -> u8 {
        self.field.sub(a, b)
    }

    fn mul(&self, a: u8, b: u8) -> u8 {
        self.products.set(self.products.get().wrapping_add(1));
        self.field.mul(a, b)
    }
}
