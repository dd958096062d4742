// A generator code over a field: its table, and the limits of its size.
ghost use Rattle.generator.specs.Generator.{Table};

use field::Field;

// The most rows of a table.
pub(crate) const MAX_ROWS: usize = 8;

// The most columns.
pub(crate) const MAX_PLACES: usize = 16;

// The most messages.
pub(crate) const MAX_MESSAGES: u128 = 256;

// The letters that a table has room for.
pub(crate) const TABLE_SIZE: usize = MAX_ROWS * MAX_PLACES;

// A code of k rows and n columns: row after row at the front of the table, and zeros in the rest.
#[derive(Drop)]
pub struct Generator<F: Field> {
    pub(crate) field: F,
    pub(crate) table: [u8; TABLE_SIZE],
    pub(crate) n: usize,
    pub(crate) k: usize,
    // The sizes lie in their limits, the letters are the field's, and the identity stands in front.
    pub ghost kept: { Table (F.means field) table n k },
}
