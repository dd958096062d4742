// The making of a generator code.
ghost use Rattle.std.specs.Prelude.{◌≡◌, ◌≤◌, length};
ghost use Rattle.code.specs.Answers.{padded};
ghost use Rattle.generator.specs.Generator.{table_size};
ghost use Rattle.generator.specs.Values.{Makes};

use crate::table::{Generator, TABLE_SIZE};
use crate::words::{is_identity, is_shaped};
use code::is_row;
use fault::Fault;
use field::Field;

// The rows in a table of fixed size, the rest zero.
fn pad(rows: &[u8]) -> [u8; TABLE_SIZE]
    requires { length rows.now ≤ table_size }
    ensures { result ≡ padded table_size rows.now }
{
    let mut table = [0u8; TABLE_SIZE];
    table[0..rows.len()].copy_from_slice(rows);
    table
}

impl<F: Field + Drop> Generator<F> {
    // The code of these rows, one after another. Refused where a size is outside its limits, or where the rows are not a table of letters with the identity in front.
    pub fn new(field: F, n: usize, k: usize, rows: &[u8]) -> Result<Generator<F>, Fault>
        ensures { Makes field n k rows.now result }
    {
        let q = field.size() as usize;
        if !is_shaped(q, n, k) {
            return Err(Fault::Shape);
        }
        if !is_row(rows, k * n, q) {
            return Err(Fault::Generator);
        }
        if !is_identity(rows, n, k) {
            return Err(Fault::Generator);
        }
        let table = pad(rows);
        Ok(Generator { field, table, n, k })
    }
}
