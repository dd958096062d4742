// The records of the slab's probes: a Reed-Solomon code above a generator code.
ghost use Rattle.std.specs.Prelude.{◌≡◌};
ghost use Rattle.concatenated.specs.Values.{meaning_of};
ghost use Rattle.house_codes.specs.House.{slab, slab_inner};
ghost use Rattle.generator.specs.Values.{meaning_of as generator_meaning};

use crate::binary::binary_code;
use concatenated::Concatenated;
use field::{BinaryField, PrimeField};
use generator::Generator;
use reed_solomon::ReedSolomon;

pub type SlabCode = Concatenated<ReedSolomon<BinaryField>, Generator<PrimeField>>;

// the inner code's table, row after row
const ROWS: [u8; 32] = [
    1, 0, 0, 0, 0, 1, 1, 1, //
    0, 1, 0, 0, 1, 0, 1, 1, //
    0, 0, 1, 0, 1, 1, 0, 1, //
    0, 0, 0, 1, 1, 1, 1, 0,
];

// n 8, k 4 over the field of 2 elements.
pub fn slab_inner_code() -> Generator<PrimeField>
    ensures means { generator_meaning result ≡ slab_inner }
{
    let Ok(two) = PrimeField::new(2) else {
        unreachable!()
    };
    let Ok(code) = Generator::new(two, 8, 4, &ROWS) else {
        unreachable!()
    };
    code
}

// n 15, k 4 over the field of 16 elements, above the inner code at agreement 6.
pub fn slab_code() -> SlabCode
    ensures means { meaning_of result ≡ slab }
{
    let outer = binary_code(4, 15, 4);
    let inner = slab_inner_code();
    let Ok(code) = Concatenated::new(outer, inner, 6) else {
        unreachable!()
    };
    code
}
