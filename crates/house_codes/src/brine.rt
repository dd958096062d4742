// The records of the brine's probes: a Reed-Solomon code above another.
ghost use Rattle.std.specs.Prelude.{◌≡◌};
ghost use Rattle.concatenated.specs.Values.{meaning_of};
ghost use Rattle.house_codes.specs.House.{brine};

use crate::binary::binary_code;
use concatenated::Concatenated;
use field::BinaryField;
use reed_solomon::ReedSolomon;

pub type BrineCode = Concatenated<ReedSolomon<BinaryField>, ReedSolomon<BinaryField>>;

// n 24, k 4 over the field of 256 elements, above n 8, k 2 over the field of 16 elements at agreement 4.
pub fn brine_code() -> BrineCode
    ensures means { meaning_of result ≡ brine }
{
    let outer = binary_code(8, 24, 4);
    let inner = binary_code(4, 8, 2);
    let Ok(code) = Concatenated::new(outer, inner, 4) else {
        unreachable!()
    };
    code
}
