// The header of a record: a Reed-Solomon code alone.
ghost use Rattle.std.specs.Prelude.{◌≡◌};
ghost use Rattle.reed_solomon.specs.Values.{meaning_of};
ghost use Rattle.house_codes.specs.House.{header};

use field::PrimeField;
use reed_solomon::ReedSolomon;

pub type HeaderCode = ReedSolomon<PrimeField>;

// n 10, k 3 over the whole numbers modulo 11.
pub fn header_code() -> HeaderCode
    ensures means { meaning_of result ≡ header }
{
    let Ok(eleven) = PrimeField::new(11) else {
        unreachable!()
    };
    let Ok(code) = ReedSolomon::new(eleven, 10, 3) else {
        unreachable!()
    };
    code
}
