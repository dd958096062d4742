// Reed-Solomon codes over fields of 2^m elements.
ghost use Rattle.std.specs.Prelude.{◌≡◌, ◌^◌, true, T};
ghost use Rattle.algebra.specs.Binary.{binary};
ghost use Rattle.algebra.specs.Listed.{is_exponent};
ghost use Rattle.counting.specs.Counting.{limits};
ghost use Rattle.reed_solomon.specs.ReedSolomon.{rs_meaning, shaped};
ghost use Rattle.reed_solomon.specs.Values.{meaning_of};

use field::BinaryField;
use reed_solomon::ReedSolomon;

// The code of n places and k message letters, where these lie in their limits.
pub(crate) fn binary_code(m: u8, n: usize, k: usize) -> ReedSolomon<BinaryField>
    requires listed { T (is_exponent m) }
    requires shaped { shaped (2 ^ m) n k ≡ true }
    ensures means { meaning_of result ≡ rs_meaning limits (binary m) n k }
{
    let Ok(field) = BinaryField::new(m) else {
        unreachable!()
    };
    let Ok(code) = ReedSolomon::new(field, n, k) else {
        unreachable!()
    };
    code
}
