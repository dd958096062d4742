// Opening a fitting.
ghost use Rattle.std.specs.Prelude.{◌≡◌, ◌-◌, ◌<◌, ◌&&◌};
ghost use Rattle.interpolation.specs.Fitting.{shaped, Opens};

use crate::plan::{MAX_AGREEMENT, MAX_COEFFICIENTS, Plan};
use counting::counting;
use fault::{Fault, Reach};

// Whether k and t lie in their limits.
fn is_shaped(k: usize, t: usize) -> bool
    ensures { result ≡ shaped k t }
{
    1 <= k && k <= MAX_COEFFICIENTS && 1 <= t && t <= MAX_AGREEMENT
}

// Checks what a fitting of up to `limit` pairs is to be opened with: polynomials of k coefficients through at least t of the pairs.
pub fn open(k: usize, t: usize, limit: usize) -> Result<Plan, Fault>
    ensures { Opens k t limit result }
{
    if !is_shaped(k, t) {
        return Err(Fault::Shape);
    }
    let out_of_reach = Fault::Reach(Reach { level: 0, place: 0 });
    let r = counting(k - 1, t, limit).ok_or(out_of_reach)?;
    Ok(Plan { k, t, limit, r })
}
