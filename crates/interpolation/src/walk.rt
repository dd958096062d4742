// The walk of Roth and Ruckenstein: finds the polynomials on a curve, coefficient by coefficient.
ghost use Rattle.std.specs.Prelude.{◌≡◌, ℕ, ◌+◌, ◌-◌, ◌*◌, ◌<◌, ◌≤◌, true, List, [], ◌∷◌, ◌++◌, length, take, IfSome};
ghost use Rattle.algebra.specs.Field.{codes};
ghost use Rattle.algebra.specs.Curve.{DegreeBelow, Lies};
ghost use Rattle.algebra.specs.CodeRecovery.{table, score};
ghost use Rattle.code.specs.Meaning.{within};
ghost use Rattle.code.specs.Answers.{reached, laid};
ghost use Rattle.code.specs.Messages.{is_row};
ghost use Rattle.interpolation.specs.Pairs.{points, values};
ghost use Rattle.interpolation.specs.Size.{columns, rows};
ghost use Rattle.interpolation.specs.Steps.{Light, Lowered, FootOf, Moved};
ghost use Rattle.interpolation.specs.Recovered.{passes, recovered};
ghost use Rattle.interpolation.specs.Walk.{depths, cells_at, chosen, extended, Descent, Adds};

use crate::curve::{Bound, CELLS, Curve};
use crate::pairs::Pair;
use crate::plan::MAX_COEFFICIENTS;
use crate::region::Region;
use crate::steps::{Foot, lower, substitute};
use fault::Fault;
use field::{Field, value};

// What is searched for: the polynomials of k coefficients through at least t of the pairs.
#[derive(Drop)]
pub(crate) struct Search<'a, F: Field> {
    pub(crate) field: &'a F,
    pub(crate) pairs: &'a [Pair],
    pub(crate) k: usize,
    pub(crate) t: usize,
    ghost some: { 1 ≤ k },
    ghost small: { k ≤ 16 },
}

// The coefficients chosen so far, and at each depth the curve that the rest of the polynomial lies on, in tables of fixed size.
#[derive(Clone, Copy)]
struct Trail {
    curves: [Curve; MAX_COEFFICIENTS],
    prefix: [u8; MAX_COEFFICIENTS],
}

impl Trail {
    // Divides the curve at a depth by the highest power of x that divides it, and reads it at x = 0.
    fn lower(&mut self, depth: usize, region: Region) -> Foot
        requires column { 1 ≤ region.width }
        requires deep { depth < depths }
        ensures prefix { self.new.prefix ≡ self.old.prefix }
        ensures kept { (d : ℕ) → d < depth → cells_at self.new.curves d ≡ cells_at self.old.curves d }
        ensures lowered { Lowered region result.region (cells_at self.old.curves depth) (cells_at self.new.curves depth) }
        ensures foot { FootOf result.region.height result.used result.coefficients (cells_at self.new.curves depth) }
    {
        lower(&mut self.curves[depth], region)
    }

    // Takes a root for the next coefficient, and writes the curve after it. After the last coefficient there is none.
    fn step<F: Field>(&mut self, search: &Search<F>, depth: usize, region: Region, root: u8)
        requires deep { depth < search.now.k }
        requires heavy { depth + 1 < search.now.k → 1 ≤ region.weight }
        requires light { Light (F.means search.now.field.now) region (cells_at self.old.curves depth) }
        ensures front { take depth self.new.prefix ≡ take depth self.old.prefix }
        ensures prefix { take (depth + 1) self.new.prefix ≡ take depth self.old.prefix ++ root ∷ [] }
        ensures kept { (d : ℕ) → d ≤ depth → cells_at self.new.curves d ≡ cells_at self.old.curves d }
        ensures next { depth + 1 < search.now.k → Moved (F.means search.now.field.now) region root (cells_at self.old.curves depth) (cells_at self.new.curves (depth + 1)) }
    {
        self.prefix[depth] = root;
        if depth + 1 < search.k {
            self.curves[depth + 1] = self.curves[depth];
            substitute(search.field, &mut self.curves[depth + 1], region, root);
        }
    }
}

// The buffer and its used bytes go side by side through the walk: a ghost field that ties them is not covered beside a `&mut`.

// One message more after the bytes used, where it fits.
fn push(message: &[u8], buf: &mut [u8], used: usize) -> Option<usize>
    requires room { used ≤ length buf.old }
    ensures room { IfSome result (λ n. n ≤ length buf.new) }
    ensures size { length buf.new ≡ length buf.old }
    ensures held { Adds (length message.now) (message.now ∷ []) buf.old used buf.new result }
{
    if buf.len() - used < message.len() {
        return None;
    }
    let end = used + message.len();
    buf[used..end].copy_from_slice(message);
    Some(end)
}

impl<F: Field> Search<'_, F> {
    // How many of the pairs the polynomial passes through.
    fn score(&self, message: &[u8]) -> usize
        ensures { result ≡ score (F.means self.now.field.now) (points self.now.pairs.now) (values self.now.pairs.now) message.now }
    {
        self.pairs
            .iter()
            .filter(|pair| value(self.field, message, pair.point) == pair.value)
            .count()
    }

    // Whether the polynomial passes through at least t of the pairs.
    fn is_listed(&self, message: &[u8]) -> bool
        ensures { result ≡ passes (F.means self.now.field.now) self.now.t (points self.now.pairs.now) (values self.now.pairs.now) message.now }
    {
        self.score(message) >= self.t
    }

    // Keeps the polynomial if it is listed.
    fn keep(&self, message: &[u8], buf: &mut [u8], used: usize) -> Option<usize>
        requires room { used ≤ length buf.old }
        ensures room { IfSome result (λ n. n ≤ length buf.new) }
        ensures size { length buf.new ≡ length buf.old }
        ensures held { Adds (length message.now) (chosen (F.means self.now.field.now) self.now.t self.now.pairs.now (message.now ∷ [])) buf.old used buf.new result }
    {
        if self.is_listed(message) {
            push(message, buf, used)
        } else {
            Some(used)
        }
    }

    // Goes on from the first `depth` coefficients of the trail: what is listed and begins with them goes to the buffer after the bytes used.
    // Answers how many bytes are used then; None where they do not all fit.
    fn descend(
        &self,
        region: Region,
        depth: usize,
        trail: &mut Trail,
        buf: &mut [u8],
        mut used: usize,
    ) -> Option<usize>
        requires descent { Descent (F.means self.now.field.now) self.now.k self.now.t self.now.pairs.now region depth (take depth trail.old.prefix) (cells_at trail.old.curves depth) }
        requires room { used ≤ length buf.old }
        ensures room { IfSome result (λ n. n ≤ length buf.new) }
        ensures size { length buf.new ≡ length buf.old }
        ensures front { take depth trail.new.prefix ≡ take depth trail.old.prefix }
        ensures kept { (d : ℕ) → d < depth → cells_at trail.new.curves d ≡ cells_at trail.old.curves d }
        ensures held { Adds self.now.k (chosen (F.means self.now.field.now) self.now.t self.now.pairs.now (extended (F.means self.now.field.now).size (take depth trail.old.prefix) (self.now.k - depth))) buf.old used buf.new result }
    {
        if depth == self.k {
            return self.keep(&trail.prefix[..depth], buf, used);
        }
        let foot = trail.lower(depth, region);
        let next = foot.region.lightened();
        for root in 0..self.field.size() {
            if foot.is_root(self.field, root as u8) {
                trail.step(self, depth, foot.region, root as u8);
                used = self.descend(next, depth + 1, trail, buf, used)?;
            }
        }
        Some(used)
    }

    // Writes the polynomials that are listed, if they all lie on the curve, to the buffer, and answers how many there are.
    pub(crate) fn walk(&self, curve: &Curve, bound: Bound, buf: &mut [u8]) -> Result<usize, Fault>
        requires weight { bound.weight ≡ self.now.k - 1 }
        requires light { DegreeBelow (codes (F.means self.now.field.now)) columns rows bound.weight (bound.degree + 1) (table (F.means self.now.field.now) columns curve.now.cells) }
        requires covers { (f : List ℕ) → is_row self.now.k (F.means self.now.field.now).size f ≡ true → self.now.t ≤ score (F.means self.now.field.now) (points self.now.pairs.now) (values self.now.pairs.now) f → Lies (codes (F.means self.now.field.now)) columns rows (table (F.means self.now.field.now) columns curve.now.cells) f }
        ensures answer { result ≡ reached self.now.k (length buf.old) (recovered (F.means self.now.field.now) self.now.k self.now.t (points self.now.pairs.now) (values self.now.pairs.now)) within }
        ensures buffer { buf.new ≡ laid (length buf.old) (recovered (F.means self.now.field.now) self.now.k self.now.t (points self.now.pairs.now) (values self.now.pairs.now)) result }
    {
        let region = Region {
            width: bound.degree + 1,
            weight: bound.weight,
            height: bound.height(),
        };
        // Blank at first: a table of copies of the curve would stand in the frame once more before it stands in the trail.
        let blank = Curve { cells: [0; CELLS] };
        let mut trail = Trail {
            curves: [blank; MAX_COEFFICIENTS],
            prefix: [0; MAX_COEFFICIENTS],
        };
        trail.curves[0] = *curve;
        buf.fill(0);
        let Some(used) = self.descend(region, 0, &mut trail, buf, 0) else {
            buf.fill(0);
            return Err(Fault::Short);
        };
        Ok(used / self.k)
    }
}
