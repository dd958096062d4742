// A fitting, in two moved states: one that gathers pairs, and one that is closed around a curve.
ghost use Rattle.std.specs.Prelude.{◌≡◌, ◌&&◌, [], length, nat_lt};
ghost use Rattle.code.specs.Meaning.{within};
ghost use Rattle.code.specs.Answers.{reached, laid};
ghost use Rattle.interpolation.specs.Recovered.{recovered};
ghost use Rattle.interpolation.specs.Pairs.{points_of, values_of};
ghost use Rattle.interpolation.specs.Fitting.{taken, kept, Gathered, Around};

use crate::curve::Curve;
use crate::koetter::interpolate;
use crate::pairs::{Pair, Pairs};
use crate::plan::{MAX_AGREEMENT, Plan};
use crate::walk::Search;
use fault::Fault;
use field::Field;

// Takes pairs.
#[derive(Drop)]
pub struct Gathering<'a, F: Field> {
    field: &'a F,
    plan: Plan,
    pairs: Pairs,
    pub ghost gathered: { Gathered (F.means field.now) plan.limit (points_of pairs) (values_of pairs) },
}

// Takes no further pair, and is walked once.
#[derive(Drop)]
pub struct Closed<'a, F: Field> {
    field: &'a F,
    plan: Plan,
    pairs: Pairs,
    curve: Curve,
    // Whether a coefficient is zero has to be a proposition here, so the fact stands without the place of one that is not.
    pub ghost around: { ∥ Around (F.means field.now) plan.k plan.t plan.r (points_of pairs) (values_of pairs) curve.cells ∥₁ },
}

// Whether the point is below both the field's size and the highest number of points.
fn is_point(point: u8, size: u16) -> bool
    ensures { result ≡ (nat_lt point size && nat_lt point 64) }
{
    (point as u16) < size && (point as usize) < MAX_AGREEMENT
}

impl<'a, F: Field> Gathering<'a, F> {
    // Opens a fitting that was checked. It cannot be refused.
    pub fn new(field: &'a F, plan: Plan) -> Gathering<'a, F>
        ensures field { result.field.now ≡ field.now }
        ensures plan { result.plan ≡ plan }
        ensures points { points_of result.pairs ≡ [] }
        ensures values { values_of result.pairs ≡ [] }
    {
        Gathering {
            field,
            plan,
            pairs: Pairs::new(),
        }
    }

    // Takes one pair, and answers how many are held.
    pub fn take(&mut self, point: u8, value: u8) -> Result<usize, Fault>
        ensures answer { result ≡ taken (F.means self.old.field.now) self.old.plan.limit (points_of self.old.pairs) (values_of self.old.pairs) point value }
        ensures points { points_of self.new.pairs ≡ kept result (points_of self.old.pairs) point }
        ensures values { values_of self.new.pairs ≡ kept result (values_of self.old.pairs) value }
        ensures plan { self.new.plan ≡ self.old.plan }
        ensures field { self.new.field.now ≡ self.old.field.now }
    {
        let size = self.field.size();
        if !is_point(point, size) {
            return Err(Fault::Place);
        }
        if value as u16 >= size {
            return Err(Fault::Letter);
        }
        if self.pairs.has(Pair { point, value }) {
            return Err(Fault::Twice);
        }
        let held = self.pairs.len();
        if held >= self.plan.limit {
            return Err(Fault::Full);
        }
        self.pairs.push(Pair { point, value });
        Ok(held + 1)
    }

    // Fits a curve to the pairs taken.
    pub fn close(self) -> Closed<'a, F>
        ensures field { result.field.now ≡ self.entry.field.now }
        ensures plan { result.plan ≡ self.entry.plan }
        ensures pairs { result.pairs ≡ self.entry.pairs }
        ensures made { Around (F.means result.field.now) result.plan.k result.plan.t result.plan.r (points_of result.pairs) (values_of result.pairs) result.curve.cells }
    {
        let Gathering { field, plan, pairs } = self;
        let curve = interpolate(field, plan.bound(), plan.r, pairs.held());
        Closed {
            field,
            plan,
            pairs,
            curve,
        }
    }
}

impl<'a, F: Field> Closed<'a, F> {
    // The multiplicity of the curve at every pair.
    pub fn multiplicity(&self) -> usize
        ensures { result ≡ self.now.plan.r }
    {
        self.plan.r
    }

    // The curve.
    pub fn curve(&self) -> Curve
        ensures { result ≡ self.now.curve }
    {
        self.curve
    }

    // Lists the polynomials of k coefficients through at least t of the pairs, and uses the fitting up, also when refused.
    pub fn walk(self, buf: &mut [u8]) -> Result<usize, Fault>
        ensures answer { result ≡ reached self.entry.plan.k (length buf.old) (recovered (F.means self.entry.field.now) self.entry.plan.k self.entry.plan.t (points_of self.entry.pairs) (values_of self.entry.pairs)) within }
        ensures buffer { buf.new ≡ laid (length buf.old) (recovered (F.means self.entry.field.now) self.entry.plan.k self.entry.plan.t (points_of self.entry.pairs) (values_of self.entry.pairs)) result }
    {
        let Closed {
            field,
            plan,
            pairs,
            curve,
        } = self;
        let search = Search {
            field,
            pairs: pairs.held(),
            k: plan.k,
            t: plan.t,
        };
        search.walk(&curve, plan.bound(), buf)
    }
}
