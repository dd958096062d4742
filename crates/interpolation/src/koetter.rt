// Interpolation by Koetter's method: a table of curves, one for each leading power of y, that meets one condition after another.
ghost use Rattle.std.specs.Prelude.{◌≡◌, ℕ, ◌+◌, ◌*◌, ◌/◌, ◌<◌, ◌≤◌, ◌≢◌, length, None, IfSome};
ghost use Rattle.algebra.specs.Field.{codes};
ghost use Rattle.algebra.specs.Interpolation.{monomials, Fitted};
ghost use Rattle.algebra.specs.CodeRecovery.{at, table as curve-table};
ghost use Rattle.interpolation.specs.Pairs.{points, values};
ghost use Rattle.interpolation.specs.Size.{columns, rows};
ghost use Rattle.interpolation.specs.Weighed.{Weighed};
ghost use Rattle.interpolation.specs.Stepped.{led, lead_degree, Valued, Chosen, Applied, StepsAt, MeetsColumn, MeetsPair, PairsMet, Fresh};

use crate::curve::{Bound, CELLS, COLUMNS, Curve, ROWS};
use crate::led::LedCurve;
use crate::pairs::Pair;
use crate::weights::{powers, raise};
use field::Field;

// Curve j is led by a power of x times y^j. It is live while that is within the bound.
#[derive(Drop)]
pub(crate) struct Table {
    curves: [LedCurve; ROWS],
    bound: Bound,
}

impl Table {
    // The powers of y.
    fn new(bound: Bound) -> Table
        ensures fresh { Fresh result.curves }
        ensures bound { result.bound ≡ bound }
    {
        let blank = LedCurve {
            curve: Curve { cells: [0; CELLS] },
            lead: 0,
        };
        let mut table = Table {
            curves: [blank; ROWS],
            bound,
        };
        // By index: what is written through an iterator is not known to a proof afterwards.
        for j in 0..ROWS {
            table.curves[j].curve.cells[COLUMNS * j] = 1;
        }
        table
    }

    // The weighted degree of the lead of curve j.
    fn lead_degree(&self, j: usize) -> usize
        requires { j < rows }
        ensures { result ≡ lead_degree self.now.bound self.now.curves j }
    {
        self.bound.degree_of(self.curves[j].lead, j)
    }

    // The discrepancies of all curves.
    fn values<F: Field>(&self, field: &F, wx: &[u8; COLUMNS], wy: &[u8; ROWS]) -> [u8; ROWS]
        ensures { (j : ℕ) → j < rows → Valued (F.means field.now) self.now.bound wx.now wy.now (led self.now.curves j) j (at result j) }
    {
        let mut discrepancies = [0; ROWS];
        // A loop, since `array::from_fn` says nothing that ties a value to the curve that it was made of.
        for (j, led) in self.curves.iter().enumerate() {
            discrepancies[j] = led.value(field, self.bound, j, wx, wy);
        }
        discrepancies
    }

    // The pivot: the curve of least lead that fails the condition. Of leads of one weighted degree the first is the least.
    fn choose(&self, discrepancies: &[u8; ROWS]) -> Option<usize>
        ensures { Chosen self.now.bound self.now.curves discrepancies.now rows result }
    {
        // A loop, since `filter` and `min_by_key` say too little of the curves that are passed over.
        let mut best: Option<usize> = None;
        for (j, d) in discrepancies.iter().enumerate() {
            if *d != 0 && best.is_none_or(|p| self.lead_degree(j) < self.lead_degree(p)) {
                best = Some(j);
            }
        }
        best
    }

    // A multiple of the pivot is taken off the other curves that fail, and the pivot is multiplied by x - a.
    fn apply<F: Field>(&mut self, field: &F, a: u8, p: usize, discrepancies: &[u8; ROWS])
        requires row { p < rows }
        requires lead { (led self.old.curves p).lead < columns }
        requires room { (j : ℕ) → j < rows → at discrepancies.now j ≢ 0 → lead_degree self.old.bound self.old.curves j < columns }
        ensures applied { Applied (F.means field.now) self.old.bound a p discrepancies.now self.old.curves self.new.curves }
        ensures bound { self.new.bound ≡ self.old.bound }
    {
        let bound = self.bound;
        let pivot = self.curves[p];
        for (j, e) in discrepancies.iter().enumerate() {
            if j != p {
                self.curves[j].mix(field, bound, j, discrepancies[p], *e, &pivot.curve);
            }
        }
        self.curves[p].lift(field, bound, p, a);
    }

    // One step of the method, at the condition whose weights are given.
    fn step<F: Field>(&mut self, field: &F, a: u8, wx: &[u8; COLUMNS], wy: &[u8; ROWS])
        ensures stepped { StepsAt (F.means field.now) self.old.bound a wx.now wy.now self.old.curves self.new.curves }
        ensures bound { self.new.bound ≡ self.old.bound }
    {
        let discrepancies = self.values(field, wx, wy);
        if let Some(p) = self.choose(&discrepancies) {
            self.apply(field, a, p, &discrepancies);
        }
    }

    // The conditions of order w in y at the pair, by rising order in x. The weights of order zero in x and of order w in y are given.
    fn meet_column<F: Field>(
        &mut self,
        field: &F,
        r: usize,
        pair: Pair,
        w: usize,
        first: &[u8; COLUMNS],
        wy: &[u8; ROWS],
    )
        requires order { w < r }
        requires first { Weighed (F.means field.now) pair.point 0 (self.old.bound.degree + 1) first.now }
        requires second { Weighed (F.means field.now) pair.value w rows wy.now }
        ensures met { MeetsColumn (F.means field.now) self.old.bound r pair w self.old.curves self.new.curves }
        ensures bound { self.new.bound ≡ self.old.bound }
    {
        let n = self.bound.degree + 1;
        let mut wx = *first;
        for u in 0..r - w {
            self.step(field, pair.point, &wx, wy);
            raise(field, pair.point, &mut wx[..n]);
        }
    }

    // The conditions of multiplicity r at the pair.
    fn meet_pair<F: Field>(&mut self, field: &F, r: usize, pair: Pair)
        ensures met { MeetsPair (F.means field.now) self.old.bound r pair self.old.curves self.new.curves }
        ensures bound { self.new.bound ≡ self.old.bound }
    {
        let mut first = [0; COLUMNS];
        powers(field, pair.point, &mut first[..self.bound.degree + 1]);
        let mut wy = [0; ROWS];
        powers(field, pair.value, &mut wy);
        for w in 0..r {
            self.meet_column(field, r, pair, w, &first, &wy);
            raise(field, pair.value, &mut wy);
        }
    }

    // The conditions of multiplicity r at every pair.
    fn meet<F: Field>(&mut self, field: &F, r: usize, pairs: &[Pair])
        requires fresh { Fresh self.old.curves }
        ensures met { PairsMet (F.means field.now) self.old.bound r pairs.now (length pairs.now) self.new.curves }
        ensures bound { self.new.bound ≡ self.old.bound }
    {
        for pair in pairs {
            self.meet_pair(field, r, *pair);
        }
    }

    // The first live curve.
    fn first_live(&self) -> Option<usize>
        ensures live { IfSome result (λ j. (j < rows) × (lead_degree self.now.bound self.now.curves j ≤ self.now.bound.degree)) }
        ensures dead { result ≡ None → (j : ℕ) → j < rows → self.now.bound.degree < lead_degree self.now.bound self.now.curves j }
    {
        (0..ROWS).find(|j| self.lead_degree(*j) <= self.bound.degree)
    }
}

// A curve, not zero, within the bound, with multiplicity r at each pair.
pub(crate) fn interpolate<F: Field>(field: &F, bound: Bound, r: usize, pairs: &[Pair]) -> Curve
    requires { length pairs.now * r * (r + 1) / 2 < monomials rows bound.weight bound.degree }
    ensures { Fitted (codes (F.means field.now)) columns rows bound.weight bound.degree r (length pairs.now) (at (points pairs.now)) (at (values pairs.now)) (curve-table (F.means field.now) columns result.cells) }
{
    let mut table = Table::new(bound);
    table.meet(field, r, pairs);
    match table.first_live() {
        Some(j) => table.curves[j].curve,
        None => unreachable!(),
    }
}
