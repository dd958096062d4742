// A curve with its lead, and what a step does with one curve. Only the coefficients up to the curve's weighted degree are touched:
// row j is cut from the table by its number, since each row has another width.
ghost use Rattle.std.specs.Prelude.{◌≡◌, ℕ, suc, ◌+◌, ◌*◌, ◌<◌, ◌≤◌, ◌≢◌, length};
ghost use Rattle.interpolation.specs.Size.{columns, rows};
ghost use Rattle.interpolation.specs.Region.{mixed_cell, lifted_cell, Changed};
ghost use Rattle.interpolation.specs.Stepped.{Derived, Valued, Taken};

use crate::curve::{Bound, CELLS, COLUMNS, Curve, ROWS};
use crate::rows::{dot, lift_row, mix_row};
use field::Field;

// The leading monomial of curve j is x^lead y^j.
#[derive(Clone, Copy)]
pub(crate) struct LedCurve {
    pub(crate) curve: Curve,
    pub(crate) lead: u8,
}

// The derivative of a curve whose weights are given.
fn value_cells<F: Field>(
    field: &F,
    bound: Bound,
    wx: &[u8; COLUMNS],
    wy: &[u8; ROWS],
    cells: &[u8; CELLS],
) -> u8
    ensures { Derived (F.means field.now) bound.weight bound.degree wx.now wy.now cells.now result }
{
    let mut sum = 0;
    for j in 0..bound.height() {
        let from = COLUMNS * j;
        let n = bound.width(j);
        sum = field.add(
            sum,
            field.mul(wy[j], dot(field, wx, &cells[from..from + n])),
        );
    }
    sum
}

// d times a curve less e times the pivot, in its place.
fn mix_cells<F: Field>(
    field: &F,
    bound: Bound,
    d: u8,
    cells: &mut [u8; CELLS],
    e: u8,
    pivot: &[u8; CELLS],
)
    ensures { Changed bound.weight bound.degree rows (mixed_cell (F.means field.now) d cells.old e pivot.now) cells.old cells.new }
{
    for j in 0..bound.height() {
        let from = COLUMNS * j;
        let n = bound.width(j);
        mix_row(
            field,
            d,
            &mut cells[from..from + n],
            e,
            &pivot[from..from + n],
        );
    }
}

// x - a times a curve, in its place.
fn lift_cells<F: Field>(field: &F, bound: Bound, a: u8, cells: &mut [u8; CELLS])
    ensures { Changed bound.weight bound.degree rows (lifted_cell (F.means field.now) a cells.old) cells.old cells.new }
{
    for j in 0..bound.height() {
        let from = COLUMNS * j;
        let n = bound.width(j);
        lift_row(field, a, &mut cells[from..from + n]);
    }
}

impl LedCurve {
    // The discrepancy of the curve, which is curve j, under the weights; zero where it is not live.
    pub(crate) fn value<F: Field>(
        &self,
        field: &F,
        bound: Bound,
        j: usize,
        wx: &[u8; COLUMNS],
        wy: &[u8; ROWS],
    ) -> u8
        requires row { j < rows }
        ensures { Valued (F.means field.now) bound wx.now wy.now self.now j result }
    {
        let degree = bound.degree_of(self.lead, j);
        if degree <= bound.degree {
            value_cells(field, bound.up_to(degree), wx, wy, &self.curve.cells)
        } else {
            0
        }
    }

    // A multiple of the pivot, whose discrepancy is d, is taken off curve j, whose discrepancy is e, if it fails the condition.
    pub(crate) fn mix<F: Field>(
        &mut self,
        field: &F,
        bound: Bound,
        j: usize,
        d: u8,
        e: u8,
        pivot: &Curve,
    )
        requires row { j < rows }
        requires room { e ≢ 0 → self.old.lead + bound.weight * j < columns }
        ensures { Taken (F.means field.now) bound j d e pivot.now.cells self.old self.new }
    {
        if e != 0 {
            let reach = bound.up_to(bound.degree_of(self.lead, j));
            mix_cells(field, reach, d, &mut self.curve.cells, e, &pivot.cells);
        }
    }

    // x - a times curve j: its lead goes up by one. Where it is live no more its coefficients are left alone.
    pub(crate) fn lift<F: Field>(&mut self, field: &F, bound: Bound, j: usize, a: u8)
        requires row { j < rows }
        requires lead { self.old.lead < columns }
        ensures lead { self.new.lead ≡ suc self.old.lead }
        ensures cells { self.new.lead + bound.weight * j ≤ bound.degree → Changed bound.weight (self.new.lead + bound.weight * j) rows (lifted_cell (F.means field.now) a self.old.curve.cells) self.old.curve.cells self.new.curve.cells }
    {
        self.lead += 1;
        let degree = bound.degree_of(self.lead, j);
        if degree <= bound.degree {
            lift_cells(field, bound.up_to(degree), a, &mut self.curve.cells);
        }
    }
}
