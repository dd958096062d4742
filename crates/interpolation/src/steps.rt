// The steps of the walk on one curve: divide it by a power of x, read it at x = 0, put x y + root for y.
// Coefficients are written by the powers i of x and j of y, and read at other powers of the same curve; what is written through an
// iterator is not known to a proof afterwards.
ghost use Rattle.std.specs.Prelude.{◌≡◌, ℕ, ◌+◌, ◌-◌, ◌*◌, ◌<◌, ◌≤◌, true, length, take, ◌==◌, slice_index};
ghost use Rattle.algebra.specs.Polynomial.{value};
ghost use Rattle.interpolation.specs.Size.{columns, rows};
ghost use Rattle.interpolation.specs.Region.{cell};
ghost use Rattle.interpolation.specs.Steps.{wide_at, above_at, Light, lowered_at, lowered_rows, mixed_at, raised_at, RowSet, RowsSet, Translated, Moved, Divided, Lowered, FootOf};

use crate::curve::{COLUMNS, Curve, ROWS};
use crate::region::Region;
use field::{Field, value};

// Where the coefficient of x^i y^j stands.
fn place(i: usize, j: usize) -> usize
    requires column { i < columns }
    requires row { j < rows }
    ensures { result ≡ i + columns * j }
{
    i + COLUMNS * j
}

// The coefficient of x^i y^j.
fn coefficient(curve: &Curve, i: usize, j: usize) -> u8
    requires column { i < columns }
    requires row { j < rows }
    ensures { result ≡ cell curve.now.cells i j }
{
    curve.cells[place(i, j)]
}

// Whether no term in the first rows has the power i of x.
fn is_clear(curve: &Curve, height: usize, i: usize) -> bool
    requires column { i < columns }
    requires high { height ≤ rows }
    ensures { result ≡ true → (j : ℕ) → j < height → cell curve.now.cells i j ≡ 0 }
{
    (0..height).all(|j| coefficient(curve, i, j) == 0)
}

// The highest power of x that divides the curve, and all powers in use for the curve zero.
fn lowest(curve: &Curve, region: Region) -> usize
    ensures most { result ≤ region.width }
    ensures clear { (i : ℕ) → i < result → (j : ℕ) → j < region.height → cell curve.now.cells i j ≡ 0 }
{
    (0..region.width)
        .position(|i| !is_clear(curve, region.height, i))
        .unwrap_or(region.width)
}

// Divides row j by x^m.
fn divide_row(curve: &mut Curve, width: usize, m: usize, j: usize)
    requires wide { width ≤ columns }
    requires power { m ≤ columns }
    requires row { j < rows }
    ensures { RowSet 0 width j (lowered_at width m curve.old.cells j) curve.old.cells curve.new.cells }
{
    for i in 0..width {
        let lowered = if m + i < width {
            coefficient(curve, m + i, j)
        } else {
            0
        };
        curve.cells[place(i, j)] = lowered;
    }
}

// Divides all rows by x^m.
fn divide_rows(curve: &mut Curve, region: Region, m: usize)
    requires power { m ≤ columns }
    ensures { RowsSet (wide_at region) 0 region.height (lowered_rows region m curve.old.cells) curve.old.cells curve.new.cells }
{
    for j in 0..region.height {
        divide_row(curve, region.row_width(j), m, j);
    }
}

// Divides the curve by the highest power of x that divides it, which is the answer.
fn divide(curve: &mut Curve, region: Region) -> usize
    ensures most { result ≤ region.width }
    ensures divided { Divided region result curve.old.cells curve.new.cells }
{
    let m = lowest(curve, region);
    divide_rows(curve, region, m);
    m
}

// The coefficients at x = 0, one a power of y.
fn bottom_of(curve: &Curve) -> [u8; ROWS]
    ensures size { length result ≡ rows }
    ensures each { (j : ℕ) → j < rows → slice_index result j ≡ cell curve.now.cells 0 j }
{
    std::array::from_fn(|j| coefficient(curve, 0, j))
}

// How many coefficients there are up to the last that is not zero.
fn used_of(coefficients: &[u8]) -> usize
    ensures most { result ≤ length coefficients.now }
    ensures rest { (j : ℕ) → result ≤ j → j < length coefficients.now → slice_index coefficients.now j ≡ 0 }
{
    coefficients
        .iter()
        .rposition(|coefficient| *coefficient != 0)
        .map_or(0, |last| last + 1)
}

// A curve at x = 0, divided by the highest power of x that divides it: its coefficients by the power of y, how many of them are in use,
// and what is in use of the curve.
#[derive(Clone, Copy)]
pub(crate) struct Foot {
    pub(crate) coefficients: [u8; ROWS],
    pub(crate) used: usize,
    pub(crate) region: Region,
    ghost short: { used ≤ rows },
}

impl Foot {
    // Whether the curve is zero at x = 0 and this y.
    pub(crate) fn is_root<F: Field>(&self, field: &F, y: u8) -> bool
        ensures { result ≡ (value (F.means field.now) (take self.now.used self.now.coefficients) y == 0) }
    {
        value(field, &self.coefficients[..self.used], y) == 0
    }
}

// Divides the curve by the highest power of x that divides it, and reads it at x = 0.
pub(crate) fn lower(curve: &mut Curve, region: Region) -> Foot
    requires { 1 ≤ region.width }
    ensures lowered { Lowered region result.region curve.old.cells curve.new.cells }
    ensures foot { FootOf result.region.height result.used result.coefficients curve.new.cells }
{
    let m = divide(curve, region);
    let coefficients = bottom_of(curve);
    Foot {
        coefficients,
        used: used_of(&coefficients[..region.height]),
        region: region.narrowed(m),
    }
}

// Adds root times the row above to row j.
fn mix_row<F: Field>(field: &F, curve: &mut Curve, width: usize, root: u8, j: usize)
    requires wide { width ≤ columns }
    requires row { j + 1 < rows }
    ensures { RowSet 0 width j (mixed_at (F.means field.now) root curve.old.cells j) curve.old.cells curve.new.cells }
{
    for i in 0..width {
        let above = field.mul(root, coefficient(curve, i, j + 1));
        let mixed = field.add(above, coefficient(curve, i, j));
        curve.cells[place(i, j)] = mixed;
    }
}

// Adds to each row from k on, but the last, root times the row above.
fn mix_rows<F: Field>(field: &F, curve: &mut Curve, region: Region, root: u8, k: usize)
    requires row { k < region.height }
    ensures { RowsSet (above_at region) k (region.height - 1) (mixed_at (F.means field.now) root curve.old.cells) curve.old.cells curve.new.cells }
{
    for j in k..region.height - 1 {
        mix_row(field, curve, region.row_width(j + 1), root, j);
    }
}

// Puts y + root for y, by Horner's rule from the last row down.
fn translate<F: Field>(field: &F, curve: &mut Curve, region: Region, root: u8)
    requires light { Light (F.means field.now) region curve.old.cells }
    ensures { Translated (F.means field.now) region root curve.old.cells curve.new.cells }
{
    for k in (0..region.height).rev() {
        mix_rows(field, curve, region, root, k);
    }
}

// Multiplies row j by x^j.
fn raise_row(curve: &mut Curve, width: usize, j: usize)
    requires wide { width ≤ columns }
    requires row { j < rows }
    ensures { RowSet 0 width j (raised_at curve.old.cells j) curve.old.cells curve.new.cells }
{
    for i in (0..width).rev() {
        let raised = if j <= i {
            coefficient(curve, i - j, j)
        } else {
            0
        };
        curve.cells[place(i, j)] = raised;
    }
}

// Puts x y for y. The region is that of the curve after it.
fn raise_rows(curve: &mut Curve, region: Region)
    ensures { RowsSet (wide_at region) 0 region.height (raised_at curve.old.cells) curve.old.cells curve.new.cells }
{
    for j in 0..region.height {
        raise_row(curve, region.row_width(j), j);
    }
}

// Puts x y + root for y.
pub(crate) fn substitute<F: Field>(field: &F, curve: &mut Curve, region: Region, root: u8)
    requires heavy { 1 ≤ region.weight }
    requires light { Light (F.means field.now) region curve.old.cells }
    ensures { Moved (F.means field.now) region root curve.old.cells curve.new.cells }
{
    translate(field, curve, region, root);
    raise_rows(curve, region.lightened());
}
