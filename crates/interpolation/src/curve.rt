// A curve, a polynomial in x and y: the table of its coefficients.
ghost use Rattle.std.specs.Prelude.{◌≡◌, ℕ, ◌+◌, ◌*◌, ◌<◌, ◌≤◌};
ghost use Rattle.interpolation.specs.Size.{columns, rows};
ghost use Rattle.interpolation.specs.Region.{width};

// The powers of x and of y that a curve can have, from 0 on; one more than the highest degree and power that are counted.
pub const COLUMNS: usize = 64;

pub const ROWS: usize = 16;

pub const CELLS: usize = 1024;

// The coefficient of x^i y^j is cell i + COLUMNS j.
#[derive(Clone, Copy)]
pub struct Curve {
    pub(crate) cells: [u8; CELLS],
}

// The weight of y, where that of x is one, and the highest weighted degree that a term may have.
#[derive(Clone, Copy)]
pub(crate) struct Bound {
    pub(crate) weight: usize,
    pub(crate) degree: usize,
    ghost light: { weight < rows },
    ghost low: { degree < columns },
}

impl Bound {
    // Another highest degree with the same weight.
    pub(crate) fn up_to(self, degree: usize) -> Bound
        requires { degree < columns }
        ensures weight { result.weight ≡ self.weight }
        ensures degree { result.degree ≡ degree }
    {
        Bound {
            weight: self.weight,
            degree,
        }
    }

    // The weighted degree of x^i y^j.
    pub(crate) fn degree_of(self, i: u8, j: usize) -> usize
        requires { j < rows }
        ensures { result ≡ i + self.weight * j }
    {
        usize::from(i) + self.weight * j
    }

    // How many coefficients of row j are within the bound.
    pub(crate) fn width(self, j: usize) -> usize
        requires { j < rows }
        ensures { result ≡ width self.weight self.degree j }
    {
        (self.degree + 1).saturating_sub(self.weight * j)
    }

    // How many rows have a coefficient within the bound.
    pub(crate) fn height(self) -> usize
        ensures low { result ≤ rows }
        ensures rest { (j : ℕ) → result ≤ j → j < rows → self.degree < self.weight * j }
    {
        if self.weight == 0 {
            ROWS
        } else {
            ROWS.min(self.degree / self.weight + 1)
        }
    }
}
