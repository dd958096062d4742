// The part of a curve that is in use.
ghost use Rattle.std.specs.Prelude.{◌≤◌};

// The coefficients of a curve that are in use, `height` powers of y and of the power j of y `width - weight j` powers of x; the others are zero.
#[derive(Clone, Copy)]
pub(crate) struct Region {
    pub(crate) width: usize,
    pub(crate) weight: usize,
    pub(crate) height: usize,
    ghost wide: { width ≤ 64 },
    ghost heavy: { weight ≤ 64 },
    ghost high: { height ≤ 16 },
}

impl Region {
    ghost use Rattle.std.specs.Prelude.{◌≡◌, ◌-◌};
    ghost use Rattle.interpolation.specs.Size.{rows};
    ghost use Rattle.interpolation.specs.Steps.{wide_at, lighter, Narrower};

    // How many coefficients of row j are in use: as `Bound::width` counts, but of a width that shrinks in the walk, to none.
    pub(crate) fn row_width(&self, j: usize) -> usize
        requires { j ≤ rows }
        ensures { result ≡ wide_at self.now j }
    {
        self.width.saturating_sub(self.weight * j)
    }

    // What stays in use after a division by x^m. For the curve zero it is one power of x, so that there is a value at x = 0.
    pub(crate) fn narrowed(&self, m: usize) -> Region
        requires { 1 ≤ self.now.width }
        ensures { Narrower self.now m result }
    {
        Region {
            width: self.width.saturating_sub(m).max(1),
            weight: self.weight,
            height: self.height,
        }
    }

    // What is in use after x y + root is put for y: the weight of y is one less.
    pub(crate) fn lightened(&self) -> Region
        ensures { result ≡ lighter self.now }
    {
        Region {
            width: self.width,
            weight: self.weight.saturating_sub(1),
            height: self.height,
        }
    }
}
