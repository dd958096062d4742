// Where a refusal lies, and where a block does.
ghost use Rattle.std.specs.Prelude.{◌≡◌, ◌+◌, ◌*◌, ◌^◌, ◌<◌, ◌≤◌, min, length};
ghost use Rattle.concatenated.specs.Lifted.{block};

use fault::Reach;
use sheet::Marks;

// An inner refusal as the concatenated code tells it, for the block that begins at place `first`: one level further down.
pub(crate) fn raised(reach: Reach, first: usize) -> Reach
    requires { first + reach.place < 2 ^ 16 }
    ensures level { result.level ≡ min 255 (reach.level + 1) }
    ensures place { result.place ≡ first + reach.place }
{
    Reach {
        level: reach.level.saturating_add(1),
        place: first as u16 + reach.place,
    }
}

// An outer refusal as the concatenated code tells it, for blocks of n places.
pub(crate) fn scaled(reach: Reach, n: usize) -> Reach
    requires small { n < 2 ^ 16 }
    requires fits { reach.place * n < 2 ^ 16 }
    ensures level { result.level ≡ reach.level }
    ensures place { result.place ≡ reach.place * n }
{
    Reach {
        level: reach.level,
        place: reach.place * n as u16,
    }
}

// Block b of a sheet, by its marks: the run of n places that begins at b * n.
pub(crate) fn block_of(sheet: &[Marks], b: usize, n: usize) -> &[Marks]
    requires { b * n + n ≤ length sheet.now }
    ensures { result.now ≡ block n sheet.now b }
{
    &sheet[b * n..b * n + n]
}
