// The test of a sheet that every code makes.
ghost use Rattle.std.specs.Prelude.{◌≡◌, ◌&&◌, length, ◌==◌};
ghost use Rattle.sheet.specs.Standing.{stands, sheet_of};
ghost use Rattle.code.specs.Messages.{every};
ghost use Rattle.code.specs.Meaning.{below};

use sheet::Marks;

// Whether the letters that stand are below q.
fn is_below(marks: Marks, q: usize) -> bool
    ensures { result ≡ below q 256 (stands marks) }
{
    for l in 0..256 {
        if l >= q && marks.contains(l as u8) {
            return false;
        }
    }
    true
}

// Whether the sheet has n places, and no letter from q on stands.
pub fn is_sheet(sheet: &[Marks], n: usize, q: usize) -> bool
    ensures { result ≡ (length sheet.now == n && every (below q 256) (sheet_of sheet.now)) }
{
    sheet.len() == n && sheet.iter().all(|marks| is_below(*marks, q))
}
