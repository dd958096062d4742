// The score of a word on a sheet.
ghost use Rattle.std.specs.Prelude.{◌≡◌};
ghost use Rattle.sheet.specs.Standing.{sheet_of};
ghost use Rattle.code.specs.Score.{hits};

use sheet::Marks;

// How many places of the sheet hold the word's letter. Cut to the shorter first: a zip of unequal slices tests both ends at each place.
pub fn hits(sheet: &[Marks], word: &[u8]) -> usize
    ensures { result ≡ hits (sheet_of sheet.now) word.now }
{
    let mut score = 0;
    let n = sheet.len().min(word.len());
    for (marks, letter) in sheet[..n].iter().zip(&word[..n]) {
        if marks.contains(*letter) {
            score += 1;
        }
    }
    score
}
