// The pairs of a sheet, offered to a fitting: each standing letter with the point of its place.
ghost use Rattle.std.specs.Prelude.{◌≡◌, ◌≤◌, [], ◌∷◌, length, if◌then◌else◌};
ghost use Rattle.sheet.specs.Standing.{stands, sheet_of};
ghost use Rattle.code.specs.Messages.{span};
ghost use Rattle.reed_solomon.specs.Gathered.{letters, at_point, pairs_of};
ghost use Rattle.reed_solomon.specs.Offered.{Offers};

use field::Field;
use interpolation::Gathering;
use sheet::Marks;

// Offers the pair where the letter stands.
fn offer<F: Field>(fitting: &mut Gathering<F>, point: u8, marks: Marks, letter: u8)
    ensures { Offers (at_point point (if stands marks letter then letter ∷ [] else [])) fitting.old fitting.new }
{
    if marks.contains(letter) {
        let _ = fitting.take(point, letter);
    }
}

// Offers the letters of one place, in rising order.
fn offer_place<F: Field>(fitting: &mut Gathering<F>, point: u8, marks: Marks)
    ensures { Offers (at_point point (letters (stands marks) 256)) fitting.old fitting.new }
{
    for l in 0..256u16 {
        offer(fitting, point, marks, l as u8);
    }
}

// Offers the letters of every place, whose point is the element with the place's code.
pub(crate) fn offer_sheet<F: Field>(fitting: &mut Gathering<F>, sheet: &[Marks])
    requires { length sheet.now ≤ 256 }
    ensures { Offers (pairs_of (span 0 (length sheet.now)) (sheet_of sheet.now)) fitting.old fitting.new }
{
    for (i, marks) in sheet.iter().enumerate() {
        offer_place(fitting, i as u8, *marks);
    }
}
