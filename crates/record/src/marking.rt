// What hear and strike do at one place.
ghost use Rattle.std.specs.Prelude.{◌≡◌, if◌then◌else◌, Ok, Err, nat_eq, nat_lt};
ghost use Rattle.fault.specs.declared.Fault.TheVariants.{Place, Letter, Empty};
ghost use Rattle.sheet.specs.Letters.{none, join, size};
ghost use Rattle.sheet.specs.Standing.{stands};

use fault::Fault;
use sheet::Marks;

// Whether this is a place of a code with so many.
pub(crate) fn check_place(place: usize, places: usize) -> Result<(), Fault>
    ensures { result ≡ (if nat_lt place places then Ok tt else Err Place) }
{
    if place >= places {
        return Err(Fault::Place);
    }
    Ok(())
}

// Whether this is a place, and then whether this is a letter.
pub(crate) fn check_letter(
    place: usize,
    places: usize,
    letter: u8,
    letters: usize,
) -> Result<(), Fault>
    ensures { result ≡ (if nat_lt place places then (if nat_lt letter letters then Ok tt else Err Letter) else Err Place) }
{
    check_place(place, places)?;
    if letter as usize >= letters {
        return Err(Fault::Letter);
    }
    Ok(())
}

// A letter joins the letters of a place. Answers how many then stand.
pub(crate) fn join_letter(marks: &mut Marks, letter: u8) -> usize
    ensures count { result ≡ size (join letter (stands marks.old)) }
    ensures after { stands marks.new ≡ join letter (stands marks.old) }
{
    marks.insert(letter);
    marks.count()
}

// The letters of a place are struck out. Answers how many stood; where none did, it is refused.
pub(crate) fn clear_letters(marks: &mut Marks) -> Result<usize, Fault>
    ensures answer { result ≡ (if nat_eq (size (stands marks.old)) 0 then Err Empty else Ok (size (stands marks.old))) }
    ensures after { stands marks.new ≡ (if nat_eq (size (stands marks.old)) 0 then stands marks.old else none) }
{
    let stood = marks.count();
    if stood == 0 {
        return Err(Fault::Empty);
    }
    *marks = Marks::new();
    Ok(stood)
}
