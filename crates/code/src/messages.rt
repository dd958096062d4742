// Messages as rows of letters, and their numbers.
ghost use Rattle.std.specs.Prelude.{◌≡◌, ◌+◌, ◌*◌, length};
ghost use Rattle.code.specs.Messages.{is_row, digits, number, if_fits};

// Whether these are k letters below p.
pub fn is_row(letters: &[u8], k: usize, p: usize) -> bool
    ensures { result ≡ is_row k p letters.now }
{
    letters.len() == k && letters.iter().all(|l| (*l as usize) < p)
}

// Writes the letters of the message with this number, the first highest. Letters go up to `largest`, so that the base is never zero.
pub fn spell(number: usize, largest: u8, message: &mut [u8])
    ensures { message.new ≡ digits (largest + 1) (length message.old) number }
{
    let base = largest as usize + 1;
    let mut rest = number;
    // By index: what is written through an iterator is not known to a proof afterwards.
    for i in (0..message.len()).rev() {
        message[i] = (rest % base) as u8;
        rest /= base;
    }
}

// The number that a letter more makes of a number, where it fits the type.
fn extended(number: usize, largest: u8, letter: u8) -> Option<usize>
    ensures { result ≡ if_fits (number * (largest + 1) + letter) }
{
    number
        .checked_mul(largest as usize + 1)?
        .checked_add(letter as usize)
}

// The number of a message over letters up to `largest`, where it fits the answer's type.
pub fn number_of(message: &[u8], largest: u8) -> Option<usize>
    ensures { result ≡ if_fits (number (largest + 1) message.now) }
{
    let mut sum = 0;
    for letter in message {
        sum = extended(sum, largest, *letter)?;
    }
    Some(sum)
}
