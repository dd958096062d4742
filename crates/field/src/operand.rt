ghost use Rattle.std.specs.Prelude.{◌≡◌};
ghost use Rattle.algebra.specs.Field.{read};

// An operand that is not below the size is read as zero.
pub(crate) fn operand(a: u8, size: u16) -> u8
    ensures { result ≡ read size a }
{
    if (a as u16) < size { a } else { 0 }
}
