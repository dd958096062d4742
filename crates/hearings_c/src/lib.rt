// The call of hearings files, for programs in C.
//
// In C a slice is a pointer and then a length: include/mahutore.h declares it.

#![tactic(auto)]

ghost use Rattle.std.specs.Prelude.{◌≡◌, length};
ghost use Rattle.hearings.specs.Writing.{held};
ghost use Rattle.hearings.specs.Text.{text_of};

// The length of a file's text. The buffer then holds the text and zeros, or zeros alone where the text is longer than the buffer.
#[unsafe(no_mangle)]
pub extern "C" fn mahutore_report(file: &[u8], buffer: &mut [u8]) -> usize
    ensures length { result ≡ length (text_of file.now) }
    ensures text { buffer.new ≡ held (length buffer.old) (text_of file.now) }
{
    hearings::report(file, buffer)
}
