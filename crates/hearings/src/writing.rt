// Text in a caller's buffer, byte by byte.
ghost use Rattle.std.specs.Prelude.{◌≡◌, [], ◌∷◌, length, decimal};
ghost use Rattle.hearings.specs.Writing.{page, blank, Wrote};
ghost use Rattle.hearings.specs.Lines.{field, newline};

use itoa::Buffer;

// A buffer in fixed memory, which the caller gives, and where the text in it ends. What lies past the buffer is counted and not written.
#[derive(Drop)]
pub(crate) struct Text<'a> {
    bytes: &'a mut [u8],
    end: usize,
}

impl<'a> Text<'a> {
    // No text in a buffer.
    pub(crate) fn new(bytes: &'a mut [u8]) -> Text<'a>
        ensures empty { page result ≡ blank bytes.old }
        ensures same { result.bytes.ghost_name ≡ bytes.entry.ghost_name }
    {
        Text { bytes, end: 0 }
    }
}

impl Text<'_> {
    // Where the text ends, the lost bytes counted.
    pub(crate) fn len(&self) -> usize
        ensures { result ≡ self.now.end }
    {
        self.end
    }

    #[tactic(auto, unfolding(crate::specs::Writing::puts))]
    pub(crate) fn push(&mut self, byte: u8)
        ensures { Wrote self.old (byte ∷ []) self.new }
    {
        if self.end < self.bytes.len() {
            self.bytes[self.end] = byte;
        }
        self.end = self.end.saturating_add(1);
    }

    #[tactic(auto, unfolding(crate::specs::Writing::puts))]
    pub(crate) fn push_bytes(&mut self, bytes: &[u8])
        ensures { Wrote self.old bytes.now self.new }
    {
        for byte in bytes {
            self.push(*byte);
        }
    }

    // A number in base ten.
    #[tactic(auto, using(crate::proofs::Wrote::wrote_as))]
    pub(crate) fn push_number(&mut self, n: usize)
        ensures { Wrote self.old (decimal n) self.new }
    {
        self.push_bytes(Buffer::new().format(n).as_bytes());
    }

    // Words, and the number after them.
    #[tactic(auto, using(crate::proofs::Wrote::puts_append))]
    pub(crate) fn push_field(&mut self, words: &[u8], n: usize)
        ensures { Wrote self.old (field words.now n) self.new }
    {
        self.push_bytes(words);
        self.push_number(n);
    }

    // The end of a line.
    pub(crate) fn end_line(&mut self)
        ensures { Wrote self.old newline self.new }
    {
        self.push(b'\n');
    }
}
