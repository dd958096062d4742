// The letters standing at one place: 256 marks in four words, held as a value.
ghost use Rattle.std.specs.Prelude.{◌≡◌, ◌+◌, ◌-◌, ◌^◌, min, ◌==◌};
ghost use Rattle.sheet.specs.Letters.{none, join, union, size};
ghost use Rattle.sheet.specs.Standing.{stands, total};

#[derive(Clone, Copy, Debug, PartialEq, Eq)]
pub struct Marks {
    words: [u64; 4],
}

impl Marks {
    // No letter stands.
    pub fn new() -> Marks
        ensures { stands result ≡ none }
    {
        Marks { words: [0; 4] }
    }

    // Whether the letter stands.
    pub fn contains(self, letter: u8) -> bool
        ensures { result ≡ stands self letter }
    {
        let l = letter as usize;
        (self.words[l / 64] >> (l % 64)) & 1 == 1
    }

    // The letter joins the set.
    pub fn insert(&mut self, letter: u8)
        ensures { stands self.new ≡ join letter (stands self.old) }
    {
        let l = letter as usize;
        self.words[l / 64] |= 1 << (l % 64);
    }

    // The letters that stand in either set.
    pub fn union(self, other: Marks) -> Marks
        ensures { stands result ≡ union (stands self) (stands other) }
    {
        let [a, b, c, d] = self.words;
        let [e, f, g, h] = other.words;
        Marks {
            words: [a | e, b | f, c | g, d | h],
        }
    }

    // How many letters stand.
    pub fn count(self) -> usize
        ensures { result ≡ size (stands self) }
    {
        let [a, b, c, d] = self.words;
        (a.count_ones() + b.count_ones() + c.count_ones() + d.count_ones()) as usize
    }

    // Whether no letter stands.
    pub fn is_empty(self) -> bool
        ensures { result ≡ (size (stands self) == 0) }
    {
        self.count() == 0
    }
}

// The load of a sheet: how many letters stand in it. A sheet too large for the answer's type gets the largest number.
pub fn load(sheet: &[Marks]) -> usize
    ensures { result ≡ min (total sheet.now) (2 ^ 64 - 1) }
{
    let mut sum = 0usize;
    for marks in sheet {
        sum = sum.saturating_add(marks.count());
    }
    sum
}
