// Words: each outer letter stands as an inner word, in its own block.
ghost use Rattle.std.specs.Prelude.{◌≡◌, ◌+◌, ◌*◌, ◌≤◌, length};
ghost use Rattle.code.specs.Messages.{each};
ghost use Rattle.concatenated.specs.Concatenation.{inner_word};
ghost use Rattle.concatenated.specs.Writing.{with_block};

use code::{Code, MAX_DIMENSION, spell};

// Writes the inner word of the message with this number.
fn write_word<I: Code>(inner: &I, letter: u8, part: &mut [u8])
    requires whole { length part.old ≡ (I.means inner.now).n }
    ensures { part.new ≡ inner_word (I.means inner.now) letter }
{
    let mut letters = [0u8; MAX_DIMENSION];
    let message = &mut letters[0..inner.dimension()];
    spell(letter as usize, inner.largest(), message);
    let _ = inner.encode(message, part);
}

// The same, into block b of a word, where blocks have n letters.
fn write_block<I: Code>(inner: &I, letter: u8, n: usize, b: usize, word: &mut [u8])
    requires width { n ≡ (I.means inner.now).n }
    requires room { b * n + n ≤ length word.old }
    ensures { word.new ≡ with_block n b (inner_word (I.means inner.now) letter) word.old }
{
    write_word(inner, letter, &mut word[b * n..b * n + n]);
}

// Writes the inner word of each outer letter, block after block.
pub(crate) fn write_blocks<I: Code>(inner: &I, above: &[u8], word: &mut [u8])
    requires whole { length word.old ≡ length above.now * (I.means inner.now).n }
    ensures { word.new ≡ each (inner_word (I.means inner.now)) above.now }
{
    let n = inner.places();
    for (b, letter) in above.iter().enumerate() {
        write_block(inner, *letter, n, b, word);
    }
}
