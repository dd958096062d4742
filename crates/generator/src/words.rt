// The steps of a generator code on rows of letters, and its limits.
ghost use Rattle.std.specs.Prelude.{◌≡◌, ◌+◌, ◌*◌, ◌<◌, ◌≤◌, length, nat_eq, slice_index};
ghost use Rattle.generator.specs.Generator.{letter, gen_word, nonzeros, blank, unit, all_below, has_identity, gen_shaped, max_rows, max_places, table_size};

use crate::table::{MAX_MESSAGES, MAX_PLACES, MAX_ROWS};
use field::Field;

// One letter of the word: the sum of message letter times row letter.
fn letter_of<F: Field>(field: &F, table: &[u8], n: usize, message: &[u8], j: usize) -> u8
    requires table { length table.now ≡ table_size }
    requires message { length message.now ≤ max_rows }
    requires n { n ≤ max_places }
    requires j { j < n }
    ensures { result ≡ letter (F.means field.now) table.now n message.now j }
{
    let mut sum = 0;
    // By index: the letters of a column lie n apart, which `skip` and `step_by` would say no plainer.
    for i in (0..message.len()).rev() {
        sum = field.add(field.mul(message[i], table[i * n + j]), sum);
    }
    sum
}

// Fills in the word of the message.
pub(crate) fn word_of<F: Field>(field: &F, table: &[u8], message: &[u8], word: &mut [u8])
    requires table { length table.now ≡ table_size }
    requires message { length message.now ≤ max_rows }
    requires n { length word.old ≤ max_places }
    ensures { word.new ≡ gen_word (F.means field.now) table.now (length word.old) message.now }
{
    // By index: what is written through an iterator is not known to a proof afterwards.
    for j in 0..word.len() {
        word[j] = letter_of(field, table, word.len(), message, j);
    }
}

// How many letters are not zero.
pub(crate) fn nonzeros_of(word: &[u8]) -> usize
    ensures { result ≡ nonzeros word.now }
{
    word.iter().filter(|l| **l != 0).count()
}

// Whether every letter is zero.
pub(crate) fn is_blank(message: &[u8]) -> bool
    ensures { result ≡ blank message.now }
{
    message.iter().all(|l| *l == 0)
}

// The letter in row i and column j of the identity.
fn unit(i: usize, j: usize) -> u8
    ensures { result ≡ unit i j }
{
    if i == j { 1 } else { 0 }
}

// Whether a row begins with row i of the identity of k columns.
fn is_unit(row: &[u8], k: usize, i: usize) -> bool
    requires { k ≤ length row.now }
    ensures { result ≡ all_below k (λ j. nat_eq (slice_index row.now j) (unit i j)) }
{
    for (j, letter) in row[..k].iter().enumerate() {
        if *letter != unit(i, j) {
            return false;
        }
    }
    true
}

// Whether the first k columns are the identity.
pub(crate) fn is_identity(table: &[u8], n: usize, k: usize) -> bool
    requires whole { length table.now ≡ k * n }
    requires k { k ≤ n }
    requires n { n ≤ max_places }
    ensures { result ≡ has_identity table.now n k }
{
    // By index: row i is asked for by its number, which a numbered `chunks_exact` would say no plainer.
    for i in 0..k {
        if !is_unit(&table[i * n..i * n + n], k, i) {
            return false;
        }
    }
    true
}

// Whether n, k and the number of messages lie in their limits.
pub(crate) fn is_shaped(q: usize, n: usize, k: usize) -> bool
    requires { q ≤ 256 }
    ensures { result ≡ gen_shaped q n k }
{
    1 <= k
        && k <= MAX_ROWS
        && k <= n
        && n <= MAX_PLACES
        && (q as u128).pow(k as u32) <= MAX_MESSAGES
}
