// Lists by brute force: every message is tried.
use code::{Code, hits, spell};
use sheet::Marks;
use std::alloc::Global;
use std::process::Abort;
use std::test::Fail;

// enough for every list of the trials
const ROOM: usize = 2048;

// The message with this number.
pub(crate) fn message_of<C: Code>(heap: Global, code: &C, v: usize) -> Result<Vec<u8>, Fail> {
    let mut message = vec![in heap; 0u8; code.dimension()]?;
    spell(v, code.largest(), message.as_mut_slice());
    Ok(message)
}

// Its word.
pub(crate) fn word_of<C: Code>(heap: Global, code: &C, v: usize) -> Result<Vec<u8>, Fail> {
    let message = message_of(heap, code, v)?;
    let mut word = vec![in heap; 0u8; code.places()]?;
    code.encode(message.as_slice(), word.as_mut_slice())?;
    Ok(word)
}

// The numbers, below `total`, of the messages of a plain code that score at least t.
pub(crate) fn scoring<C: Code>(
    heap: Global,
    code: &C,
    total: usize,
    sheet: &[Marks],
    t: usize,
) -> Result<Vec<usize>, Fail> {
    let mut found = Vec::new(heap);
    for v in 0..total {
        if hits(sheet, word_of(heap, code, v)?.as_slice()) >= t {
            found.push(v)?;
        }
    }
    Ok(found)
}

// The list is that of the messages with the expected numbers; answers whether it was in reach.
pub(crate) fn compare<C: Code>(
    rt: &impl Abort,
    heap: Global,
    code: &C,
    expected: &[usize],
    sheet: &[Marks],
    t: usize,
) -> Result<bool, Fail> {
    let mut buf = [0u8; ROOM];
    let Ok(count) = code.list(sheet, t, &mut buf) else {
        return Ok(false);
    };
    assert_eq!(rt; count, expected.len());
    let k = code.dimension();
    assert!(rt; 0 < k);
    for (v, listed) in expected.iter().zip(buf.chunks_exact(k)) {
        assert_eq!(rt; listed, message_of(heap, code, *v)?.as_slice());
    }
    Ok(true)
}
