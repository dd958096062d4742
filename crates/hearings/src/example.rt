// A hearings file and its text, run.
use crate::report;

// The header is chosen, four letters are heard, and lists are asked for at agreements 4 and 2.
const FILE: [u8; 20] = [1, 2, 2, 0, 1, 2, 1, 3, 2, 2, 5, 2, 3, 7, 4, 4, 3, 9, 4, 2];

const TEXT: &[u8] =
    b"code 2 family 1 letters 11 places 10 top 10 least 5\nlist 4 1\n1 2 0\nrefused 22 at 16\nrefused 20 at 18 level 0 place 0\n";

#[test]
fn text_and_zeros(rt: HostRuntime) {
    let mut buffer = [9u8; 200];
    let length = report(&FILE, &mut buffer);
    assert_eq!(rt; length, TEXT.len());
    let (text, rest) = buffer.split_at(TEXT.len());
    assert!(rt; text == TEXT);
    assert!(rt; rest.iter().all(|byte| *byte == 0));
}

#[test]
fn too_long_for_the_buffer(rt: HostRuntime) {
    let mut buffer = [9u8; 100];
    assert_eq!(rt; report(&FILE, &mut buffer), TEXT.len());
    assert!(rt; buffer.iter().all(|byte| *byte == 0));
}

#[test]
fn empty_file(rt: HostRuntime) {
    let mut buffer = [9u8; 4];
    assert_eq!(rt; report(&[], &mut buffer), 0);
    assert!(rt; buffer == [0u8; 4]);
}
