// A fitting, step by step, as somebody would use it who has pairs and no code.
use fault::Fault;
use field::PrimeField;
use interpolation::{Gathering, open};
use std::test::Fail;

// The answer, with the number of a refusal.
fn numbered(answer: Result<usize, Fault>) -> Result<usize, u8> {
    answer.map_err(|fault| fault.number())
}

#[test]
fn lines_through_three_of_five_pairs(rt: HostRuntime) -> Result<(), Fail> {
    let field = PrimeField::new(5)?;
    let plan = open(2, 3, 5)?;
    let mut fitting = Gathering::new(&field, plan);
    assert_eq!(rt; fitting.take(0, 0)?, 1);
    assert_eq!(rt; fitting.take(1, 1)?, 2);
    assert_eq!(rt; numbered(fitting.take(5, 0)), Err(5));
    assert_eq!(rt; numbered(fitting.take(2, 9)), Err(6));
    assert_eq!(rt; numbered(fitting.take(1, 1)), Err(25));
    assert_eq!(rt; fitting.take(2, 2)?, 3);
    assert_eq!(rt; fitting.take(3, 0)?, 4);
    assert_eq!(rt; fitting.take(4, 0)?, 5);
    assert_eq!(rt; numbered(fitting.take(4, 1)), Err(26));
    let closed = fitting.close();
    assert!(rt; closed.multiplicity() >= 1);
    let mut buf = [9u8; 6];
    assert_eq!(rt; closed.walk(&mut buf)?, 2);
    assert_eq!(rt; buf, [0, 0, 0, 1, 0, 0]);
    Ok(())
}

#[test]
fn openings_that_are_refused(rt: HostRuntime) {
    assert!(rt; open(0, 3, 5).is_err() && open(17, 3, 5).is_err());
    assert!(rt; open(2, 0, 5).is_err() && open(2, 65, 5).is_err());
    assert!(rt; open(2, 2, 5).is_err() && open(2, 3, 1_000_000).is_err());
}
