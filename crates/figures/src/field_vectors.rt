// Published products, operands past the size, and the laws over all pairs of every listed field, run.
use field::{BinaryField, Field, PrimeField, value};
use std::process::Abort;
use std::test::Fail;

// the powers of 2 in the field of 16 elements, modulus 0x13
const POWERS_16: [u8; 15] = [1, 2, 4, 8, 3, 6, 12, 11, 5, 10, 7, 14, 15, 13, 9];

// the powers 0 to 31 of 2 in the field of 256 elements, modulus 0x11D
const POWERS_256: [u8; 32] = [
    1, 2, 4, 8, 16, 32, 64, 128, 29, 58, 116, 232, 205, 135, 19, 38, 76, 152, 45, 90, 180, 117,
    234, 201, 143, 3, 6, 12, 24, 48, 96, 192,
];

// Each power is twice the one before.
fn check_powers<F: Field>(rt: &impl Abort, field: &F, powers: &[u8]) {
    let mut power = 1;
    for expected in powers {
        assert_eq!(rt; power, *expected);
        power = field.mul(2, power);
    }
}

#[test]
fn powers_of_two(rt: HostRuntime) -> Result<(), Fail> {
    check_powers(&rt, &BinaryField::new(4)?, &POWERS_16);
    check_powers(&rt, &BinaryField::new(8)?, &POWERS_256);
    Ok(())
}

// The generator polynomial with roots 1, 2, 4, .., 64 that a QR code of version 1-L uses, its constant first.
#[test]
fn generator_polynomial_has_its_roots(rt: HostRuntime) -> Result<(), Fail> {
    let field = BinaryField::new(8)?;
    let polynomial = [117, 68, 11, 164, 154, 122, 127, 1];
    for i in 0..7u8 {
        assert_eq!(rt; value(&field, &polynomial, 1 << i), 0);
    }
    assert_ne!(rt; value(&field, &polynomial, 128), 0);
    Ok(())
}

#[test]
fn operands_past_the_size_are_zero(rt: HostRuntime) -> Result<(), Fail> {
    let eleven = PrimeField::new(11)?;
    assert_eq!(rt; eleven.add(11, 4), 4);
    assert_eq!(rt; eleven.sub(3, 200), 3);
    assert_eq!(rt; eleven.mul(12, 5), 0);
    assert_eq!(rt; eleven.inv(13), 0);
    let sixteen = BinaryField::new(4)?;
    assert_eq!(rt; sixteen.add(16, 7), 7);
    assert_eq!(rt; sixteen.mul(255, 7), 0);
    assert_eq!(rt; sixteen.inv(16), 0);
    Ok(())
}

#[test]
fn unlisted_fields_are_refused(rt: HostRuntime) {
    assert!(rt; PrimeField::new(4).is_err());
    assert!(rt; PrimeField::new(19).is_err());
    assert!(rt; BinaryField::new(1).is_err());
    assert!(rt; BinaryField::new(9).is_err());
}

// The laws that one pair can show.
fn check_pair<F: Field>(rt: &impl Abort, field: &F, a: u8, b: u8) {
    let product = field.mul(a, b);
    assert_eq!(rt; field.add(a, b), field.add(b, a));
    assert_eq!(rt; product, field.mul(b, a));
    assert_eq!(rt; field.add(field.sub(a, b), b), a);
    assert_eq!(rt; field.mul(a, field.add(b, 1)), field.add(product, a));
    if b != 0 {
        assert_eq!(rt; field.mul(product, field.inv(b)), a);
    }
}

fn check_all_pairs<F: Field>(rt: &impl Abort, field: &F) {
    for a in 0..field.size() {
        for b in 0..field.size() {
            check_pair(rt, field, (a & 0xff) as u8, (b & 0xff) as u8);
        }
    }
}

#[test]
fn laws_over_all_pairs(rt: HostRuntime) -> Result<(), Fail> {
    for p in [2, 3, 5, 7, 11, 13, 17] {
        check_all_pairs(&rt, &PrimeField::new(p)?);
    }
    for m in 2..=8 {
        check_all_pairs(&rt, &BinaryField::new(m)?);
    }
    Ok(())
}
