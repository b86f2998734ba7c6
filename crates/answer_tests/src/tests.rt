ghost use Rattle.std.specs.Prelude.{◌≤◌};

use answer::check::check;
use answer::order::smaller;
use book::book::Book;
use book::faults::BookFault;
use book::refusal::{Cause, Refusal};
use std::test::Fail;

// a ← not b, b ← not a, c ← not d, d ← not c
const TWO_PAIRS: &[u8] = &[
    4, 0, 4, 0, 4, 0, 0, 0, 0, 0, 0, 1, 1, 0, 1, 0, 0, 1, 2, 0, 2, 0, 0, 1, 3, 0, 3, 0, 0, 1, 1, 0,
    0, 0, 3, 0, 2, 0,
];

// a ← b, b ← a
const LOOP: &[u8] = &[
    2, 0, 2, 0, 2, 0, 0, 0, 0, 0, 1, 0, 1, 0, 1, 0, 1, 0, 1, 0, 0, 0,
];

// a ← b, b ← a, a ← not c, c ← not a, c ← b
const LOOP_AND_CHOICE: &[u8] = &[
    3, 0, 5, 0, 5, 0, 0, 0, 0, 0, 1, 0, 1, 0, 1, 0, 1, 0, 0, 0, 2, 0, 0, 1, 2, 0, 3, 0, 0, 1, 2, 0,
    4, 0, 1, 0, 1, 0, 0, 0, 2, 0, 0, 0, 1, 0,
];

const NO_ATOMS: &[u8] = &[0, 0, 0, 0, 0, 0];

fn ask(bytes: &[u8], sheet: &[u8]) -> Result<Result<bool, Refusal>, BookFault> {
    Ok(check(&Book::try_from(bytes)?, sheet))
}

// Sheet k of n atoms in ascending order is the number k in n binary digits; a bit is set for each that passes.
fn passing(book: &Book, n: usize) -> Result<u16, Refusal>
    requires { n ≤ 4 }
{
    let mut found = 0;
    for k in 0..1u8 << n {
        let sheet = [k >> 3 & 1, k >> 2 & 1, k >> 1 & 1, k & 1];
        if check(book, &sheet[4 - n..])? {
            found |= 1 << k;
        }
    }
    Ok(found)
}

#[test]
fn two_pairs_have_four_answer_sets(rt: HostRuntime) -> Result<(), Fail> {
    assert_eq!(rt;
        passing(&Book::try_from(TWO_PAIRS)?, 4)?,
        1 << 0b0101 | 1 << 0b0110 | 1 << 0b1001 | 1 << 0b1010
    );
    Ok(())
}

#[test]
fn a_positive_loop_does_not_support_itself(rt: HostRuntime) -> Result<(), Fail> {
    assert_eq!(rt; passing(&Book::try_from(LOOP)?, 2)?, 1 << 0b00);
    Ok(())
}

#[test]
fn a_loop_beside_a_choice_has_one_answer_set(rt: HostRuntime) -> Result<(), Fail> {
    assert_eq!(rt; passing(&Book::try_from(LOOP_AND_CHOICE)?, 3)?, 1 << 0b001);
    Ok(())
}

#[test]
fn the_book_of_no_atoms_has_the_empty_sheet(rt: HostRuntime) -> Result<(), Fail> {
    assert_eq!(rt; ask(NO_ATOMS, &[])?, Ok(true));
    Ok(())
}

#[test]
fn a_length_is_declined_before_a_value(rt: HostRuntime) -> Result<(), Fail> {
    assert_eq!(rt;
        ask(TWO_PAIRS, &[0, 9, 0])?,
        Err(Refusal::new(Cause::Length, 3))
    );
    assert_eq!(rt;
        ask(TWO_PAIRS, &[0, 1, 0, 1, 2])?,
        Err(Refusal::new(Cause::Length, 5))
    );
    Ok(())
}

#[test]
fn the_first_value_above_one_is_declined(rt: HostRuntime) -> Result<(), Fail> {
    assert_eq!(rt;
        ask(TWO_PAIRS, &[0, 1, 2, 3])?,
        Err(Refusal::new(Cause::Value, 2))
    );
    Ok(())
}

#[test]
fn the_lowest_atom_decides_the_order(rt: HostRuntime) {
    assert!(rt; smaller(&[0, 1, 1, 1], &[1, 0, 0, 0]));
    assert!(rt; !smaller(&[1, 0, 0, 0], &[0, 1, 1, 1]));
    assert!(rt; smaller(&[0, 1, 0, 1], &[0, 1, 1, 0]));
    assert!(rt; !smaller(&[0, 1, 0, 1], &[0, 1, 0, 1]));
}
