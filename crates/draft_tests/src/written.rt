// What is written of a draft.
use book::book::Book;
use book::faults::BookFault;
use book::refusal::{Cause, Refusal};
use draft::draft::Draft;
use std::test::Fail;

// The book of two pairs of atoms, each of which is in where the other is out.
const TWO_PAIRS: &[u8] =
    b"\x04\x00\x04\x00\x04\x00\x00\x00\x00\x00\x00\x01\x01\x00\x01\x00\x00\x01\x02\x00\x02\x00\x00\x01\x03\x00\x03\x00\x00\x01\x01\x00\x00\x00\x03\x00\x02\x00";

fn two_pairs() -> Result<Draft, Refusal> {
    let mut draft = Draft::new();
    draft.start(4)?;
    for (head, out) in [(0, 1), (1, 0), (2, 3), (3, 2)] {
        draft.add(head, &[], &[out])?;
    }
    Ok(draft)
}

// How many atoms and rules the book of the bytes has.
fn counts(bytes: &[u8]) -> Result<(usize, usize), BookFault> {
    let book = Book::try_from(bytes)?;
    Ok((book.atoms(), book.rules()))
}

#[test]
fn two_pairs_is_its_book_byte_for_byte(rt: HostRuntime) -> Result<(), Fail> {
    let draft = two_pairs()?;
    let mut buffer = [9; 40];
    assert_eq!(rt; draft.write(&mut buffer), Ok(38));
    let (book, rest) = buffer.split_at(38);
    assert_eq!(rt; book, TWO_PAIRS);
    assert_eq!(rt; rest, [9, 9].as_slice());
    Ok(())
}

#[test]
fn what_was_written_is_read(rt: HostRuntime) -> Result<(), Fail> {
    let draft = two_pairs()?;
    let mut buffer = [0; 38];
    assert_eq!(rt; draft.write(&mut buffer), Ok(38));
    assert_eq!(rt; counts(&buffer)?, (4, 4));
    Ok(())
}

#[test]
fn a_short_buffer_stays(rt: HostRuntime) -> Result<(), Fail> {
    let draft = two_pairs()?;
    let mut buffer = [9; 37];
    assert_eq!(rt;
        draft.write(&mut buffer),
        Err(Refusal::new(Cause::Buffer, 38))
    );
    assert_eq!(rt; buffer, [9; 37]);
    Ok(())
}

#[test]
fn a_written_draft_goes_on(rt: HostRuntime) -> Result<(), Fail> {
    let mut draft = two_pairs()?;
    let mut buffer = [0; 44];
    assert_eq!(rt; draft.write(&mut buffer), Ok(38));
    draft.add(3, &[], &[])?;
    assert_eq!(rt; draft.write(&mut buffer), Ok(44));
    assert_eq!(rt;
        draft.add(3, &[1, 1], &[]),
        Err(Refusal::new(Cause::Order, 1))
    );
    assert_eq!(rt; draft.write(&mut buffer), Ok(44));
    draft.start(4)?;
    assert_eq!(rt; draft.write(&mut buffer), Ok(6));
    Ok(())
}
