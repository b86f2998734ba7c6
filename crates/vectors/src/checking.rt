// Registers that an existing solver made, held against the check of sheets.
ghost use Rattle.std.specs.Prelude.{◌≤◌};
ghost use Rattle.book.specs.Reading.{program_of};

use crate::books::test_books;
use crate::fields::{Field, all_sheets};
use crate::tally::Tally;
use answer::check::check;
use answer::order::smaller;
use book::book::Book;
use std::alloc::{AllocError, Global};
use std::fmt::Write;

// Of a book of so many atoms every sheet is checked.
const SMALL: usize = 12;

// NAME BOOK COUNT SHEET SHEET .., of the books of few atoms: the sheets that pass, of all, are the register.
pub(crate) fn small_books(rt: &HostRuntime, vectors: &str) -> anyhow::Result<Tally> {
    test_books(rt, vectors, |book, register| {
        if book.atoms() > SMALL {
            return Ok(None);
        }
        let listed = register_of(rt.alloc(), book)?;
        Ok(Some(listed.as_str() == register))
    })
}

// The same lines, of the other books: each sheet of the register passes, and they ascend.
pub(crate) fn large_books(rt: &HostRuntime, vectors: &str) -> anyhow::Result<Tally> {
    test_books(rt, vectors, |book, register| {
        if book.atoms() <= SMALL {
            return Ok(None);
        }
        Ok(Some(all_pass(rt.alloc(), book, register)?))
    })
}

// How many sheets pass, and which, from the sheet of no atoms on: as a vector writes it.
fn register_of(heap: Global, book: &Book) -> Result<String, AllocError>
    requires { (program_of book.now).atoms ≤ 12 }
{
    let mut sheet = vec![in heap; 0; book.atoms()]?;
    let mut listed = String::new(heap);
    let mut count: u32 = 0;
    for _ in 0..1usize << book.atoms() {
        if passes(book, sheet.as_slice()) {
            count = count.saturating_add(1);
            write!(listed, " {}", Field(sheet.as_slice()))?;
        }
        advance(sheet.as_mut_slice());
    }
    format!(in heap; "{count}{listed}")
}

fn passes(book: &Book, sheet: &[u8]) -> bool {
    check(book, sheet).unwrap_or(false)
}

// The sheet after this one in the order of sheets, or the first after the last.
fn advance(sheet: &mut [u8]) {
    for value in sheet.iter_mut().rev() {
        if *value == 0 {
            *value = 1;
            return;
        }
        *value = 0;
    }
}

// Whether each sheet of a register passes, and is smaller than the next. Only two at a time are held.
fn all_pass(heap: Global, book: &Book, register: &str) -> Result<bool, AllocError> {
    let mut before: Option<Vec<u8>> = None;
    all_sheets(heap, register, |sheet| {
        let ascends = before
            .as_ref()
            .is_none_or(|before| smaller(before.as_slice(), sheet.as_slice()));
        let same = ascends && passes(book, sheet.as_slice());
        before = Some(sheet);
        same
    })
}
