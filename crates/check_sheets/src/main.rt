//! Says of each sheet among the arguments whether it is an answer set of the book on standard input.
#![tactic(auto)]

ghost use Rattle.std.specs.Prelude.{◌≡◌, map, IfOk};
ghost use Rattle.book.specs.Reading.{program_of};
ghost use Rattle.check_sheets.specs.Said.{value, Finds};

use answer::check::check;
use book::book::Book;
use finding::Finding;
use std::alloc::{AllocError, Global};
use std::fmt::Write;
use std::io::Read;
use std::{env, io};

mod finding;

// The byte that a character of an argument stands for, above 1 if it is neither 0 nor 1. Both are `u8`, so no `From`.
fn value_of(c: u8) -> u8
    ensures { result ≡ value c }
{
    match c {
        b'0' => 0,
        b'1' => 1,
        _ => 2,
    }
}

// The sheet that an argument writes, one character a byte.
fn sheet_of(heap: Global, text: &str) -> Result<Vec<u8>, AllocError>
    ensures { IfOk result (λ v. v.items ≡ map value text.now) }
{
    text.bytes().map(value_of).collect(heap)
}

// What `check` answers, as it is printed.
fn finding_of(book: &Book, sheet: &[u8]) -> Finding
    ensures { Finds (program_of book.now) sheet.now result }
{
    match check(book, sheet) {
        Ok(true) => Finding::AnswerSet,
        Ok(false) => Finding::NoAnswerSet,
        Err(refusal) => Finding::Declined(refusal),
    }
}

fn main(rt: HostRuntime) -> io::Result<()> {
    let heap = rt.alloc();
    let mut bytes = Vec::new(heap);
    rt.stdin().read_to_end(&mut bytes)?;
    let book = match Book::try_from(bytes.as_slice()) {
        Ok(book) => book,
        Err(fault) => return println!(rt; "{fault}"),
    };
    let mut report = String::new(heap);
    for text in env::args(&rt)?.skip(1) {
        let sheet = sheet_of(heap, text.as_str())?;
        let finding = finding_of(&book, sheet.as_slice());
        writeln!(report, "{text} {finding}")?;
    }
    print!(rt; "{report}")
}
