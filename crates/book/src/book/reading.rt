// How a book comes into use.
ghost use Rattle.std.specs.Prelude.{◌≡◌, None, MatchResult};
ghost use Rattle.std.specs.Result.{result_err};
ghost use Rattle.book.specs.Program.{no_rules};
ghost use Rattle.book.specs.Layout.{decode};
ghost use Rattle.book.specs.Reading.{held, program_of, Holds, HoldsNone, DifferentForms, Reads};
ghost use Rattle.book.specs.Diagnosis.{layout_fault, diagnose};

use crate::book::Book;
use crate::faults::BookFault;
use crate::header::Header;
use crate::layout::check_layout;

// The book that the bytes hold, or their first fault in the order of the layers.
impl<'a> TryFrom<&'a [u8]> for Book<'a> {
    type Error = BookFault;

    ghost try_from_gives = { Reads };

    fn try_from(bytes: &'a [u8]) -> Result<Book<'a>, BookFault> {
        let header = check_layout(bytes)?;
        Ok(Book::of_header(header))
    }
}

impl<'a> Book<'a> {
    // The book of no atoms and no rules.
    pub fn empty() -> Book<'a>
        ensures { program_of result ≡ no_rules 0 }
    {
        Book {
            bytes: &[0, 0, 0, 0, 0, 0],
            atoms: 0,
            rules: 0,
        }
    }

    // The book of bytes that have no fault, with the counts that they open with.
    fn of_header(header: Header<'a>) -> Book<'a>
        requires sound { layout_fault header.bytes.now ≡ None }
        requires holds { Holds header.bytes.now (decode header.bytes.now) }
        ensures held { held result ≡ header.entry.bytes.now }
        ensures holds { Holds header.entry.bytes.now (program_of result) }
    {
        Book {
            bytes: header.bytes,
            atoms: header.atoms,
            rules: header.rules,
        }
    }

    // Puts the book that the bytes hold in the place of this one.
    // Declined, this one stays: the fault is the first in the order of the layers.
    pub fn read(&mut self, bytes: &'a [u8]) -> Result<(), BookFault>
        ensures declines { result_err result ≡ diagnose bytes.now }
        ensures holds { MatchResult result (λ _. Holds bytes.now (program_of self.new)) (λ _. HoldsNone bytes.now) }
        ensures after { MatchResult result (λ _. held self.new ≡ bytes.now) (λ _. self.new ≡ self.old) }
        ensures different { DifferentForms }
    {
        *self = Book::try_from(bytes)?;
        Ok(())
    }
}
