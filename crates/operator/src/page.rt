// Pages: one byte an object, the atoms first and then the bodies. In the field a page is a partial assignment.
ghost use Rattle.std.specs.Prelude.{◌≡◌, ◌≤◌, length, OnOk};
ghost use Rattle.std.specs.Result.{result_err};
ghost use Rattle.book.specs.Reading.{program_of};
ghost use Rattle.operator.specs.Page.{Page};
ghost use Rattle.operator.specs.Apply.{page_fault};

use answer::sheet::check_bytes;
use book::book::Book;
use book::limits::{MAX_ATOMS, MAX_RULES};
use book::refusal::Refusal;

// The marks of an object; 0 leaves it open. They are bytes, since a page is lent as bytes.
pub const OUT: u8 = 1;

pub const IN: u8 = 2;

// The most objects that a book may have.
pub const MAX_MARKS: usize = MAX_ATOMS + MAX_RULES;

// Declines what is no page of the book.
pub fn check_page(book: &Book, page: &[u8]) -> Result<(), Refusal>
    ensures declines { result_err result ≡ page_fault (program_of book.now) page.now }
    ensures page { OnOk result (Page (program_of book.now) page.now) }
    ensures short { OnOk result (length page.now ≤ 384) }
{
    check_bytes(book.atoms() + book.rules(), IN, page)
}
