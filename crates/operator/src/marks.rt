// The marks of a book's objects, as an operator reads them.
ghost use Rattle.book.specs.Reading.{program_of};
ghost use Rattle.operator.specs.Page.{Page};

use crate::page::check_page;
use book::book::Book;
use book::refusal::Refusal;

// A book, and a page of it.
#[derive(Clone, Copy)]
pub(crate) struct Marks<'a> {
    pub(crate) book: &'a Book<'a>,
    page: &'a [u8],
    ghost fits: { Page (program_of book.now) page.now },
}

impl<'a> Marks<'a> {
    ghost use Rattle.std.specs.Prelude.{◌≡◌, ◌+◌, ◌<◌, IfOk};
    ghost use Rattle.std.specs.Result.{result_err};
    ghost use Rattle.book.specs.Program.{rule_count};
    ghost use Rattle.operator.specs.Apply.{page_fault};
    ghost use Rattle.operator.specs.Page.{object_count};
    ghost use Rattle.operator.specs.Marks.{program_under, marks_in, met};

    // Declines what is no page of the book.
    pub(crate) fn of(book: &'a Book<'a>, page: &'a [u8]) -> Result<Marks<'a>, Refusal>
        ensures declines { result_err result ≡ page_fault (program_of book.now) page.now }
        ensures book { IfOk result (λ m. m.book.now ≡ book.now) }
        ensures marks { IfOk result (λ m. marks_in m ≡ page.now) }
    {
        check_page(book, page)?;
        Ok(Marks { book, page })
    }

    // The object of the body of rule k.
    pub(crate) fn body(&self, k: usize) -> usize
        requires { k < rule_count (program_under self.now) }
        ensures { result ≡ (program_under self.now).atoms + k }
    {
        self.book.atoms() + k
    }

    // Whether an object has the mark, a byte as on every page. It is an object of the book, so no bounds check runs.
    pub(crate) fn has(&self, object: usize, mark: u8) -> bool
        requires { object < object_count (program_under self.now) }
        ensures { result ≡ met (marks_in self.now) mark object }
    {
        self.page[object] == mark
    }
}
