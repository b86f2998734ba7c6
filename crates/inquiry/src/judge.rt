// What is to be done at a page that the operator made.
ghost use Rattle.std.specs.Prelude.{◌≡◌, ◌≤◌, length, take, Some, Decides, MatchOption};
ghost use Rattle.book.specs.Reading.{program_of};
ghost use Rattle.answer.specs.Answer.{Sheet, Answer};
ghost use Rattle.answer.specs.Computed.{sheet_by};
ghost use Rattle.operator.specs.Page.{is_in};
ghost use Rattle.inquiry.specs.Cursor.{Behind, Lowest, Full};
ghost use Rattle.inquiry.specs.View.{cursor_of};
ghost use Rattle.inquiry.specs.Turns.{page_of, Judged};

use crate::walk::Walk;
use answer::check::check;
use book::book::Book;
use book::limits::MAX_ATOMS;
use operator::page::{IN, OUT};

// What comes next: the walk retreats, an atom is chosen or the sheet is handed out.
#[derive(Clone, Copy)]
pub enum Turn {
    Retreat,
    Choose(usize),
    Hand,
}

// The lowest atom with an open mark. Marks are bytes of a page, here and below.
fn lowest_open(marks: &[u8]) -> Option<usize>
    ensures { MatchOption result (Full (length marks.now) marks.now) (Lowest (length marks.now) marks.now) }
{
    marks.iter().position(|&mark| mark == 0)
}

// Whether the marks are behind the sheet. An open mark never equals a value; both are bytes, as on a page and a sheet.
fn is_behind_sheet(marks: &[u8], sheet: &[u8]) -> bool
    requires { length sheet.now ≡ length marks.now }
    ensures { Decides result (Behind (length marks.now) marks.now (Some sheet.now)) }
{
    for (&mark, &value) in marks.iter().zip(sheet) {
        if mark.checked_sub(1) != Some(value) {
            return mark == OUT && value == 1;
        }
    }
    true
}

// Whether the marks are behind the cursor.
fn is_behind(marks: &[u8], cursor: &Option<[u8; MAX_ATOMS]>) -> bool
    requires { length marks.now ≤ 128 }
    ensures { Decides result (Behind (length marks.now) marks.now (cursor_of (length marks.now) cursor.now)) }
{
    cursor
        .as_ref()
        .is_some_and(|sheet| is_behind_sheet(marks, &sheet[..marks.len()]))
}

// The sheet of the atoms marked in, and zeros after it.
pub(crate) fn marked_sheet(marks: &[u8]) -> [u8; MAX_ATOMS]
    requires { length marks.now ≤ 128 }
    ensures { take (length marks.now) result ≡ sheet_by (length marks.now) (is_in marks.now) }
{
    let mut sheet = [0; MAX_ATOMS];
    for (a, &mark) in marks.iter().enumerate() {
        sheet[a] = u8::from(mark == IN);
    }
    sheet
}

// Whether a sheet over the book's atoms is an answer set.
fn is_answer_set(book: &Book, sheet: &[u8]) -> bool
    requires { Sheet (program_of book.now).atoms sheet.now }
    ensures { Decides result (Answer (program_of book.now) sheet.now) }
{
    check(book, sheet).unwrap()
}

impl Walk {
    // An open atom is chosen, a full page is handed out or not, and a page behind the cursor is left.
    pub(crate) fn judge(&self, book: &Book, cursor: &Option<[u8; MAX_ATOMS]>) -> Turn
        ensures { Judged (program_of book.now) (cursor_of (program_of book.now).atoms cursor.now) (page_of (program_of book.now) self.now) result }
    {
        let n = book.atoms();
        let marks = &self.page[..n];
        if is_behind(marks, cursor) {
            return Turn::Retreat;
        }
        if let Some(atom) = lowest_open(marks) {
            return Turn::Choose(atom);
        }
        let sheet = marked_sheet(marks);
        if is_answer_set(book, &sheet[..n]) {
            Turn::Hand
        } else {
            Turn::Retreat
        }
    }
}
