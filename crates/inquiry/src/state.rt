// What an inquiry keeps besides its book: the wishes, the cursor and the walk.
ghost use Rattle.std.specs.Prelude.{◌≡◌, ◌≤◌, ◌++◌, length, take, drop, Some};
ghost use Rattle.book.specs.Reading.{program_of};
ghost use Rattle.inquiry.specs.Cursor.{sheet_of};
ghost use Rattle.inquiry.specs.Calls.{fresh, moved};
ghost use Rattle.inquiry.specs.Kinds.{finding, Written};
ghost use Rattle.inquiry.specs.View.{at_start, cursor_of, view, OnlyCursor};
ghost use Rattle.inquiry.specs.Turns.{page_of, Ran, InShape};

use crate::judge::marked_sheet;
use crate::kind::{Kind, Reply};
use crate::walk::Walk;
use book::book::Book;
use book::limits::MAX_ATOMS;
use operator::operator::Operator;
use operator::page::MAX_MARKS;

// One byte an atom; of wishes and cursor the first n are in use, since the arrays are fixed and the book has n atoms.
// A wish stays a byte, 0 for free: it is the mark that a restart puts on the page.
#[derive(Drop)]
pub struct State {
    pub wishes: [u8; MAX_ATOMS],
    pub cursor: Option<[u8; MAX_ATOMS]>,
    pub walk: Walk,
}

impl State {
    // The state at an opening.
    pub(crate) fn start() -> State
        ensures { result ≡ at_start }
    {
        State {
            wishes: [0; MAX_ATOMS],
            cursor: None,
            walk: Walk::start(),
        }
    }

    // No levels, and a page that holds the wishes and is otherwise open.
    pub(crate) fn restart(&mut self, book: &Book)
        ensures { view (program_of book.now) self.new ≡ fresh (program_of book.now) (cursor_of (program_of book.now).atoms self.old.cursor) (take (program_of book.now).atoms self.old.wishes) }
    {
        let n = book.atoms();
        let mut page = [0; MAX_MARKS];
        page[..n].copy_from_slice(&self.wishes[..n]);
        self.walk.page = page;
        self.walk.depth = Some(0);
    }

    // Hands out the page's sheet, which becomes the cursor.
    fn hand(&mut self, book: &Book, buffer: &mut [u8])
        requires { (program_of book.now).atoms ≤ length buffer.old }
        ensures sheet { buffer.new ≡ sheet_of (program_of book.now) (page_of (program_of book.now) self.old.walk) ++ drop (program_of book.now).atoms buffer.old }
        ensures cursor { cursor_of (program_of book.now).atoms self.new.cursor ≡ Some (sheet_of (program_of book.now) (page_of (program_of book.now) self.old.walk)) }
        ensures rest { OnlyCursor self.old self.new }
    {
        let n = book.atoms();
        let sheet = marked_sheet(&self.walk.page[..n]);
        buffer[..n].copy_from_slice(&sheet[..n]);
        self.cursor = Some(sheet);
    }

    // The steps of a call of next, and the sheet that it hands out.
    pub(crate) fn advance<O: Operator>(
        &mut self,
        book: &Book,
        operator: &mut O,
        allowance: u32,
        buffer: &mut [u8],
    ) -> Reply
        requires shape { InShape (program_of book.now) self.old.walk }
        requires room { (program_of book.now).atoms ≤ length buffer.old }
        ensures run { Ran (O.Operator.meaning operator.old) (program_of book.now) (cursor_of (program_of book.now).atoms self.old.cursor) self.old.walk allowance (finding result.kind (take (program_of book.now).atoms buffer.new)) result.steps self.new.walk }
        ensures cursor { cursor_of (program_of book.now).atoms self.new.cursor ≡ moved (cursor_of (program_of book.now).atoms self.old.cursor) (finding result.kind (take (program_of book.now).atoms buffer.new)) }
        ensures wishes { self.new.wishes ≡ self.old.wishes }
        ensures buffer { Written (program_of book.now).atoms buffer.old buffer.new result.kind }
        ensures same { O.Operator.meaning operator.new ≡ O.Operator.meaning operator.old }
    {
        let reply = self.walk.run(book, &self.cursor, operator, allowance);
        if reply.kind == Kind::Sheet {
            self.hand(book, buffer);
        }
        reply
    }
}
