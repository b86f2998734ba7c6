// The calls of an inquiry.
ghost use Rattle.std.specs.Prelude.{◌≡◌, [], length, take, IfOk, MatchResult, OnErr};
ghost use Rattle.book.specs.Reading.{program_of};
ghost use Rattle.inquiry.specs.Calls.{opening, Transcript, next as nexts, wish as wishes, seek as seeks, rewind as rewinds, done};
ghost use Rattle.inquiry.specs.Promise.{Promised};
ghost use Rattle.inquiry.specs.Kinds.{finding, Written};
ghost use Rattle.inquiry.specs.Answered.{held_book, held_state, said, said_done, Answered, Word, Keeps, Lists, Closes};

use crate::admit::{check_next, check_wish};
use crate::inquiry::Inquiry;
use crate::kind::Reply;
use crate::state::State;
use answer::sheet::check_sheet;
use book::book::Book;
use book::limits::MAX_ATOMS;
use book::refusal::Refusal;
use operator::operator::Operator;

// Each call says for itself that a decline changes nothing, since its contract is read alone.
impl<'a> Inquiry<'a> {
    // An inquiry over the book: the cursor is none and all wishes are free.
    pub fn open(book: Book<'a>) -> Inquiry<'a>
        ensures book { result.book ≡ book.entry }
        ensures state { held_state result ≡ opening (program_of book.entry) }
        ensures transcript { Transcript (program_of book.entry) [] (held_state result) }
        ensures promised { Promised (program_of book.entry) [] (held_state result) }
    {
        let state = State::start();
        Inquiry { book, state }
    }

    // Makes steps until a sheet, the walk's end or the end of the allowance. A sheet goes into the first n bytes of the
    // buffer, and becomes the cursor. Declines an allowance of 0 or above 1,000,000, then a buffer under n bytes.
    pub fn next<O: Operator>(
        &mut self,
        operator: &mut O,
        allowance: u32,
        buffer: &mut [u8],
    ) -> Result<Reply, Refusal>
        ensures answered { Answered self.old (nexts (O.Operator.meaning operator.old) allowance (length buffer.old)) (said (held_book self.old).atoms buffer.new result) self.new }
        ensures buffer { MatchResult result (λ x. Written (held_book self.old).atoms buffer.old buffer.new x.kind) (λ _. buffer.new ≡ buffer.old) }
        ensures unchanged { OnErr result (self.new ≡ self.old) }
        ensures word { IfOk result (λ x. Word (held_book self.old) (held_state self.old) allowance (finding x.kind (take (held_book self.old).atoms buffer.new)) x.steps) }
        ensures keeps { IfOk result (λ x. Keeps (held_book self.old) (held_state self.old) allowance (finding x.kind (take (held_book self.old).atoms buffer.new)) x.steps) }
        ensures lists { IfOk result (λ x. Lists (held_book self.old) (held_state self.old) (finding x.kind (take (held_book self.old).atoms buffer.new))) }
        ensures closes { IfOk result (λ x. Closes (held_book self.old) (held_state self.old) (finding x.kind (take (held_book self.old).atoms buffer.new))) }
        ensures same { O.Operator.meaning operator.new ≡ O.Operator.meaning operator.old }
    {
        check_next(self.book.atoms(), allowance, buffer.len())?;
        Ok(self.state.advance(&self.book, operator, allowance, buffer))
    }

    // Sets one atom's wish, 0 for free, 1 for out or 2 for in, and starts the walk over.
    // Declines an atom that the book does not have, then a value above 2.
    pub fn wish(&mut self, atom: usize, value: u8) -> Result<(), Refusal>
        ensures answered { Answered self.old (wishes atom value) (said_done result) self.new }
        ensures unchanged { OnErr result (self.new ≡ self.old) }
    {
        check_wish(self.book.atoms(), atom, value)?;
        self.state.wishes[atom] = value;
        self.state.restart(&self.book);
        Ok(())
    }

    // Sets the cursor to a sheet, which need not be an answer set, and starts the walk over.
    // Declines what is no sheet over the book's atoms.
    pub fn seek(&mut self, sheet: &[u8]) -> Result<(), Refusal>
        ensures answered { Answered self.old (seeks sheet.now) (said_done result) self.new }
        ensures unchanged { OnErr result (self.new ≡ self.old) }
    {
        let n = self.book.atoms();
        check_sheet(n, sheet)?;
        let mut cursor = [0; MAX_ATOMS];
        cursor[..n].copy_from_slice(sheet);
        self.state.cursor = Some(cursor);
        self.state.restart(&self.book);
        Ok(())
    }

    // Sets the cursor to none, and starts the walk over.
    pub fn rewind(&mut self)
        ensures { Answered self.old rewinds done self.new }
    {
        self.state.cursor = None;
        self.state.restart(&self.book);
    }
}
