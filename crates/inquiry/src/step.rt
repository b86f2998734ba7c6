// One step of the walk, and the steps of one call.
ghost use Rattle.std.specs.Prelude.{◌≡◌, ℕ, ◌≤◌, Some, slice_index};
ghost use Rattle.book.specs.Reading.{program_of};
ghost use Rattle.inquiry.specs.Cursor.{sheet_of};
ghost use Rattle.inquiry.specs.Kinds.{finding};
ghost use Rattle.inquiry.specs.View.{cursor_of, OnlyPage};
ghost use Rattle.inquiry.specs.Turns.{page_of, Derives, Stepped, Ran, InShape};

use crate::judge::Turn;
use crate::kind::{Kind, Reply};
use crate::walk::Walk;
use book::book::Book;
use book::limits::MAX_ATOMS;
use operator::operator::{Operator, Verdict};

// Book, cursor and operator have three owners, so each is lent alone: one struct of them would hold a `&mut` and stand
// in the same contracts. Only the caller's operator knows its meaning, so every call that has it says that it stays.
// The shape of a walk is told by the book, which a walk does not hold, so it is no ghost field.
impl Walk {
    // Applies the operator, which never declines a page of the book.
    fn derive<O: Operator>(&mut self, book: &Book, operator: &mut O) -> Verdict
        requires { (i : ℕ) → slice_index (page_of (program_of book.now) self.old) i ≤ 2 }
        ensures derived { Derives (O.Operator.meaning operator.old) (program_of book.now) self.old result self.new }
        ensures rest { OnlyPage self.old self.new }
        ensures same { O.Operator.meaning operator.new ≡ O.Operator.meaning operator.old }
    {
        let objects = book.atoms() + book.rules();
        operator.apply(book, &mut self.page[..objects]).unwrap()
    }

    // Makes one step from `depth` levels, and says whether it found a sheet.
    fn step<O: Operator>(
        &mut self,
        depth: usize,
        book: &Book,
        cursor: &Option<[u8; MAX_ATOMS]>,
        operator: &mut O,
    ) -> bool
        requires depth { self.old.depth ≡ Some depth }
        requires shape { InShape (program_of book.now) self.old }
        ensures step { Stepped (O.Operator.meaning operator.old) (program_of book.now) (cursor_of (program_of book.now).atoms cursor.now) self.old depth result self.new }
        ensures same { O.Operator.meaning operator.new ≡ O.Operator.meaning operator.old }
    {
        match self.derive(book, operator) {
            Verdict::Clash => self.retreat(depth),
            Verdict::Marked => match self.judge(book, cursor) {
                Turn::Retreat => self.retreat(depth),
                Turn::Choose(atom) => self.choose(depth, atom),
                Turn::Hand => return true,
            },
        }
        false
    }

    // Steps until a sheet, the walk's end or the end of the allowance.
    pub(crate) fn run<O: Operator>(
        &mut self,
        book: &Book,
        cursor: &Option<[u8; MAX_ATOMS]>,
        operator: &mut O,
        allowance: u32,
    ) -> Reply
        requires { InShape (program_of book.now) self.old }
        ensures run { Ran (O.Operator.meaning operator.old) (program_of book.now) (cursor_of (program_of book.now).atoms cursor.now) self.old allowance (finding result.kind (sheet_of (program_of book.now) (page_of (program_of book.now) self.new))) result.steps self.new }
        ensures same { O.Operator.meaning operator.new ≡ O.Operator.meaning operator.old }
    {
        for steps in 0..allowance {
            let Some(depth) = self.depth else {
                return Reply {
                    kind: Kind::NoneLeft,
                    steps,
                };
            };
            if self.step(depth, book, cursor, operator) {
                return Reply {
                    kind: Kind::Sheet,
                    steps: steps + 1,
                };
            }
        }
        let kind = match self.depth {
            None => Kind::NoneLeft,
            Some(_) => Kind::Paused,
        };
        Reply {
            kind,
            steps: allowance,
        }
    }
}
