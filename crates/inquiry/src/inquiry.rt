// An inquiry over a book: what was called since its opening led to its state. In the field an enumeration.
ghost use Rattle.std.specs.Prelude.{List};
ghost use Rattle.book.specs.Reading.{program_of};
ghost use Rattle.inquiry.specs.Calls.{Event, Transcript};
ghost use Rattle.inquiry.specs.View.{view};

use crate::state::State;
use book::book::Book;

pub mod calls;

#[derive(Drop)]
pub struct Inquiry<'a> {
    book: Book<'a>,
    state: State,
    ghost past: { ∥ ((es : List Event) × Transcript (program_of book) es (view (program_of book) state)) ∥₁ },
}
