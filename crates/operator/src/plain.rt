// The plain operators: each derives from all rules of the book at once, and the marks are written at the same time.
ghost use Rattle.std.specs.Prelude.{◌≡◌, ℕ, List, MatchResult};
ghost use Rattle.std.specs.Result.{result_err};
ghost use Rattle.book.specs.Program.{Program, rule_count};
ghost use Rattle.book.specs.Reading.{program_of};
ghost use Rattle.operator.specs.Operator.{Derived, derive};
ghost use Rattle.operator.specs.Apply.{page_fault, Answers};
ghost use Rattle.operator.specs.Marks.{program_under, marks_in};
ghost use Rattle.operator.specs.Notes.{Noted};

use crate::marks::Marks;
use crate::notes::Notes;
use crate::operator::Verdict;
use book::book::Book;
use book::refusal::Refusal;

pub(crate) trait PlainOperator {
    // what is derived from a book and a page of it
    ghost derived: { Program → List ℕ → Derived };

    fn notes(page: &Marks) -> Notes
        ensures { Noted (program_under page.now) (rule_count (program_under page.now)) result (derived (program_under page.now) (marks_in page.now)) };
}

// Declines what is no page of the book.
pub(crate) fn apply<P: PlainOperator>(book: &Book, page: &mut [u8]) -> Result<Verdict, Refusal>
    ensures declines { result_err result ≡ page_fault (program_of book.now) page.old }
    ensures applied { MatchResult result (λ v. Answers (derive P.derived (program_of book.now) page.old) page.old v page.new) (λ _. page.new ≡ page.old) }
{
    let notes = P::notes(&Marks::of(book, page)?);
    Ok(notes.finish(book, page))
}
