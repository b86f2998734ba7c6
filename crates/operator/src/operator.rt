// The interface of the operators. In the field an operator is a propagation operator.
ghost use Rattle.std.specs.Prelude.{◌≡◌, MatchResult};
ghost use Rattle.std.specs.Result.{result_err};
ghost use Rattle.book.specs.Reading.{program_of};
ghost use Rattle.operator.specs.Page.{Meaning, Lawful};
ghost use Rattle.operator.specs.Apply.{page_fault, Answers};

use book::book::Book;
use book::refusal::Refusal;

// What an operator answers: the page has its new marks, or it clashed and the marks are as they were.
// No `Result`: a clash is no failure of the call, which declines by a refusal.
#[derive(Clone, Copy, PartialEq, Eq, Debug)]
pub enum Verdict {
    Marked,
    Clash,
}

pub trait Operator {
    // a function from a book and a page to a page or a clash
    ghost meaning: { Self → Meaning };

    // Changes the page into the one that the meaning gives, or answers clash and leaves the marks. A page is the
    // caller's own bytes, and any book may come with it: so the two are apart here, and tested.
    // Declines a page that is not of n + m bytes, and then a mark above 2, and leaves the marks.
    fn apply(&mut self, book: &Book, page: &mut [u8]) -> Result<Verdict, Refusal>
        ensures declines { result_err result ≡ page_fault (program_of book.now) page.old }
        ensures applied { MatchResult result (λ v. Answers (meaning self.old (program_of book.now) page.old) page.old v page.new) (λ _. page.new ≡ page.old) }
        ensures same { meaning self.new ≡ meaning self.old };

    // growth and soundness, on every book in use and every page
    ghost lawful: { (x : Self) → Lawful (meaning x) };
}
