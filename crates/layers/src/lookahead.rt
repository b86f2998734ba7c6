// Lookahead: each open object is tried, an atom out and a body in, on a copy of the page as it then stands.
// Where the operator below clashes the object gets the opposite mark, and nothing else is taken over.
ghost use Rattle.std.specs.Prelude.{◌≡◌};
ghost use Rattle.book.specs.Reading.{program_of};
ghost use Rattle.operator.specs.Layer.{lookahead, trial, opposite};
ghost use Rattle.operator.specs.Layers.{lookahead_lawful};

use book::book::Book;
use book::refusal::Refusal;
use operator::operator::{Operator, Verdict};
use operator::page::{IN, MAX_MARKS, OUT, check_page};

#[derive(Clone, Copy)]
pub struct Lookahead<O> {
    pub below: O,
}

impl<O: Operator> Operator for Lookahead<O> {
    ghost meaning = { λ x. lookahead (O.Operator.meaning x.below) };

    ghost lawful = { λ x. lookahead_lawful (O.Operator.meaning x.below) (O.Operator.lawful x.below) };

    fn apply(&mut self, book: &Book, page: &mut [u8]) -> Result<Verdict, Refusal> {
        check_page(book, page)?;
        let copy = &mut [0; MAX_MARKS][..page.len()];
        // By the index: each trial copies the whole page, so an iterator could not lend it meanwhile.
        for i in 0..page.len() {
            // Marks are bytes of a page.
            if matches!(page[i], OUT | IN) {
                continue;
            }
            let (trial, opposite) = marks_of(book, i);
            copy.copy_from_slice(page);
            copy[i] = trial;
            // A page of the book is never declined.
            if self.below.apply(book, copy).unwrap() == Verdict::Clash {
                page[i] = opposite;
            }
        }
        Ok(Verdict::Marked)
    }
}

// The mark that is tried at object i, and the one that the object gets if the operator below clashes: bytes of a page.
fn marks_of(book: &Book, i: usize) -> (u8, u8)
    ensures { result ≡ (trial (program_of book.now) i, opposite (program_of book.now) i) }
{
    if i < book.atoms() {
        (OUT, IN)
    } else {
        (IN, OUT)
    }
}
