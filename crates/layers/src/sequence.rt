// Sequence: a first operator and then a second. A clash of either leaves the page as it was at the call.
ghost use Rattle.operator.specs.Layer.{sequence};
ghost use Rattle.operator.specs.Layers.{sequence_lawful};

use book::book::Book;
use book::refusal::Refusal;
use operator::operator::{Operator, Verdict};
use operator::page::{MAX_MARKS, check_page};

#[derive(Clone, Copy)]
pub struct Sequence<F, S> {
    pub first: F,
    pub second: S,
}

impl<F: Operator, S: Operator> Operator for Sequence<F, S> {
    ghost meaning = { λ x. sequence (F.Operator.meaning x.first) (S.Operator.meaning x.second) };

    ghost lawful = { λ x. sequence_lawful (F.Operator.meaning x.first) (S.Operator.meaning x.second) (F.Operator.lawful x.first) (S.Operator.lawful x.second) };

    fn apply(&mut self, book: &Book, page: &mut [u8]) -> Result<Verdict, Refusal> {
        check_page(book, page)?;
        let saved = &mut [0; MAX_MARKS][..page.len()];
        saved.copy_from_slice(page);
        // Both pages are pages of the book, and those are never declined.
        if self.first.apply(book, page).unwrap() == Verdict::Clash {
            return Ok(Verdict::Clash);
        }
        let verdict = self.second.apply(book, page).unwrap();
        if verdict == Verdict::Clash {
            page.copy_from_slice(saved);
        }
        Ok(verdict)
    }
}
