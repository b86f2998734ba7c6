// Until-rest: one operator until it clashes or leaves the page as it was. A clash leaves the page as it was at the call.
ghost use Rattle.operator.specs.Layer.{until_rest};
ghost use Rattle.operator.specs.Layers.{until_rest_lawful};

use book::book::Book;
use book::refusal::Refusal;
use operator::operator::{Operator, Verdict};
use operator::page::{MAX_MARKS, check_page};

#[derive(Clone, Copy)]
pub struct UntilRest<O> {
    pub below: O,
}

impl<O: Operator> Operator for UntilRest<O> {
    ghost meaning = { λ x. until_rest (O.Operator.meaning x.below) };

    ghost lawful = { λ x. until_rest_lawful (O.Operator.meaning x.below) (O.Operator.lawful x.below) };

    fn apply(&mut self, book: &Book, page: &mut [u8]) -> Result<Verdict, Refusal> {
        check_page(book, page)?;
        let saved = &mut [0; MAX_MARKS][..page.len()];
        saved.copy_from_slice(page);
        let before = &mut [0; MAX_MARKS][..page.len()];
        loop {
            before.copy_from_slice(page);
            // A page of the book is never declined.
            if self.below.apply(book, page).unwrap() == Verdict::Clash {
                page.copy_from_slice(saved);
                return Ok(Verdict::Clash);
            }
            if *before == *page {
                return Ok(Verdict::Marked);
            }
        }
    }
}
