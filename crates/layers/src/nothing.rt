// The operator that derives nothing.
ghost use Rattle.operator.specs.Layer.{idle};
ghost use Rattle.operator.specs.Layers.{idle_lawful};

use book::book::Book;
use book::refusal::Refusal;
use operator::operator::{Operator, Verdict};
use operator::page::check_page;

#[derive(Clone, Copy)]
pub struct Nothing;

impl Operator for Nothing {
    ghost meaning = { λ _. idle };

    ghost lawful = { λ x. idle_lawful };

    fn apply(&mut self, book: &Book, page: &mut [u8]) -> Result<Verdict, Refusal> {
        check_page(book, page)?;
        Ok(Verdict::Marked)
    }
}
