// The stacks: the basic one, and the full one with lookahead.
ghost use Rattle.operator.specs.Layer.{basic, full};
ghost use Rattle.layers.specs.Rest.{ComesToRest};
ghost use Rattle.operator.specs.Operators.{basic_lawful, full_lawful};

use crate::lookahead::Lookahead;
use crate::sequence::Sequence;
use crate::until_rest::UntilRest;
use book::book::Book;
use book::refusal::Refusal;
use operator::backward::Backward;
use operator::forward::Forward;
use operator::operator::{Operator, Verdict};
use operator::unfounded::Unfounded;

// Each stack is a value of its own that callers name, so it is no alias of the type that it is made of.
// Until-rest over forward, backward, unfounded in sequence.
#[derive(Clone, Copy)]
pub struct Basic;

// Until-rest over the basic stack followed by lookahead over the basic stack.
#[derive(Clone, Copy)]
pub struct Full;

impl Operator for Basic {
    ghost meaning = { λ _. basic };

    ghost lawful = { λ x. basic_lawful };

    fn apply(&mut self, book: &Book, page: &mut [u8]) -> Result<Verdict, Refusal> {
        let mut stack = UntilRest {
            below: Sequence {
                first: Forward,
                second: Sequence {
                    first: Backward,
                    second: Unfounded,
                },
            },
        };
        stack.apply(book, page)
    }
}

impl Operator for Full {
    ghost meaning = { λ _. full };

    ghost lawful = { λ x. full_lawful };

    fn apply(&mut self, book: &Book, page: &mut [u8]) -> Result<Verdict, Refusal> {
        let mut stack = UntilRest {
            below: Sequence {
                first: Basic,
                second: Lookahead { below: Basic },
            },
        };
        stack.apply(book, page)
    }
}

// Over any lawful operator until-rest comes to rest.
pub fn until_rest_rests()
    ensures { ComesToRest }
{}
