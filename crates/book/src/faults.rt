// The fault of a book: a field's refusal inside its rule's fault inside the book's.
ghost use Rattle.std.specs.Prelude.{◌≡◌, Some};
ghost use Rattle.book.specs.Refusal.{cause_layer, layer_number, in_no_rule, in_rule, in_book, fault_line};

use crate::refusal::{Cause, Refusal};
use std::error::Error;
use std::fmt;

// The layers of a book, in the order in which they are read, with the number by which each is known.
#[derive(Clone, Copy, PartialEq, Eq, Debug)]
pub enum Layer {
    Header = 1,
    Contents = 2,
    Bodies = 3,
}

// The fault of a field, with the number of the rule that the field belongs to, if it belongs to one.
#[derive(Clone, Copy, PartialEq, Eq, Debug)]
pub struct RuleFault {
    pub rule: Option<usize>,
    pub field: Refusal,
}

// The fault of a rule, with the layer in which it was found.
#[derive(Clone, Copy, PartialEq, Eq, Debug)]
pub struct BookFault {
    pub layer: Layer,
    pub fault: RuleFault,
}

impl Layer {
    // 1, 2 or 3. `as` wants the type itself, so no generic function serves all enums with numbers.
    pub fn number(self) -> u8
        ensures { result ≡ layer_number self }
    {
        self as u8
    }

    // The layer in which reading finds the cause. No `From`, since callers have causes that belong to no layer.
    fn of(cause: Cause) -> Layer
        ensures { result ≡ cause_layer cause }
    {
        match cause {
            Cause::Short | Cause::Limit | Cause::BookLength => Layer::Header,
            Cause::Head | Cause::Place | Cause::Count | Cause::Unclaimed => Layer::Contents,
            _ => Layer::Bodies,
        }
    }
}

impl RuleFault {
    pub(crate) fn in_rule(rule: usize, field: Refusal) -> RuleFault
        ensures { result ≡ in_rule rule field }
    {
        RuleFault {
            rule: Some(rule),
            field,
        }
    }
}

impl From<Refusal> for RuleFault {
    ghost from_gives = { λ x y. y ≡ in_no_rule x };

    fn from(field: Refusal) -> RuleFault {
        RuleFault { rule: None, field }
    }
}

impl From<RuleFault> for BookFault {
    ghost from_gives = { λ x y. y ≡ in_book x };

    fn from(fault: RuleFault) -> BookFault {
        BookFault {
            layer: Layer::of(fault.field.cause),
            fault,
        }
    }
}

impl fmt::Display for BookFault {
    ghost output = { λ f. Some (fault_line f) };

    fn fmt<W: fmt::Write>(&self, f: &mut fmt::Formatter<W>) -> fmt::Result {
        let layer = self.layer.number();
        let cause = self.fault.field.cause.number();
        let place = self.fault.field.place;
        write!(f, "fault {layer} {cause} {place}")
    }
}

impl Error for BookFault {}
