// Refusals: why a call is declined, and where. Every call of every crate declines by these causes.
ghost use Rattle.std.specs.Prelude.{◌≡◌, Some};
ghost use Rattle.book.specs.Refusal.{cause_number, refusal_line};

use std::error::Error;
use std::fmt;

// Why a call is declined, with the number by which the refusal is known.
#[derive(Clone, Copy, PartialEq, Eq, Debug)]
pub enum Cause {
    // a book of fewer than six bytes
    Short = 1,
    // more atoms, rules or literals than a book may have
    Limit = 2,
    // a book that is not as long as its counts ask for
    BookLength = 3,
    // a head that is no atom
    Head = 4,
    // a body that does not begin where the one before it ends
    Place = 5,
    // a body that ends past the literals
    Count = 6,
    // literals that belong to no rule
    Unclaimed = 7,
    // an atom or a rule that the book does not have
    Range = 8,
    // an atom that does not ascend within its part
    Order = 9,
    // a draft with no room for the rule
    Full = 10,
    // a buffer that is too short
    Buffer = 11,
    // an allowance of no steps, or of too many
    Allowance = 12,
    // a byte or a value that stands for nothing
    Value = 13,
    // a sheet or a page of the wrong length
    Length = 14,
}

impl Cause {
    // The number of the one table. `as` wants the type itself, so no generic function serves all enums with numbers.
    pub fn number(self) -> u8
        ensures { result ≡ cause_number self }
    {
        self as u8
    }
}

// A refusal: its cause and its place, which is a byte, an index or a length, as the call says.
#[derive(Clone, Copy, PartialEq, Eq, Debug)]
pub struct Refusal {
    pub cause: Cause,
    pub place: usize,
}

impl Refusal {
    pub fn new(cause: Cause, place: usize) -> Refusal
        ensures { result ≡ record { cause = cause; place = place } }
    {
        Refusal { cause, place }
    }
}

impl fmt::Display for Refusal {
    ghost output = { λ r. Some (refusal_line r) };

    fn fmt<W: fmt::Write>(&self, f: &mut fmt::Formatter<W>) -> fmt::Result {
        let cause = self.cause.number();
        let place = self.place;
        write!(f, "fault {cause} {place}")
    }
}

impl Error for Refusal {}
