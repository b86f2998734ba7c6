// What is found of a sheet.
ghost use Rattle.std.specs.Prelude.{◌≡◌, Some};
ghost use Rattle.check_sheets.specs.Said.{said};

use book::refusal::Refusal;
use std::fmt;

// Kept beside the `Result<bool, Refusal>` of `check`: that can have no words of its own, and a struct around it would
// need the same three cases without their names.
#[derive(Clone, Copy)]
pub enum Finding {
    AnswerSet,
    NoAnswerSet,
    Declined(Refusal),
}

impl fmt::Display for Finding {
    ghost output = { λ f. Some (said f) };

    fn fmt<W: fmt::Write>(&self, f: &mut fmt::Formatter<W>) -> fmt::Result {
        match self {
            Finding::AnswerSet => f.write_str("answer set"),
            Finding::NoAnswerSet => f.write_str("no answer set"),
            Finding::Declined(refusal) => write!(f, "{refusal}"),
        }
    }
}
