// Forward: a body from its atoms, an atom from the bodies of its rules, in one pass over the rules.
ghost use Rattle.std.specs.Prelude.{◌≡◌, ◌+◌};
ghost use Rattle.book.specs.Handing.{IsRule};
ghost use Rattle.operator.specs.Operator.{forward, forward_marks, forward_to};
ghost use Rattle.operator.specs.Marks.{program_under, marks_in};
ghost use Rattle.operator.specs.Notes.{Noted};
ghost use Rattle.operator.specs.Operators.{forward_lawful};

use crate::marks::Marks;
use crate::notes::Notes;
use crate::operator::{Operator, Verdict};
use crate::page::{IN, OUT};
use crate::part::{Sign, all_satisfied, some_failed};
use crate::plain::{self, PlainOperator};
use book::book::Book;
use book::book::rules::Rule;
use book::limits::MAX_ATOMS;
use book::refusal::Refusal;

#[derive(Clone, Copy)]
pub struct Forward;

impl Operator for Forward {
    ghost meaning = { λ _. forward };

    ghost lawful = { λ x. forward_lawful };

    fn apply(&mut self, book: &Book, page: &mut [u8]) -> Result<Verdict, Refusal> {
        plain::apply::<Forward>(book, page)
    }
}

impl PlainOperator for Forward {
    ghost derived = { forward_marks };

    // An atom is out unless one of its rules has a body that is not.
    fn notes(page: &Marks) -> Notes {
        let mut notes = Notes::none();
        notes.atom_out = [true; MAX_ATOMS];
        for (k, rule) in page.book.iter().enumerate() {
            note_rule(page, k, rule, &mut notes);
        }
        notes
    }
}

// What rule k adds. Page, number and rule are lent apart, here and in the other passes: a struct of them would be made
// at each rule only to say this one fact.
fn note_rule(page: &Marks, k: usize, rule: Rule, notes: &mut Notes)
    requires rule { IsRule page.now.book.now k rule }
    requires before { Noted (program_under page.now) k notes.old (forward_to k (program_under page.now) (marks_in page.now)) }
    ensures { Noted (program_under page.now) (k + 1) notes.new (forward_to (k + 1) (program_under page.now) (marks_in page.now)) }
{
    let body = page.body(k);
    let positives = page.survey(rule.positives, Sign::Positive);
    let negatives = page.survey(rule.negatives, Sign::Negative);
    notes.body_in[k] = all_satisfied(positives, negatives);
    notes.body_out[k] = some_failed(positives, negatives);
    notes.atom_in[rule.head] |= page.has(body, IN);
    notes.atom_out[rule.head] &= page.has(body, OUT);
}
