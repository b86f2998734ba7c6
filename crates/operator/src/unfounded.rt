// Unfounded: what the smallest set closed under the usable rules leaves outside.
ghost use Rattle.std.specs.Prelude.{◌≡◌, ℕ, ◌<◌, not};
ghost use Rattle.book.specs.Program.{rule_count, nth_rule};
ghost use Rattle.book.specs.Reading.{program_of};
ghost use Rattle.book.specs.Handing.{IsRule};
ghost use Rattle.answer.specs.Tests.{each_of};
ghost use Rattle.answer.specs.Flags.{flagged};
ghost use Rattle.operator.specs.Operator.{unfounded, unfounded_marks, usable};
ghost use Rattle.operator.specs.Marks.{program_under, marks_in};
ghost use Rattle.operator.specs.Operators.{unfounded_lawful};

use crate::marks::Marks;
use crate::notes::Notes;
use crate::operator::{Operator, Verdict};
use crate::page::OUT;
use crate::part::{Sign, some_failed};
use crate::plain::{self, PlainOperator};
use answer::flags::{AtomFlags, RuleFlags, all_flagged, rule_flags};
use answer::least::least_atoms;
use book::book::Book;
use book::book::rules::Rule;
use book::limits::{MAX_ATOMS, MAX_RULES};
use book::refusal::Refusal;
use std::array;

#[derive(Clone, Copy)]
pub struct Unfounded;

impl Operator for Unfounded {
    ghost meaning = { λ _. unfounded };

    ghost lawful = { λ x. unfounded_lawful };

    fn apply(&mut self, book: &Book, page: &mut [u8]) -> Result<Verdict, Refusal> {
        plain::apply::<Unfounded>(book, page)
    }
}

impl PlainOperator for Unfounded {
    ghost derived = { unfounded_marks };

    fn notes(page: &Marks) -> Notes {
        let inside = least_atoms(page.book, &usable_rules(page));
        // Each of the four, since `..Notes::none()` would make the two others as well and throw them away.
        Notes {
            atom_in: [false; MAX_ATOMS],
            atom_out: outside_atoms(&inside),
            body_in: [false; MAX_RULES],
            body_out: outside_bodies(page.book, &inside),
        }
    }
}

fn usable_rules(page: &Marks) -> RuleFlags
    ensures { (k : ℕ) → k < rule_count (program_under page.now) → flagged result k ≡ usable (program_under page.now) (marks_in page.now) k }
{
    rule_flags(page.book, |k, rule| is_usable(page, k, rule))
}

// Whether the body is not out and no literal of it fails.
fn is_usable(page: &Marks, k: usize, rule: Rule) -> bool
    requires { IsRule page.now.book.now k rule }
    ensures { result ≡ usable (program_under page.now) (marks_in page.now) k }
{
    if page.has(page.body(k), OUT) {
        return false;
    }
    let positives = page.survey(rule.positives, Sign::Positive);
    let negatives = page.survey(rule.negatives, Sign::Negative);
    !some_failed(positives, negatives)
}

// The atoms that have no flag.
fn outside_atoms(inside: &AtomFlags) -> AtomFlags
    ensures { (a : ℕ) → a < 128 → flagged result a ≡ not (flagged inside.now a) }
{
    array::from_fn(|a| !inside[a])
}

// The bodies with a positive atom that has no flag.
fn outside_bodies(book: &Book, inside: &AtomFlags) -> RuleFlags
    ensures { (k : ℕ) → k < rule_count (program_of book.now) → flagged result k ≡ not (each_of (flagged inside.now) (nth_rule (program_of book.now) k).positives) }
{
    rule_flags(book, |_, rule| !all_flagged(rule.positives, inside))
}
