// Backward: the atoms of a body from its mark, a body from its head, in one pass over the rules and their literals.
ghost use Rattle.std.specs.Prelude.{◌≡◌, ℕ, ◌+◌, ◌<◌, true, false, not, ◌&&◌, ◌||◌, ◌==◌, nat_eq, slice_index, slice_index_or};
ghost use Rattle.book.specs.Program.{rule_count};
ghost use Rattle.book.specs.Layout.{words};
ghost use Rattle.book.specs.Reading.{rule_of};
ghost use Rattle.book.specs.Handing.{IsRule};
ghost use Rattle.answer.specs.Tests.{some_of};
ghost use Rattle.operator.specs.Operator.{live, backward, backward_marks, backward_to, last_positive, last_negative};
ghost use Rattle.operator.specs.Marks.{program_under, marks_in};
ghost use Rattle.operator.specs.Notes.{Noted};
ghost use Rattle.operator.specs.Parts.{opens_only, satisfies};
ghost use Rattle.operator.specs.Operators.{backward_lawful};

use crate::marks::Marks;
use crate::notes::Notes;
use crate::operator::{Operator, Verdict};
use crate::page::{IN, OUT};
use crate::part::{Part, Sign};
use crate::plain::{self, PlainOperator};
use answer::flags::AtomFlags;
use book::book::Book;
use book::book::iter::Atoms;
use book::book::rules::Rule;
use book::limits::MAX_ATOMS;
use book::refusal::Refusal;

// How many rules of each atom have a body that is not out; an array, since nothing is allocated.
type Counts = [u16; MAX_ATOMS];

#[derive(Clone, Copy)]
pub struct Backward;

impl Operator for Backward {
    ghost meaning = { λ _. backward };

    ghost lawful = { λ x. backward_lawful };

    fn apply(&mut self, book: &Book, page: &mut [u8]) -> Result<Verdict, Refusal> {
        plain::apply::<Backward>(book, page)
    }
}

impl PlainOperator for Backward {
    ghost derived = { backward_marks };

    // Forward goes through the rules likewise. A closure for the step would have to carry, as a generic claim, what is
    // noted before and after each rule, and would be no plainer than the loop.
    fn notes(page: &Marks) -> Notes {
        let counts = live_rules(page);
        let mut notes = Notes::none();
        for (k, rule) in page.book.iter().enumerate() {
            note_rule(page, k, rule, &counts, &mut notes);
        }
        notes
    }
}

fn live_rules(page: &Marks) -> Counts
    ensures { (a : ℕ) → a < (program_under page.now).atoms → slice_index result a ≡ live (program_under page.now) (marks_in page.now) a (rule_count (program_under page.now)) }
{
    let mut counts = [0; MAX_ATOMS];
    for (k, rule) in page.book.iter().enumerate() {
        if !page.has(page.body(k), OUT) {
            counts[rule.head] += 1;
        }
    }
    counts
}

// What rule k adds.
fn note_rule(page: &Marks, k: usize, rule: Rule, counts: &Counts, notes: &mut Notes)
    requires rule { IsRule page.now.book.now k rule }
    requires counts { (a : ℕ) → a < (program_under page.now).atoms → slice_index counts.now a ≡ live (program_under page.now) (marks_in page.now) a (rule_count (program_under page.now)) }
    requires before { Noted (program_under page.now) k notes.old (backward_to k (program_under page.now) (marks_in page.now)) }
    ensures { Noted (program_under page.now) (k + 1) notes.new (backward_to (k + 1) (program_under page.now) (marks_in page.now)) }
{
    let body = page.body(k);
    let is_in = page.has(body, IN);
    let is_out = page.has(body, OUT);
    let head_in = page.has(rule.head, IN);
    notes.body_in[k] = is_sole(is_out, head_in, counts[rule.head]);
    notes.body_out[k] = page.has(rule.head, OUT);
    note_part(rule.positives, &mut notes.atom_in, is_in);
    note_part(rule.negatives, &mut notes.atom_out, is_in);
    note_last(page, rule, notes, is_out);
}

// Whether a body that is not out is the only one left for an atom that is in.
fn is_sole(is_out: bool, head_in: bool, count: u16) -> bool
    ensures { result ≡ (not is_out && (head_in && count == 1)) }
{
    !is_out && head_in && count == 1
}

// Notes every atom of the part.
fn note_part(part: &[u8], flags: &mut AtomFlags, set: bool)
    requires { (i : ℕ) → slice_index (words part.now) i < 128 }
    ensures { (a : ℕ) → slice_index_or flags.new a false ≡ ((set && some_of (nat_eq a) (words part.now)) || slice_index_or flags.old a false) }
{
    if set {
        for atom in Atoms::of(part) {
            flags[atom] = true;
        }
    }
}

// Notes the last open literal of a body that is out: its negative atom in, or its positive one out.
fn note_last(page: &Marks, rule: Rule, notes: &mut Notes, set: bool)
    requires pos { (i : ℕ) → slice_index (words rule.positives.now) i < (program_under page.now).atoms }
    requires neg { (i : ℕ) → slice_index (words rule.negatives.now) i < (program_under page.now).atoms }
    ensures ins { (a : ℕ) → slice_index_or notes.new.atom_in a false ≡ ((set && last_negative (marks_in page.now) a (rule_of rule.entry)) || slice_index_or notes.old.atom_in a false) }
    ensures outs { (a : ℕ) → slice_index_or notes.new.atom_out a false ≡ ((set && last_positive (marks_in page.now) a (rule_of rule.entry)) || slice_index_or notes.old.atom_out a false) }
    ensures body_in { notes.new.body_in ≡ notes.old.body_in }
    ensures body_out { notes.new.body_out ≡ notes.old.body_out }
{
    if set {
        let pos = page.survey(rule.positives, Sign::Positive);
        let neg = page.survey(rule.negatives, Sign::Negative);
        note_lone(neg, pos, &mut notes.atom_in);
        note_lone(pos, neg, &mut notes.atom_out);
    }
}

// Notes the one open atom of a part, where the other part is satisfied.
fn note_lone(lone: Part, other: Part, flags: &mut AtomFlags)
    requires { (a : ℕ) → opens_only a lone ≡ true → a < 128 }
    ensures { (a : ℕ) → slice_index_or flags.new a false ≡ ((opens_only a lone && satisfies other) || slice_index_or flags.old a false) }
{
    if let (Part::Lone(atom), Part::Satisfied) = (lone, other) {
        flags[atom] = true;
    }
}
