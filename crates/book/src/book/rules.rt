// The rules of a book, handed out by number.
ghost use Rattle.std.specs.Prelude.{◌≡◌, ◌/◌, ◌<◌, ◌≤◌, length, IfOk, if◌then◌else◌, Some, None, nat_lt, slice_index, refl};
ghost use Rattle.std.specs.Result.{result_err};
ghost use Rattle.book.specs.declared.refusal.Cause.TheVariants.{Range};
ghost use Rattle.book.specs.Refusal.{refuse};
ghost use Rattle.book.specs.Program.{rule_count, nth_rule, ProperRule, Valid};
ghost use Rattle.book.specs.Layout.{rules_in, head_at, positive_part, negative_part, words};
ghost use Rattle.book.specs.Reading.{held, program_of, rule_of};
ghost use Rattle.book.specs.Handing.{rules_book, rules_next};

use crate::bodies::word_at;
use crate::book::Book;
use crate::book::iter::Rules;
use crate::contents::entry_at;
use crate::refusal::{Cause, Refusal};

// A rule: its head, and its two parts inside the bytes that were read, two bytes an atom.
#[derive(Clone, Copy)]
pub struct Rule<'a> {
    pub head: usize,
    pub positives: &'a [u8],
    pub negatives: &'a [u8],
}

impl<'a> Book<'a> {
    // How many atoms the book has, which is valid like every book in use.
    pub fn atoms(&self) -> usize
        ensures atoms { result ≡ (program_of self.now).atoms }
        ensures valid { Valid (program_of self.now) }
    {
        self.atoms
    }

    // How many rules it has.
    pub fn rules(&self) -> usize
        ensures { result ≡ rule_count (program_of self.now) }
    {
        self.rules
    }

    // The rule of a number. Declined for a number that the book does not have.
    pub fn rule(&self, number: usize) -> Result<Rule<'a>, Refusal>
        ensures declines { result_err result ≡ (if nat_lt number (rule_count (program_of self.now)) then None else Some (refuse 8 Range refl 0)) }
        ensures rule { IfOk result (λ x. rule_of x ≡ nth_rule (program_of self.now) number) }
        ensures positives { IfOk result (λ x. x.positives.now ≡ positive_part (held self.now) number) }
        ensures negatives { IfOk result (λ x. x.negatives.now ≡ negative_part (held self.now) number) }
        ensures proper { IfOk result (λ x. ProperRule (program_of self.now).atoms (rule_of x)) }
    {
        if number >= self.rules {
            return Err(Refusal::new(Cause::Range, 0));
        }
        Ok(self.rule_at(number))
    }

    // Rule k as it stands in the bytes.
    fn rule_at(&self, k: usize) -> Rule<'a>
        requires { k < rules_in (held self.now) }
        ensures head { result.head ≡ head_at (held self.now) k }
        ensures positives { result.positives.now ≡ positive_part (held self.now) k }
        ensures negatives { result.negatives.now ≡ negative_part (held self.now) k }
    {
        let entry = entry_at(self.bytes, k);
        let from = 6 + 6 * self.rules + 2 * entry.place;
        let mid = from + 2 * entry.positives;
        let to = mid + 2 * entry.negatives;
        Rule {
            head: entry.head,
            positives: &self.bytes[from..mid],
            negatives: &self.bytes[mid..to],
        }
    }

    // The rules in the order of their numbers.
    pub fn iter(&self) -> Rules<'a>
        ensures book { rules_book result ≡ self.now }
        ensures first { rules_next result ≡ 0 }
    {
        Rules {
            book: *self,
            next: 0,
        }
    }
}

// Atom i of a part of a rule, or 0 past its end.
pub fn atom_at(part: &[u8], i: usize) -> usize
    ensures { result ≡ slice_index (words part.now) i }
{
    if i < part.len() / 2 {
        word_at(part, 2 * i)
    } else {
        0
    }
}
