// Whether a sheet is an answer set: the smallest set closed under its own reduct.
ghost use Rattle.std.specs.Prelude.{◌≡◌, ℕ, ◌<◌, ◌≤◌, length, IfOk, Decides};
ghost use Rattle.std.specs.Result.{result_err};
ghost use Rattle.book.specs.Program.{rule_count, nth_rule, Valid};
ghost use Rattle.book.specs.Reading.{program_of};
ghost use Rattle.answer.specs.Tests.{each_of};
ghost use Rattle.answer.specs.Answer.{Sheet, inside, outside, Answer};
ghost use Rattle.answer.specs.Computed.{Computed};
ghost use Rattle.answer.specs.Fault.{sheet_fault};
ghost use Rattle.answer.specs.Flags.{flagged};

use crate::flags::{AtomFlags, RuleFlags, all_flagged, rule_flags};
use crate::least::least_atoms;
use crate::sheet::{byte_at, check_sheet};
use book::book::Book;
use book::refusal::Refusal;
use std::array;

// Whether the sheet is an answer set of the book. Declined if it is no sheet over the book's atoms.
pub fn check(book: &Book, sheet: &[u8]) -> Result<bool, Refusal>
    ensures declines { result_err result ≡ sheet_fault (program_of book.now).atoms sheet.now }
    ensures answers { IfOk result (λ t. Decides t (Answer (program_of book.now) sheet.now)) }
    ensures computed { Computed }
{
    check_sheet(book.atoms(), sheet)?;
    Ok(is_answer_set(book, sheet))
}

// Compares the sheet with the smallest set closed under its reduct.
fn is_answer_set(book: &Book, sheet: &[u8]) -> bool
    requires { Sheet (program_of book.now).atoms sheet.now }
    ensures { Decides result (Answer (program_of book.now) sheet.now) }
{
    let out = outside_atoms(sheet);
    let used = reduct_rules(book, &out);
    let least = least_atoms(book, &used);
    same_atoms(sheet, &least)
}

// The atoms that are not in the sheet.
fn outside_atoms(sheet: &[u8]) -> AtomFlags
    ensures { (a : ℕ) → a < 128 → flagged result a ≡ outside sheet.now a }
{
    array::from_fn(|a| byte_at(sheet, a) != 1)
}

// The rules that the reduct keeps, with the atoms that are out: those whose negative atoms are all out.
fn reduct_rules(book: &Book, out: &AtomFlags) -> RuleFlags
    ensures { (k : ℕ) → k < rule_count (program_of book.now) → flagged result k ≡ each_of (flagged out.now) (nth_rule (program_of book.now) k).negatives }
{
    rule_flags(book, |_, rule| all_flagged(rule.negatives, out))
}

// Whether the flags are those of the atoms in the sheet.
fn same_atoms(sheet: &[u8], flags: &AtomFlags) -> bool
    requires { length sheet.now ≤ 128 }
    ensures { Decides result ((a : ℕ) → a < length sheet.now → flagged flags.now a ≡ inside sheet.now a) }
{
    sheet
        .iter()
        .zip(flags)
        .all(|(&value, &flag)| flag == (value == 1))
}
