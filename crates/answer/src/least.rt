// The smallest set of atoms closed under some of a book's rules, found in rounds over the rules.
// Callers rest on what it is, not on the rounds.
ghost use Rattle.std.specs.Prelude.{◌≡◌, ◌<◌, false, replicate};
ghost use Rattle.book.specs.Program.{rule_count, Valid};
ghost use Rattle.book.specs.Reading.{program_of, rule_of};
ghost use Rattle.answer.specs.Answer.{Least};
ghost use Rattle.answer.specs.Flags.{flagged};
ghost use Rattle.answer.specs.Rounds.{Added, Went};

use crate::flags::{AtomFlags, RuleFlags, all_flagged};
use book::book::Book;
use book::book::rules::Rule;
use book::limits::MAX_ATOMS;

// The smallest set closed under the positive parts of the rules that are used.
pub fn least_atoms(book: &Book, used: &RuleFlags) -> AtomFlags
    ensures { Least (program_of book.now) (flagged used.now) (flagged result) }
{
    let mut flags = [false; MAX_ATOMS];
    close(book, used, &mut flags);
    flags
}

// Rounds until no atom joins: at most one more than there are atoms.
fn close(book: &Book, used: &RuleFlags, flags: &mut AtomFlags)
    requires { flags.old ≡ replicate 128 false }
    ensures { Least (program_of book.now) (flagged used.now) (flagged flags.new) }
{
    while round(book, used, flags) {}
}

// One round over the rules, which says whether an atom joined.
fn round(book: &Book, used: &RuleFlags, flags: &mut AtomFlags) -> bool
    ensures { Went (program_of book.now) (flagged used.now) (rule_count (program_of book.now)) flags.old result flags.new }
{
    let mut joined = false;
    for (k, rule) in book.iter().enumerate() {
        if used[k] && add_head(rule, flags) {
            joined = true;
        }
    }
    joined
}

// Adds the head of a rule if its positive atoms are there, and says whether it is new.
fn add_head(rule: Rule, flags: &mut AtomFlags) -> bool
    requires { rule.head < 128 }
    ensures { Added (rule_of rule.entry) flags.old result flags.new }
{
    if flags[rule.head] || !all_flagged(rule.positives, flags) {
        return false;
    }
    flags[rule.head] = true;
    true
}
