// Sets of atoms and of rules as flags, one for each that a book may have.
ghost use Rattle.std.specs.Prelude.{◌≡◌, ℕ, ◌<◌};
ghost use Rattle.book.specs.declared.book.rules.Rule.{Rule};
ghost use Rattle.book.specs.Program.{rule_count};
ghost use Rattle.book.specs.Layout.{words};
ghost use Rattle.book.specs.Reading.{program_of};
ghost use Rattle.book.specs.Handing.{IsRule};
ghost use Rattle.answer.specs.Tests.{each_of};
ghost use Rattle.answer.specs.Flags.{flagged};

use book::book::Book;
use book::book::iter::Atoms;
use book::book::rules::Rule;
use book::limits::{MAX_ATOMS, MAX_RULES};

// Arrays of fixed size, since nothing is allocated.
pub type AtomFlags = [bool; MAX_ATOMS];

pub type RuleFlags = [bool; MAX_RULES];

// Whether the atom has its flag; past the flags none has.
pub fn is_flagged(flags: &AtomFlags, atom: usize) -> bool
    ensures { result ≡ flagged flags.now atom }
{
    flags.get(atom).copied().unwrap_or(false)
}

// Whether every atom of a part has its flag.
pub fn all_flagged(part: &[u8], flags: &AtomFlags) -> bool
    ensures { result ≡ each_of (flagged flags.now) (words part.now) }
{
    Atoms::of(part).all(|atom| is_flagged(flags, atom))
}

// A flag for each rule of the book that passes a test of its number and of what it says.
pub fn rule_flags<F: Fn(usize, Rule) -> bool>(book: &Book, test: F) -> RuleFlags
    requires { (k : ℕ) (x : Rule) → IsRule book.now k x → F.pre test k x }
    ensures { (k : ℕ) → k < rule_count (program_of book.now) → (x : Rule) × IsRule book.now k x × F.post test k x (flagged result k) }
{
    let mut flags = [false; MAX_RULES];
    for (k, rule) in book.iter().enumerate() {
        flags[k] = test(k, rule);
    }
    flags
}
