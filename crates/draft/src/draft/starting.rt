// How a draft begins.
ghost use Rattle.std.specs.Prelude.{◌≡◌, ◌≤◌, MatchResult};
ghost use Rattle.std.specs.Result.{result_err};
ghost use Rattle.book.specs.Program.{no_rules};
ghost use Rattle.draft.specs.Adding.{start_fault};
ghost use Rattle.draft.specs.Drafting.{drafted};

use crate::draft::Draft;
use crate::rows::Rows;
use book::limits::MAX_ATOMS;
use book::refusal::{Cause, Refusal};

// By hand, since it can't be derived for a struct with ghost fields.
impl Default for Draft {
    ghost is_default = { λ d. drafted d ≡ no_rules 0 };

    fn default() -> Draft {
        Draft::new()
    }
}

impl Draft {
    // The draft in hand at first: for no atoms, and without a rule.
    pub fn new() -> Draft
        ensures { drafted result ≡ no_rules 0 }
    {
        Draft::of_atoms(0)
    }

    // Sets the draft up anew, for a number of atoms and without a rule.
    // Declined for more atoms than a book may have; the draft then stays.
    pub fn start(&mut self, atoms: usize) -> Result<(), Refusal>
        ensures declines { result_err result ≡ start_fault atoms }
        ensures after { MatchResult result (λ _. drafted self.new ≡ no_rules atoms) (λ _. self.new ≡ self.old) }
    {
        if atoms > MAX_ATOMS {
            return Err(Refusal::new(Cause::Limit, 0));
        }
        *self = Draft::of_atoms(atoms);
        Ok(())
    }

    // The draft for a number of atoms, without a rule.
    fn of_atoms(atoms: usize) -> Draft
        requires { atoms ≤ 128 }
        ensures { drafted result ≡ no_rules atoms }
    {
        Draft {
            atoms,
            contents: Rows::new(),
            bodies: Rows::new(),
        }
    }
}
