// How a draft grows by a rule.
ghost use Rattle.std.specs.Prelude.{◌≡◌, length, MatchResult};
ghost use Rattle.std.specs.Result.{result_err};
ghost use Rattle.book.specs.Program.{rule_count, total};
ghost use Rattle.draft.specs.Adding.{rule_by, with_rule, room_fault, add_fault, Addable};
ghost use Rattle.draft.specs.NewRule.{given};
ghost use Rattle.draft.specs.Drafting.{drafted};

use crate::draft::{Draft, MAX_PART};
use crate::new_rule::NewRule;
use book::limits::{MAX_LITERALS, MAX_RULES};
use book::refusal::{Cause, Refusal};

impl Draft {
    // Adds one rule, after all others: its head, and the two parts of its body.
    // Declined for a head that is no atom, then for want of room, then at the first literal that breaks a condition,
    // counted through both parts; the draft then stays.
    pub fn add(
        &mut self,
        head: usize,
        positives: &[usize],
        negatives: &[usize],
    ) -> Result<(), Refusal>
        ensures declines { result_err result ≡ add_fault (drafted self.old) (rule_by head positives.now negatives.now) }
        ensures after { MatchResult result (λ _. drafted self.new ≡ with_rule (drafted self.old) (rule_by head positives.now negatives.now)) (λ _. self.new ≡ self.old) }
    {
        let rule = NewRule {
            head,
            positives,
            negatives,
        };
        self.check_rule(&rule)?;
        self.append(&rule);
        Ok(())
    }

    // The tests of a rule, in their order: its head, the room for it, its literals.
    fn check_rule(&self, rule: &NewRule) -> Result<(), Refusal>
        ensures { result_err result ≡ add_fault (drafted self.now) (given rule.now) }
    {
        rule.check_head(self.atoms)?;
        self.check_room(rule)?;
        rule.check_literals(self.atoms)
    }

    // The room for one more rule.
    fn check_room(&self, rule: &NewRule) -> Result<(), Refusal>
        ensures { result_err result ≡ room_fault (rule_count (drafted self.now)) (total (drafted self.now).rules) (length rule.now.positives.now) (length rule.now.negatives.now) }
    {
        let positives = rule.positives.len();
        let negatives = rule.negatives.len();
        if self.rules() >= MAX_RULES
            || positives > MAX_PART
            || negatives > MAX_PART
            || self.literals() + (positives + negatives) > MAX_LITERALS
        {
            return Err(Refusal::new(Cause::Full, 0));
        }
        Ok(())
    }

    // Puts the entry of the rule behind the contents, and its atoms behind the bodies.
    fn append(&mut self, rule: &NewRule)
        requires { Addable (drafted self.old) (given rule.now) }
        ensures { drafted self.new ≡ with_rule (drafted self.old) (given rule.now) }
    {
        let entry = rule.entry(self.literals());
        self.contents.push(entry);
        self.bodies.push_atoms(rule.positives);
        self.bodies.push_atoms(rule.negatives);
    }
}
