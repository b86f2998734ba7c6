// A rule that is to be added to a draft, and the tests of it that look at nothing but its number of atoms.
ghost use Rattle.std.specs.Prelude.{◌≡◌, ◌+◌, ◌<◌, ◌≤◌, [], ◌∷◌, length, is_none, unwrap_or};
ghost use Rattle.std.specs.Result.{result_err};
ghost use Rattle.book.specs.First.{or_else};
ghost use Rattle.book.specs.Format.{contents};
ghost use Rattle.book.specs.Diagnosis.{literal_fault_of};
ghost use Rattle.draft.specs.Adding.{rule_head_fault, part_fault};
ghost use Rattle.draft.specs.NewRule.{given};

use crate::bytes::two_bytes;
use book::refusal::{Cause, Refusal};

// A rule by its head and the two parts of its body.
#[derive(Clone, Copy)]
pub(crate) struct NewRule<'a> {
    pub(crate) head: usize,
    pub(crate) positives: &'a [usize],
    pub(crate) negatives: &'a [usize],
}

impl NewRule<'_> {
    // The head, over so many atoms.
    pub(crate) fn check_head(&self, atoms: usize) -> Result<(), Refusal>
        ensures { result_err result ≡ rule_head_fault atoms self.now.head }
    {
        if self.head >= atoms {
            return Err(Refusal::new(Cause::Head, 0));
        }
        Ok(())
    }

    // The literals, counted through both parts.
    pub(crate) fn check_literals(&self, atoms: usize) -> Result<(), Refusal>
        requires { length self.now.positives.now + length self.now.negatives.now ≤ 512 }
        ensures { result_err result ≡ or_else (part_fault atoms 0 self.now.positives.now) (part_fault atoms (length self.now.positives.now) self.now.negatives.now) }
    {
        check_part(atoms, self.positives, 0)?;
        check_part(atoms, self.negatives, self.positives.len())
    }

    // The entry of the rule, whose body begins at literal `place`: its head, that place, and how many atoms its parts have.
    pub(crate) fn entry(&self, place: usize) -> [u8; 6]
        requires head { self.now.head < 65536 }
        requires place { place < 65536 }
        requires parts { (length self.now.positives.now < 256) × (length self.now.negatives.now < 256) }
        ensures { result ≡ contents place (given self.now ∷ []) }
    {
        let [h0, h1] = two_bytes(self.head);
        let [p0, p1] = two_bytes(place);
        // Each is below 256, so the casts lose nothing.
        let positives = self.positives.len() as u8;
        let negatives = self.negatives.len() as u8;
        [h0, h1, p0, p1, positives, negatives]
    }
}

// An atom at a place of the rule, over so many, after the atom before it in its part, if there is one.
// The reader has a test of its own: it finds the atom and the one before in bytes, at a place of them.
fn check_literal(
    atoms: usize,
    place: usize,
    last: Option<usize>,
    atom: usize,
) -> Result<(), Refusal>
    ensures { result_err result ≡ literal_fault_of atoms place (is_none last) (unwrap_or last 0) atom }
{
    if atom >= atoms {
        return Err(Refusal::new(Cause::Range, place));
    }
    match last {
        Some(last) if atom <= last => Err(Refusal::new(Cause::Order, place)),
        _ => Ok(()),
    }
}

// The first literal of a part that breaks a condition, where the rule has `before` literals before the part.
fn check_part(atoms: usize, part: &[usize], before: usize) -> Result<(), Refusal>
    requires { before + length part.now ≤ 512 }
    ensures { result_err result ≡ part_fault atoms before part.now }
{
    let mut last = None;
    for (i, &atom) in part.iter().enumerate() {
        check_literal(atoms, before + i, last, atom)?;
        last = Some(atom);
    }
    Ok(())
}
