// The literals of one part of a body against the marks of a page.
ghost use Rattle.std.specs.Prelude.{◌≡◌, ℕ, ◌<◌, true, not, ◌&&◌, ◌||◌, MatchOption, slice_index};
ghost use Rattle.book.specs.Layout.{words};
ghost use Rattle.answer.specs.Tests.{each_of, some_of};
ghost use Rattle.operator.specs.Page.{object_count};
ghost use Rattle.operator.specs.Operator.{only_open};
ghost use Rattle.operator.specs.Marks.{program_under, marks_in, met};
ghost use Rattle.operator.specs.Parts.{satisfies, fails, opens_only, joined_by, meeting, failing};

use crate::marks::Marks;
use crate::page::{IN, OUT};
use book::book::iter::Atoms;

// The sign of the literals of a part.
#[derive(Clone, Copy)]
pub(crate) enum Sign {
    Positive,
    Negative,
}

// How a part stands: a literal fails; all are satisfied; all but those of one atom, which is open; more atoms are open.
#[derive(Clone, Copy)]
pub(crate) enum Part {
    Failed,
    Satisfied,
    Lone(usize),
    Open,
}

impl Part {
    // The part with one more open literal.
    fn with_open(self, atom: usize) -> Part
        ensures { result ≡ joined_by self atom }
    {
        match self {
            Part::Satisfied => Part::Lone(atom),
            Part::Lone(first) if first != atom => Part::Open,
            other => other,
        }
    }
}

// Whether all literals of a body of these two parts are satisfied.
pub(crate) fn all_satisfied(positives: Part, negatives: Part) -> bool
    ensures { result ≡ (satisfies positives && satisfies negatives) }
{
    matches!((positives, negatives), (Part::Satisfied, Part::Satisfied))
}

// Whether one of them fails.
pub(crate) fn some_failed(positives: Part, negatives: Part) -> bool
    ensures { result ≡ (fails positives || fails negatives) }
{
    matches!(positives, Part::Failed) || matches!(negatives, Part::Failed)
}

impl Marks<'_> {
    // Whether a literal of an atom is satisfied, or None while the atom is open.
    fn literal(&self, atom: usize, sign: Sign) -> Option<bool>
        requires { atom < object_count (program_under self.now) }
        ensures { MatchOption result (met (marks_in self.now) 0 atom ≡ true) (λ holds. (met (marks_in self.now) (meeting sign) atom ≡ holds) × (met (marks_in self.now) (failing sign) atom ≡ not holds)) }
    {
        if self.has(atom, 0) {
            return None;
        }
        Some(match sign {
            Sign::Positive => self.has(atom, IN),
            Sign::Negative => self.has(atom, OUT),
        })
    }

    // How a part stands whose literals have this sign.
    pub(crate) fn survey(&self, part: &[u8], sign: Sign) -> Part
        requires { (i : ℕ) → slice_index (words part.now) i < (program_under self.now).atoms }
        ensures all { each_of (met (marks_in self.now) (meeting sign)) (words part.now) ≡ satisfies result }
        ensures some { some_of (met (marks_in self.now) (failing sign)) (words part.now) ≡ fails result }
        ensures only { (a : ℕ) → only_open (met (marks_in self.now) (meeting sign)) (marks_in self.now) a (words part.now) ≡ opens_only a result }
    {
        let mut state = Part::Satisfied;
        for atom in Atoms::of(part) {
            match self.literal(atom, sign) {
                Some(true) => {}
                Some(false) => return Part::Failed,
                None => state = state.with_open(atom),
            }
        }
        state
    }
}
