// What an operator derives, noted object by object, and the page or the clash that comes of it.
ghost use Rattle.std.specs.Prelude.{◌≡◌, ℕ, ◌+◌, ◌<◌, ◌≤◌, false, ◌||◌, get_or, replicate, ◌==◌};
ghost use Rattle.book.specs.Program.{rule_count};
ghost use Rattle.book.specs.Reading.{program_of};
ghost use Rattle.operator.specs.Page.{Page};
ghost use Rattle.operator.specs.Operator.{Derived, marks_of};
ghost use Rattle.operator.specs.Apply.{Answers};
ghost use Rattle.operator.specs.Notes.{side, code, Noted};

use crate::operator::Verdict;
use crate::page::{IN, MAX_MARKS, OUT};
use answer::flags::{AtomFlags, RuleFlags};
use book::book::Book;
use book::limits::{MAX_ATOMS, MAX_RULES};

// The atoms and the bodies that would be marked in and out. Four arrays of flags, since nothing is allocated; one array
// of records would be no plainer, as each operator makes only some of the four.
#[derive(Clone, Copy)]
pub(crate) struct Notes {
    pub(crate) atom_in: AtomFlags,
    pub(crate) atom_out: AtomFlags,
    pub(crate) body_in: RuleFlags,
    pub(crate) body_out: RuleFlags,
}

// The mark of an object that has one mark and gets others, or None where it would have both. A mark is a byte of a page.
fn mark_of(mark: u8, gets_in: bool, gets_out: bool) -> Option<u8>
    requires { mark ≤ 2 }
    ensures { result ≡ code (mark == 2 || gets_in) (mark == 1 || gets_out) }
{
    let is_in = mark == IN || gets_in;
    let is_out = mark == OUT || gets_out;
    if is_in && is_out {
        return None;
    }
    // One sum in place of a choice of four, since every object of the page comes here.
    Some(u8::from(is_in) * IN + u8::from(is_out) * OUT)
}

impl Notes {
    // Notes of nothing.
    pub(crate) fn none() -> Notes
        ensures { result ≡ record { atom_in = replicate 128 false; atom_out = replicate 128 false; body_in = replicate 256 false; body_out = replicate 256 false } }
    {
        Notes {
            atom_in: [false; MAX_ATOMS],
            atom_out: [false; MAX_ATOMS],
            body_in: [false; MAX_RULES],
            body_out: [false; MAX_RULES],
        }
    }

    // The mark of object i of a book of n atoms.
    fn object(&self, n: usize, mark: u8, i: usize) -> Option<u8>
        requires { (mark ≤ 2) × (n ≤ 128) × (i < n + 256) }
        ensures { result ≡ code (mark == 2 || side n (get_or self.now.atom_in) (get_or self.now.body_in) i) (mark == 1 || side n (get_or self.now.atom_out) (get_or self.now.body_out) i) }
    {
        if i < n {
            mark_of(mark, self.atom_in[i], self.atom_out[i])
        } else {
            mark_of(mark, self.body_in[i - n], self.body_out[i - n])
        }
    }

    // Writes all marks at the same time, or clashes where an object would get both.
    pub(crate) fn finish(&self, book: &Book, page: &mut [u8]) -> Verdict
        requires { Page (program_of book.now) page.old }
        ensures { (d : Derived) → Noted (program_of book.now) (rule_count (program_of book.now)) self.now d → Answers (marks_of (program_of book.now) page.old d) page.old result page.new }
    {
        let n = book.atoms();
        // A page of the longest book, since nothing is allocated.
        let mut fresh = [0u8; MAX_MARKS];
        for (i, &mark) in page.iter().enumerate() {
            match self.object(n, mark, i) {
                Some(got) => fresh[i] = got,
                None => return Verdict::Clash,
            }
        }
        page.copy_from_slice(&fresh[..page.len()]);
        Verdict::Marked
    }
}
