// Layer 3: the literals of the bodies.
ghost use Rattle.std.specs.Prelude.{◌≡◌, ◌+◌, ◌*◌, ◌<◌, ◌≤◌, length, None};
ghost use Rattle.std.specs.Result.{result_err};
ghost use Rattle.book.specs.Layout.{word, place_at, positives_at};
ghost use Rattle.book.specs.Diagnosis.{entries_fault, literal_fault, bodies_fault};

use crate::contents::{Entry, entry_at};
use crate::faults::RuleFault;
use crate::header::Header;
use crate::refusal::{Cause, Refusal};

// The two-byte number at byte i.
pub(crate) fn word_at(bytes: &[u8], i: usize) -> usize
    requires { i + 1 < length bytes.now }
    ensures { result ≡ word bytes.now i }
{
    usize::from(u16::from_le_bytes([bytes[i], bytes[i + 1]]))
}

impl Header<'_> {
    // Literal i of rule k, whose entry is given. A draft has a test of its own: it has numbers, and no place in bytes.
    fn check_literal(&self, k: usize, entry: Entry, i: usize) -> Result<(), Refusal>
        requires entry { (entry.place ≡ place_at self.now.bytes.now k) × (entry.positives ≡ positives_at self.now.bytes.now k) }
        requires within { entry.place + i < self.now.literals }
        ensures { result_err result ≡ literal_fault self.now.bytes.now k i }
    {
        let byte = 6 + 6 * self.rules + 2 * (entry.place + i);
        let atom = word_at(self.bytes, byte);
        if atom >= self.atoms {
            return Err(Refusal::new(Cause::Range, byte));
        }
        let starts = i == 0 || i == entry.positives;
        if !starts && atom <= word_at(self.bytes, byte - 2) {
            return Err(Refusal::new(Cause::Order, byte));
        }
        Ok(())
    }

    // Layer 3: the first literal, rule by rule, that breaks a condition. Not inlined, so that the bounds of the loop over
    // the literals are in registers: within `Book::read` they lay in memory.
    #[inline(never)]
    pub(crate) fn check_bodies(&self) -> Result<(), RuleFault>
        requires { entries_fault self.now.bytes.now self.now.rules ≡ None }
        ensures { result_err result ≡ bodies_fault self.now.bytes.now self.now.rules }
    {
        // By the numbers of rule and literal, which say where a literal stands and what a fault names.
        'rules: {
            for k in 0..self.rules {
                let entry = entry_at(self.bytes, k);
                for i in 0..entry.positives + entry.negatives {
                    if let Err(field) = self.check_literal(k, entry, i) {
                        break 'rules Err(RuleFault::in_rule(k, field));
                    }
                }
            }
            Ok(())
        }
    }
}
