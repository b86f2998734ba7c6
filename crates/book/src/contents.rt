// Layer 2: the entries of the contents.
ghost use Rattle.std.specs.Prelude.{◌≡◌, ◌+◌, ◌*◌, ◌<◌, ◌≤◌, length, drop, slice_index};
ghost use Rattle.std.specs.Result.{result_err};
ghost use Rattle.std.specs.Option.{option_map};
ghost use Rattle.book.specs.Refusal.{in_no_rule};
ghost use Rattle.book.specs.First.{or_else};
ghost use Rattle.book.specs.Layout.{word, head_at, place_at, positives_at, negatives_at};
ghost use Rattle.book.specs.Diagnosis.{entry_fault_of, entries_fault, unclaimed_fault_of, unclaimed_fault};

use crate::faults::RuleFault;
use crate::header::Header;
use crate::refusal::{Cause, Refusal};

// One entry: the head of a rule, the place of its body, and how many literals its two parts have.
#[derive(Clone, Copy)]
pub(crate) struct Entry {
    pub(crate) head: usize,
    pub(crate) place: usize,
    pub(crate) positives: usize,
    pub(crate) negatives: usize,
    ghost small: { (head < 65536) × (place < 65536) × (positives < 256) × (negatives < 256) },
}

// The entry at the front of the contents, and what follows it. A slice pattern of six named bytes is the form that is
// asked for here; that the caller has six is required, so no `Option` could ever be none.
fn take_entry(contents: &[u8]) -> (Entry, &[u8])
    requires { 6 ≤ length contents.now }
    ensures head { result.0.head ≡ word contents.now 0 }
    ensures place { result.0.place ≡ word contents.now 2 }
    ensures positives { result.0.positives ≡ slice_index contents.now 4 }
    ensures negatives { result.0.negatives ≡ slice_index contents.now 5 }
    ensures rest { result.1.now ≡ drop 6 contents.now }
{
    let [h0, h1, p0, p1, positives, negatives, rest @ ..] = contents else {
        unreachable()
    };
    let entry = Entry {
        head: usize::from(u16::from_le_bytes([*h0, *h1])),
        place: usize::from(u16::from_le_bytes([*p0, *p1])),
        positives: usize::from(*positives),
        negatives: usize::from(*negatives),
    };
    (entry, rest)
}

// The entry of rule k.
pub(crate) fn entry_at(bytes: &[u8], k: usize) -> Entry
    requires { (k < 256) × (12 + 6 * k ≤ length bytes.now) }
    ensures head { result.head ≡ head_at bytes.now k }
    ensures place { result.place ≡ place_at bytes.now k }
    ensures positives { result.positives ≡ positives_at bytes.now k }
    ensures negatives { result.negatives ≡ negatives_at bytes.now k }
{
    let (entry, _) = take_entry(&bytes[6 + 6 * k..]);
    entry
}

impl Header<'_> {
    // Entry k, where the entries before it claim `claimed` literals.
    fn check_entry(&self, entry: Entry, k: usize, claimed: usize) -> Result<(), Refusal>
        requires { k ≤ 256 }
        ensures { result_err result ≡ entry_fault_of self.now.atoms self.now.literals claimed k entry.head entry.place (entry.positives + entry.negatives) }
    {
        let byte = 6 + 6 * k;
        if entry.head >= self.atoms {
            return Err(Refusal::new(Cause::Head, byte));
        }
        if entry.place != claimed {
            return Err(Refusal::new(Cause::Place, byte + 2));
        }
        if entry.place + entry.positives + entry.negatives > self.literals {
            return Err(Refusal::new(Cause::Count, byte + 2));
        }
        Ok(())
    }

    // The literals that no entry claims.
    fn check_claimed(&self, claimed: usize) -> Result<(), Refusal>
        requires { claimed ≤ 2048 }
        ensures { result_err result ≡ unclaimed_fault_of self.now.rules self.now.literals claimed }
    {
        if claimed < self.literals {
            return Err(Refusal::new(Cause::Unclaimed, 6 + 6 * self.rules + 2 * claimed));
        }
        Ok(())
    }

    // Layer 2: entry by entry, and then what no entry claims.
    pub(crate) fn check_entries(&self) -> Result<(), RuleFault>
        ensures { result_err result ≡ or_else (entries_fault self.now.bytes.now self.now.rules) (option_map in_no_rule (unclaimed_fault self.now.bytes.now)) }
    {
        let mut contents = &self.bytes[6..];
        let mut claimed = 0;
        // By the number, which a fault names and which indexes nothing. With chunks of six bytes beside it, each entry
        // would be a slice whose length has to be shown again.
        for k in 0..self.rules {
            let (entry, rest) = take_entry(contents);
            self.check_entry(entry, k, claimed)
                .map_err(|field| RuleFault::in_rule(k, field))?;
            claimed += entry.positives + entry.negatives;
            contents = rest;
        }
        self.check_claimed(claimed)?;
        Ok(())
    }
}
