// How a draft becomes a book.
ghost use Rattle.std.specs.Prelude.{◌≡◌, ◌+◌, ◌*◌, ◌≤◌, ◌++◌, length, MatchResult};
ghost use Rattle.std.specs.Result.{result_err};
ghost use Rattle.std.specs.List.{flat_map};
ghost use Rattle.book.specs.Format.{two};
ghost use Rattle.draft.specs.Writing.{form_length, write_fault, written_over, ReadBack, OneForm};
ghost use Rattle.draft.specs.Drafting.{drafted};

use crate::bytes::{put, two_bytes};
use crate::draft::Draft;
use book::refusal::{Cause, Refusal};

impl Draft {
    // Writes the draft as a book over the first bytes of the buffer, and says how many they are.
    // Declined for a buffer that is too short, at the length needed; the buffer then stays.
    pub fn write(&self, buffer: &mut [u8]) -> Result<usize, Refusal>
        ensures declines { result_err result ≡ write_fault (drafted self.now) (length buffer.old) }
        ensures after { MatchResult result (λ n. (n ≡ form_length (drafted self.now)) × (buffer.new ≡ written_over (drafted self.now) buffer.old)) (λ _. buffer.new ≡ buffer.old) }
        ensures back { ReadBack (drafted self.now) }
        ensures one { OneForm (drafted self.now) }
    {
        let needed = self.form_length();
        if buffer.len() < needed {
            return Err(Refusal::new(Cause::Buffer, needed));
        }
        self.put_form(buffer);
        Ok(needed)
    }

    // The length of the book, which is read back as it is written, and which no other bytes stand for.
    fn form_length(&self) -> usize
        ensures counted { result ≡ 6 + 6 * self.now.contents.len + 2 * self.now.bodies.len }
        ensures length { result ≡ form_length (drafted self.now) }
        ensures back { ReadBack (drafted self.now) }
        ensures one { OneForm (drafted self.now) }
    {
        6 + 6 * self.rules() + 2 * self.literals()
    }

    // Puts the counts, the contents and the bodies over the first bytes, which the buffer has.
    fn put_form(&self, buffer: &mut [u8])
        requires { 6 + 6 * self.now.contents.len + 2 * self.now.bodies.len ≤ length buffer.old }
        ensures { buffer.new ≡ written_over (drafted self.now) buffer.old }
    {
        let contents = self.contents.as_bytes();
        put(buffer, 0, self.header().as_flattened());
        put(buffer, 6, contents);
        put(buffer, 6 + contents.len(), self.bodies.as_bytes());
    }

    // The counts that the book opens with.
    fn header(&self) -> [[u8; 2]; 3]
        ensures { flat_map (λ count. count) result ≡ two self.now.atoms ++ (two self.now.contents.len ++ two self.now.bodies.len) }
    {
        [
            two_bytes(self.atoms),
            two_bytes(self.rules()),
            two_bytes(self.literals()),
        ]
    }
}
