// A table that is filled row by row, from the front.
ghost use Rattle.std.specs.Prelude.{◌≡◌, ℕ, ◌+◌, ◌*◌, ◌<◌, ◌≤◌, [], ◌++◌, length, slice_index};
ghost use Rattle.book.specs.Format.{twos};
ghost use Rattle.draft.specs.Rows.{bytes_by};

use crate::bytes::two_bytes;

// The first rows of a table of N, of W bytes each.
// A draft has to stay `Copy` and in fixed memory; the vector of arrayvec is not `Copy`.
#[derive(Clone, Copy)]
pub(crate) struct Rows<const W: usize, const N: usize> {
    rows: [[u8; W]; N],
    len: usize,
    ghost narrow: { W < 256 },
    ghost within: { len ≤ N },
    ghost wide: { length (bytes_by rows len) ≡ W * len },
}

#[tactic(auto, unfolding(crate::specs::Rows::bytes_by))]
impl<const W: usize, const N: usize> Rows<W, N> {
    ghost use Rattle.draft.specs.Filled.{filled};

    // A table of which no row is filled.
    pub(crate) fn new() -> Rows<W, N>
        requires { W < 256 }
        ensures len { result.len ≡ 0 }
        ensures bytes { filled result ≡ [] }
    {
        Rows {
            rows: [[0; W]; N],
            len: 0,
        }
    }

    // How many rows are filled.
    pub(crate) fn len(&self) -> usize
        ensures { result ≡ self.now.len }
    {
        self.len
    }

    // The bytes of the filled rows.
    pub(crate) fn as_bytes(&self) -> &[u8]
        ensures len { length result.now ≡ W * self.now.len }
        ensures bytes { result.now ≡ filled self.now }
    {
        self.rows[..self.len].as_flattened()
    }

    // Fills the next row.
    pub(crate) fn push(&mut self, row: [u8; W])
        requires { self.old.len < N }
        ensures len { self.new.len ≡ self.old.len + 1 }
        ensures bytes { filled self.new ≡ filled self.old ++ row.entry }
    {
        self.rows[self.len] = row;
        self.len += 1;
    }
}

#[tactic(auto, unfolding(crate::specs::Rows::bytes_by))]
impl<const N: usize> Rows<2, N> {
    ghost use Rattle.draft.specs.Filled.{filled};

    // Fills a row for each atom.
    // With a `push` for each, the length would be written and read again each time, and that is twice as slow.
    pub(crate) fn push_atoms(&mut self, atoms: &[usize])
        requires within { self.old.len + length atoms.now ≤ N }
        requires small { (i : ℕ) → i < length atoms.now → slice_index atoms.now i < 65536 }
        ensures len { self.new.len ≡ self.old.len + length atoms.now }
        ensures bytes { filled self.new ≡ filled self.old ++ twos atoms.now }
    {
        let from = self.len;
        for (i, &atom) in atoms.iter().enumerate() {
            self.rows[from + i] = two_bytes(atom);
        }
        self.len += atoms.len();
    }
}
