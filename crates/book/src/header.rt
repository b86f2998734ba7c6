// Layer 1: the counts that a book opens with, within their limits, and the length that they ask for.
ghost use Rattle.std.specs.Prelude.{◌≡◌};
ghost use Rattle.book.specs.Counted.{Counted};

use crate::limits::{MAX_ATOMS, MAX_LITERALS, MAX_RULES};
use crate::refusal::{Cause, Refusal};

// The bytes of a book that are as many as the counts ask for that they open with.
#[derive(Clone, Copy)]
pub(crate) struct Header<'a> {
    pub(crate) bytes: &'a [u8],
    pub(crate) atoms: usize,
    pub(crate) rules: usize,
    pub(crate) literals: usize,
    ghost counted: { Counted bytes.now atoms rules literals },
}

impl<'a> Header<'a> {
    ghost use Rattle.std.specs.Prelude.{IfOk};
    ghost use Rattle.std.specs.Result.{result_err};
    ghost use Rattle.book.specs.Diagnosis.{header_fault};

    pub(crate) fn read(bytes: &'a [u8]) -> Result<Header<'a>, Refusal>
        ensures declines { result_err result ≡ header_fault bytes.now }
        ensures bytes { IfOk result (λ h. h.bytes.now ≡ bytes.now) }
    {
        let [n0, n1, m0, m1, b0, b1, rest @ ..] = bytes else {
            return Err(Refusal::new(Cause::Short, bytes.len()));
        };
        let atoms = usize::from(u16::from_le_bytes([*n0, *n1]));
        let rules = usize::from(u16::from_le_bytes([*m0, *m1]));
        let literals = usize::from(u16::from_le_bytes([*b0, *b1]));
        if atoms > MAX_ATOMS {
            return Err(Refusal::new(Cause::Limit, 0));
        }
        if rules > MAX_RULES {
            return Err(Refusal::new(Cause::Limit, 2));
        }
        if literals > MAX_LITERALS {
            return Err(Refusal::new(Cause::Limit, 4));
        }
        let asked = 6 * rules + 2 * literals;
        if rest.len() != asked {
            return Err(Refusal::new(Cause::BookLength, 6 + rest.len().min(asked)));
        }
        Ok(Header {
            bytes,
            atoms,
            rules,
            literals,
        })
    }
}
