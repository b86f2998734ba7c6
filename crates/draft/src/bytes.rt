// Bytes put into a buffer, and numbers as bytes.
ghost use Rattle.std.specs.Prelude.{◌≡◌, ◌+◌, ◌<◌, ◌≤◌, ◌++◌, length, take, drop};
ghost use Rattle.book.specs.Format.{two};

// Writes a part over the bytes from byte `at` on.
pub(crate) fn put(bytes: &mut [u8], at: usize, part: &[u8])
    requires { at + length part.now ≤ length bytes.old }
    ensures { bytes.new ≡ take at bytes.old ++ (part.now ++ drop (at + length part.now) bytes.old) }
{
    bytes[at..at + part.len()].copy_from_slice(part);
}

// A number as two bytes, low byte first. The cast is proved to lose nothing, so no `try_from` with an error is needed.
pub(crate) fn two_bytes(n: usize) -> [u8; 2]
    requires { n < 65536 }
    ensures { result ≡ two n }
{
    (n as u16).to_le_bytes()
}
