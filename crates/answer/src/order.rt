// The order of sheets.
ghost use Rattle.std.specs.Prelude.{◌≡◌, ℕ, Decides};
ghost use Rattle.answer.specs.Order.{Smaller, StrictTotal};

use crate::sheet::byte_at;

// Whether the first of two sheets is the smaller: bytes past the end of a sheet count as 0.
// Not the order of slices: there a longer sheet is larger than its beginning, and any two bytes decide.
pub fn smaller(a: &[u8], b: &[u8]) -> bool
    ensures decides { Decides result (Smaller a.now b.now) }
    ensures order { (n : ℕ) → StrictTotal n }
{
    is_smaller(a, b)
}

// Found at the lowest index where they differ.
fn is_smaller(a: &[u8], b: &[u8]) -> bool
    ensures { Decides result (Smaller a.now b.now) }
{
    for (i, &y) in b.iter().enumerate() {
        let x = byte_at(a, i);
        if x != y {
            return is_step(x, y);
        }
    }
    false
}

// Whether the two bytes are 0 and 1.
fn is_step(x: u8, y: u8) -> bool
    ensures { Decides result ((x ≡ 0) × (y ≡ 1)) }
{
    x == 0 && y == 1
}
