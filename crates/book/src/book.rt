// A book in use: a view of the bytes that it was read from.
// Nobody else makes one, so what its bytes keep is tested once, when they are read.
ghost use Rattle.std.specs.Prelude.{◌≡◌};
ghost use Rattle.book.specs.Program.{rule_count};
ghost use Rattle.book.specs.Layout.{rules_in, decode};
ghost use Rattle.book.specs.Invariant.{Limits, Long, Heads, Places, Claimed, Literals, Ascending};

pub mod iter;
mod reading;
pub mod rules;

#[derive(Clone, Copy)]
pub struct Book<'a> {
    bytes: &'a [u8],
    atoms: usize,
    rules: usize,
    ghost counts: { (atoms ≡ (decode bytes.now).atoms) × (rules ≡ rule_count (decode bytes.now)) × (rules ≡ rules_in bytes.now) },
    ghost limits: { Limits bytes.now },
    ghost long: { Long bytes.now },
    ghost heads: { Heads bytes.now },
    ghost places: { Places bytes.now },
    ghost claimed: { Claimed bytes.now },
    ghost literals: { Literals bytes.now },
    ghost ascending: { Ascending bytes.now },
}
