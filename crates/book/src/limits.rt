// The limits of a book: how many atoms, rules and body literals it may have.
pub const MAX_ATOMS: usize = 128;

pub const MAX_RULES: usize = 256;

pub const MAX_LITERALS: usize = 2048;
