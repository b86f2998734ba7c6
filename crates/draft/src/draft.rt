// A draft keeps the tables of the book that it would be written as, filled from the front.
// Nobody else fills them, so what they hold is at all times a book without a fault.
ghost use Rattle.std.specs.Prelude.{◌≡◌, ◌≤◌};
ghost use Rattle.draft.specs.Filled.{filled};
ghost use Rattle.draft.specs.Form.{form_by, Formed};

use crate::rows::Rows;
use book::limits::{MAX_LITERALS, MAX_RULES};

mod adding;
mod starting;
mod writing;

// The most atoms that the count of one part of a body can tell.
const MAX_PART: usize = u8::MAX as usize;

// A draft: the builder of a program, for a number of atoms and with the rules so far.
// Clauses read its program by `drafted`. With an `impl Model` they would see nothing else, and a call that is declined
// keeps all of the draft.
#[derive(Clone, Copy)]
pub struct Draft {
    atoms: usize,
    contents: Rows<6, MAX_RULES>,
    bodies: Rows<2, MAX_LITERALS>,
    ghost limited: { atoms ≤ 128 },
    ghost formed: { Formed (form_by atoms contents.len bodies.len (filled contents) (filled bodies)) atoms contents.len bodies.len },
}

impl Draft {
    // How many rules it has.
    fn rules(&self) -> usize
        ensures { result ≡ self.now.contents.len }
    {
        self.contents.len()
    }

    // How many literals they have together.
    fn literals(&self) -> usize
        ensures { result ≡ self.now.bodies.len }
    {
        self.bodies.len()
    }
}
