// The walk of an inquiry, in the field a search: its page, and the choices that led there.
ghost use Rattle.std.specs.Prelude.{◌≡◌, ℕ, ◌<◌, ◌≤◌};
ghost use Rattle.inquiry.specs.View.{level_at, walk_at_start};
ghost use Rattle.inquiry.specs.Turns.{LatestOut, Retreats, Chooses};

use book::limits::MAX_ATOMS;
use operator::page::{IN, MAX_MARKS, OUT};

// The side of an atom that is being tried.
#[derive(Clone, Copy, PartialEq, Eq)]
pub enum Side {
    Out,
    In,
}

// The atom chosen, the side being tried and the page before the choice. In the field a level is a decision level.
#[derive(Clone, Copy)]
pub struct Level {
    pub atom: usize,
    pub side: Side,
    pub page: [u8; MAX_MARKS],
}

// Of the levels the first `depth` are in use, the latest last; there is no depth once the walk has ended.
// A table of level records of which one is changed in place is the form that is asked for here. A vector of fixed room
// would know its length, but not that the walk has ended: that would be a flag beside it.
#[derive(Drop)]
pub struct Walk {
    pub page: [u8; MAX_MARKS],
    pub levels: [Level; MAX_ATOMS],
    pub depth: Option<usize>,
}

// The latest level whose out side is tried.
fn latest_out(levels: &[Level]) -> Option<usize>
    ensures { LatestOut levels.now result }
{
    levels.iter().rposition(|level| level.side == Side::Out)
}

impl Walk {
    // Nothing is marked or chosen.
    pub(crate) fn start() -> Walk
        ensures { result ≡ walk_at_start }
    {
        let level = Level {
            atom: 0,
            side: Side::Out,
            page: [0; MAX_MARKS],
        };
        Walk {
            page: [0; MAX_MARKS],
            levels: [level; MAX_ATOMS],
            depth: Some(0),
        }
    }

    // Adds a level to the first `depth`, with its atom marked out. The loop over the steps has taken the depth out of
    // its Option already, so it is handed on, here and to `retreat`, and not unwrapped again.
    pub(crate) fn choose(&mut self, depth: usize, atom: usize)
        requires room { depth < 128 }
        requires atom { atom < 384 }
        ensures { Chooses self.old depth atom self.new }
    {
        self.levels[depth] = Level {
            atom,
            side: Side::Out,
            page: self.page,
        };
        self.depth = Some(depth + 1);
        self.page[atom] = OUT;
    }

    // Of the first `depth` levels, removes every latest one whose in side is tried; the level then latest gets its
    // page back with its atom in.
    pub(crate) fn retreat(&mut self, depth: usize)
        requires deep { depth ≤ 128 }
        requires atoms { (d : ℕ) → d < depth → (level_at self.old.levels d).atom < 384 }
        ensures { Retreats self.old depth self.new }
    {
        match latest_out(&self.levels[..depth]) {
            Some(latest) => {
                let level = &mut self.levels[latest];
                level.side = Side::In;
                self.page = level.page;
                self.page[level.atom] = IN;
                self.depth = Some(latest + 1);
            }
            None => self.depth = None,
        }
    }
}
