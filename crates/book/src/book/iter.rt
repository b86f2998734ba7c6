// The rules of a book and the atoms of a part of a rule, one after another.
use crate::book::Book;
use crate::book::rules::Rule;

// The rules from one on, in the order of their numbers.
#[derive(Clone, Drop)]
pub struct Rules<'a> {
    pub(crate) book: Book<'a>,
    pub(crate) next: usize,
}

// The atoms of a part, two bytes each.
#[derive(Clone, Drop)]
pub struct Atoms<'a> {
    part: &'a [u8],
}

impl<'a> Iterator for Rules<'a> {
    ghost use Rattle.book.specs.Handing.{HandsOut, rules_left};

    type Item = Rule<'a>;

    ghost next_gives = { HandsOut };

    ghost remaining = { rules_left };

    fn next(&mut self) -> Option<Rule<'a>> {
        let rule = self.book.rule(self.next).ok()?;
        self.next += 1;
        Some(rule)
    }
}

impl<'a> Atoms<'a> {
    ghost use Rattle.std.specs.Prelude.{◌≡◌};
    ghost use Rattle.book.specs.Layout.{words};
    ghost use Rattle.book.specs.Handing.{atoms_left};

    // All atoms of a part.
    pub fn of(part: &'a [u8]) -> Atoms<'a>
        ensures { atoms_left result ≡ words part.now }
    {
        Atoms { part }
    }
}

impl Iterator for Atoms<'_> {
    ghost use Rattle.std.specs.Iterator.{YieldsFirst, item_count};
    ghost use Rattle.book.specs.Handing.{atoms_left};

    type Item = usize;

    ghost next_gives = { YieldsFirst atoms_left };

    ghost remaining = { item_count atoms_left };

    fn next(&mut self) -> Option<usize> {
        let [low, high, rest @ ..] = self.part else {
            return None;
        };
        self.part = rest;
        Some(usize::from(u16::from_le_bytes([*low, *high])))
    }
}
