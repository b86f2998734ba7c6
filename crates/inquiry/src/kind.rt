// The kinds of a reply of next.
ghost use Rattle.std.specs.Prelude.{◌≡◌};
ghost use Rattle.inquiry.specs.Kinds.{kind_number};

// A sheet, that there is none left, or that the allowance is used.
#[derive(Clone, Copy, PartialEq, Eq, Debug)]
pub enum Kind {
    Sheet = 1,
    NoneLeft = 2,
    Paused = 3,
}

impl Kind {
    // 1, 2 or 3. `as` wants the type itself, so no generic function serves all enums with numbers.
    pub fn number(self) -> u8
        ensures { result ≡ kind_number self }
    {
        self as u8
    }
}

// What a call of next found, and the steps that it made.
#[derive(Clone, Copy, PartialEq, Eq, Debug)]
pub struct Reply {
    pub kind: Kind,
    pub steps: u32,
}
