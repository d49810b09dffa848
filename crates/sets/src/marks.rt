// Marks on positions: a set of positions. The contracts cite specs/Promise.antt.
ghost use Rattle.std.specs.Prelude.{◌≡◌, ◌<◌};
ghost use Rattle.sets.specs.Promise.{Marked, Marks as MarksAt};

use std::marker::Model;

// A set of positions. Contracts see it as a mask of 64 bits, a number: its lowest bit stands for position
// 1, which is at index 0.
// Kept: beside `Room`, since one generic type of two widths, for the two operations that both have, would be no
// plainer.
#[derive(Clone, Copy, PartialEq, Eq)]
pub struct Marks {
    mask: u64,
}

impl Model for Marks {
    ghost use Rattle.std.specs.Prelude.{ℕ};

    ghost Value = { ℕ };

    ghost view = { λ marks. marks.mask };

    ghost inverse = { λ mask. record { mask = mask } };
}

// The marks with this mask.
impl From<u64> for Marks {
    ghost from_gives = { λ mask marks. marks ≡ mask };

    fn from(mask: u64) -> Marks {
        Marks { mask }
    }
}

// The mask of marks.
impl From<Marks> for u64 {
    ghost from_gives = { λ marks mask. mask ≡ marks };

    fn from(marks: Marks) -> u64 {
        marks.mask
    }
}

impl Marks {
    // No position is marked.
    pub fn none() -> Marks
        ensures { result ≡ 0 }
    {
        Marks { mask: 0 }
    }

    // Whether the position at an index is marked.
    pub fn has(self, p: usize) -> bool
        requires { p < 64 }
        ensures { Marked self p result }
    {
        let one = 1u64 << p;
        one & self.mask == one
    }

    // The marks, with one on the position at an index.
    pub fn with(self, p: usize) -> Marks
        requires { p < 64 }
        ensures { MarksAt self p result }
    {
        Marks {
            mask: self.mask | 1u64 << p,
        }
    }
}
