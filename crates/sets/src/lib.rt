// Set arithmetic of the bench's front panel: sets of the values 1 to 32, each a `Room`.
// The contracts cite specs/Sets.antt (what each result is) and specs/Promise.antt (what it means).
#![tactic(auto)]

ghost use Rattle.std.specs.Prelude.{◌≡◌};
ghost use Rattle.sets.specs.Promise.{Full, Single, Union, Common, Inside, Complement, Count, Smallest, Others, Empty, Meets};

pub mod marks;

use std::marker::Model;

// A set of values. Contracts see it as its mask, a number: the lowest bit stands for value 1, the highest
// for value 32.
#[derive(Clone, Copy, PartialEq, Eq)]
pub struct Room {
    pub mask: u32,
}

impl Model for Room {
    ghost use Rattle.std.specs.Prelude.{ℕ};

    ghost Value = { ℕ };

    ghost view = { λ room. room.mask };

    ghost inverse = { λ mask. record { mask = mask } };
}

// The set with this mask.
impl From<u32> for Room {
    ghost from_gives = { λ mask room. room ≡ mask };

    fn from(mask: u32) -> Room {
        Room { mask }
    }
}

// The mask of a set.
impl From<Room> for u32 {
    ghost from_gives = { λ room mask. mask ≡ room };

    fn from(room: Room) -> u32 {
        room.mask
    }
}

impl Room {
    // The largest number of positions that a file of rules may name.
    pub const POSITIONS: usize = 64;
    // The largest value that a set can hold.
    pub const VALUES: u32 = 32;
    // The set without a value.
    pub const EMPTY: Room = Room { mask: 0 };

    // The set {1..n}; the empty set where n is not 1 to 32.
    pub fn full(n: u32) -> Room
        ensures { Full n result }
    {
        if n < 1 || Room::VALUES < n {
            return Room::EMPTY;
        }
        Room {
            mask: 0xffff_ffff >> (Room::VALUES - n),
        }
    }

    // The set {x}; the empty set where x is not 1 to 32.
    // Kept: beside `full`, no plainer as one: the two share a test, and each has a formula of its own.
    pub fn single(x: u32) -> Room
        ensures { Single x result }
    {
        if x < 1 || Room::VALUES < x {
            return Room::EMPTY;
        }
        Room { mask: 1 << (x - 1) }
    }

    // The values that are in either set.
    pub fn union(self, other: Room) -> Room
        ensures { Union self other result }
    {
        Room {
            mask: self.mask | other.mask,
        }
    }

    // The values that are in both sets.
    pub fn common(self, other: Room) -> Room
        ensures { Common self other result }
    {
        Room {
            mask: self.mask & other.mask,
        }
    }

    // Whether every value of this set is in the other.
    pub fn inside(self, other: Room) -> bool
        ensures { Inside self other result }
    {
        self.mask & other.mask == self.mask
    }

    // Whether the set has no value.
    pub fn is_empty(self) -> bool
        ensures { Empty self result }
    {
        self.mask == 0
    }

    // Whether the two sets have a value in common.
    pub fn meets(self, other: Room) -> bool
        ensures { Meets self other result }
    {
        self.mask & other.mask != 0
    }

    // The values of {1..n} that are not in this set; the empty set where n is not 1 to 32. Values of
    // this set above n play no part.
    pub fn complement(self, n: u32) -> Room
        ensures { Complement n self result }
    {
        let whole = Room::full(n);
        Room {
            mask: whole.mask ^ (whole.mask & self.mask),
        }
    }

    // The number of values in this set.
    pub fn count(self) -> u32
        ensures { Count self result }
    {
        u32::count_ones(self.mask)
    }

    // The smallest value in this set; 0 where the set is empty.
    // Kept: 0 in place of an `Option`: `Smallest` and `smallest_unique` say 0, as 01 does.
    pub fn smallest(self) -> u32
        ensures { Smallest self result }
    {
        if self.is_empty() {
            return 0;
        }
        u32::trailing_zeros(self.mask) + 1
    }

    // The values of this set but the smallest; the empty set where it is empty.
    pub fn others(self) -> Room
        ensures { Others self result }
    {
        let one = Room::single(self.smallest());
        self.common(one.complement(Room::VALUES))
    }
}
