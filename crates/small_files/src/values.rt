// Sets of values from 1 to 32.

// A set of values. The lowest bit stands for value 1.
#[derive(Clone, Copy, Default, PartialEq, Eq)]
pub struct Values(pub u32);

impl Values {
    pub const EMPTY: Values = Values(0);

    // {1..n}, and {1..32} where n is above 32.
    pub(crate) fn up_to(n: u8) -> Values {
        let missing = 32u32.saturating_sub(u32::from(n));
        Values(u32::MAX.checked_shr(missing).unwrap_or(0))
    }

    // The set of one value, and the empty set where that is 0 or above 32.
    pub(crate) fn of(value: u8) -> Values {
        let bit = u32::from(value).checked_sub(1);
        Values(bit.and_then(|bit| 1u32.checked_shl(bit)).unwrap_or(0))
    }

    // Whether a value is in the set. No value above 32 is.
    pub(crate) fn has(self, value: u8) -> bool {
        let one = Values::of(value);
        self.0 & one.0 != 0
    }

    // The values of both sets.
    pub(crate) fn union(self, other: Values) -> Values {
        Values(self.0 | other.0)
    }

    // The set with one value more.
    pub(crate) fn with(self, value: u8) -> Values {
        self.union(Values::of(value))
    }

    // Whether every value is in another set.
    pub(crate) fn is_within(self, other: Values) -> bool {
        self.union(other) == other
    }

    // How many values there are.
    pub(crate) fn size(self) -> u32 {
        self.0.count_ones()
    }

    // The smallest value above another.
    pub(crate) fn above(self, value: u8) -> Option<u8> {
        (value.saturating_add(1)..=32).find(|next| self.has(*next))
    }

    // Whether the set counts as {1..b} where these are the starting values: none of them that is in it stands
    // above one that is not.
    pub(crate) fn is_ladder(self, start: Values) -> bool {
        let mut behind_first = (1..=32)
            .filter(|value| start.has(*value))
            .skip_while(|value| self.has(*value));
        !behind_first.any(|value| self.has(value))
    }
}

// A set as it stands in a file: four bytes, high byte first.
impl From<[u8; 4]> for Values {
    fn from(bytes: [u8; 4]) -> Values {
        Values(u32::from_be_bytes(bytes))
    }
}
