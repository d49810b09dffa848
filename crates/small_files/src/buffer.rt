// The 68 bytes of which the answer buffer is the front, before and after a call.
//
// An assignment has the same form, so that it can be compared with what a plan leaves: the values of
// positions 1 to v, and blanks behind them.
use super::values::Values;

// What stands in every byte before a call. It is no value of a plan.
const BLANK: u8 = 238;

#[derive(Clone, Copy, PartialEq, Eq)]
pub struct Buffer(pub [u8; 68]);

impl Buffer {
    // The bytes as they are before a call.
    pub const BLANK: Buffer = Buffer([BLANK; 68]);

    // The first assignment in dictionary order: the smallest starting value for positions 1 to v.
    pub(crate) fn lowest(starts: &[Values]) -> Buffer {
        let mut lowest = Buffer::BLANK;
        for (value, start) in lowest.0.iter_mut().zip(starts) {
            *value = start.above(0).unwrap_or(0);
        }
        lowest
    }

    // The next assignment in dictionary order, as a counter has it: the last position is the fastest.
    pub(crate) fn next(self, starts: &[Values]) -> Option<Buffer> {
        let mut next = self;
        let positions = starts.len().min(next.0.len());
        for (value, start) in next.0[..positions].iter_mut().zip(starts).rev() {
            if let Some(above) = start.above(*value) {
                *value = above;
                return Some(next);
            }
            *value = start.above(0).unwrap_or(0);
        }
        None
    }

    // The value of a position, where there is such a position.
    pub(crate) fn value_of(&self, position: u8) -> Option<u8> {
        let place = usize::from(position).checked_sub(1)?;
        self.0.get(place).copied()
    }

    // Whether there is a position, with its value in a set.
    pub(crate) fn has_inside(&self, position: u8, values: Values) -> bool {
        self.value_of(position)
            .is_some_and(|value| values.has(value))
    }

    // Whether the bytes are an assignment inside the starting sets: a starting value for each of positions 1
    // to v, and blanks behind them.
    pub(crate) fn is_assignment(&self, starts: &[Values]) -> bool {
        let inside = self
            .0
            .iter()
            .zip(starts)
            .all(|(value, start)| start.has(*value));
        inside && self.0.iter().skip(starts.len()).all(|byte| *byte == BLANK)
    }

    // Whether no position has a higher value than in another assignment.
    pub(crate) fn is_nowhere_higher(&self, other: &Buffer) -> bool {
        self.0
            .iter()
            .zip(&other.0)
            .all(|(value, other)| value <= other)
    }
}
