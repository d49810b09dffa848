// One call of the planner, and what was seen of it.
ghost use Rattle.std.specs.Prelude.{◌≤◌};

use super::buffer::Buffer;
use super::tally::Tally;
use planner::plan::plan;
use std::fmt;

// What a reply is, in the order of 01's numbers.
#[derive(Clone, Copy, PartialEq, Eq)]
pub enum Verdict {
    Plan,
    NoPlan,
    Undecided,
    // Kept: a number, as the documents have it: the program shares nothing with the planner but the bytes.
    Refused(u32),
}

// A reply's number, as 01 has it. The planner's own names for these numbers are not taken, so that two of them
// that are exchanged show.
impl From<u32> for Verdict {
    fn from(number: u32) -> Verdict {
        match number {
            0 => Verdict::Plan,
            1 => Verdict::NoPlan,
            2 => Verdict::Undecided,
            number => Verdict::Refused(number),
        }
    }
}

impl fmt::Display for Verdict {
    fn fmt<W: fmt::Write>(&self, f: &mut fmt::Formatter<W>) -> fmt::Result {
        match self {
            Verdict::Plan => write!(f, "PLAN"),
            Verdict::NoPlan => write!(f, "NONE"),
            Verdict::Undecided => write!(f, "UNDECIDED"),
            Verdict::Refused(number) => write!(f, "refused, {number}:"),
        }
    }
}

// What a call is given beside the file: how many bytes of the buffer it is lent, and how many splits it may make.
#[derive(Clone, Copy)]
pub struct Given {
    pub length: usize,
    pub allowance: u64,
    ghost in_buffer: { length ≤ 68 },
}

impl Given {
    // The shortest buffer that is long enough, and an allowance.
    pub(crate) fn usual(allowance: u64) -> Given {
        Given {
            length: 64,
            allowance,
        }
    }
}

// A reply, and the bytes after the call.
#[derive(Clone, Copy, PartialEq, Eq)]
pub struct Seen {
    pub verdict: Verdict,
    pub place: usize,
    pub splits: u64,
    pub dead_ends: u64,
    pub rounds: u64,
    pub left: Buffer,
}

impl Seen {
    // A refusal at a place, with nothing counted and nothing written.
    pub(crate) fn refused(number: u32, place: usize) -> Seen {
        Seen {
            verdict: Verdict::Refused(number),
            place,
            splits: 0,
            dead_ends: 0,
            rounds: 0,
            left: Buffer::BLANK,
        }
    }
}

impl Tally {
    // Calls the planner and counts the reply. The program has its replies from nowhere else, so that none is
    // left out.
    pub(crate) fn ask(&mut self, file: &[u8], given: Given) -> Seen {
        let mut left = Buffer::BLANK;
        let reply = plan(file, &mut left.0[..given.length], given.allowance);
        self.count(&reply);
        Seen {
            verdict: Verdict::from(reply.number),
            place: reply.place,
            splits: reply.splits,
            dead_ends: reply.dead_ends,
            rounds: reply.rounds,
            left,
        }
    }
}
