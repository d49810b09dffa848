// A reply as 01 and 02 have it: its number, its place, its splits and its dead ends, and the rounds of
// the first box. The contracts cite specs/Promise.antt.
ghost use Rattle.searching.specs.Promise.{Ends, NoneAt, Refuses, HasRounds};

// A reply. The values of a plan are in the caller's buffer.
#[derive(Clone, Copy, PartialEq, Eq, Debug)]
pub struct Reply {
    // Kept: 01's number of the reply. `oarloom_plan` of `linked` hands it to a program in C, the promise `Planned` of
    // `planner` and its theorems speak of it, and what takes a reply takes every number.
    pub number: u32,
    // Kept: 0 where there is none: `Planned` and its theorems speak of the place as a number.
    pub place: usize,
    pub splits: u64,
    pub dead_ends: u64,
    pub rounds: u64,
}

impl Reply {
    // 01's numbers of the replies that are no refusals.
    pub const PLAN: u32 = 0;

    pub const NONE: u32 = 1;

    pub const UNDECIDED: u32 = 2;

    // PLAN or UNDECIDED at the end of a search: its place is 0, and it has no rounds yet.
    pub fn ended(number: u32, splits: u64, dead_ends: u64) -> Reply
        ensures { Ends number splits dead_ends result }
    {
        Reply {
            number,
            place: 0,
            splits,
            dead_ends,
            rounds: 0,
        }
    }

    // NONE at the end of a search, where the field at this place was found dead last: with no split it
    // carries the place, and with a split place 0. It has no rounds yet.
    pub fn none(place: usize, splits: u64, dead_ends: u64) -> Reply
        ensures { NoneAt place splits dead_ends result }
    {
        Reply {
            number: Reply::NONE,
            place: if splits == 0 { place } else { 0 },
            splits,
            dead_ends,
            rounds: 0,
        }
    }

    // A refusal: zero splits, dead ends and rounds.
    pub fn refused(number: u32, place: usize) -> Reply
        ensures { Refuses number place result }
    {
        Reply {
            number,
            place,
            splits: 0,
            dead_ends: 0,
            rounds: 0,
        }
    }

    // The same reply with so many rounds.
    pub fn with_rounds(self, rounds: u64) -> Reply
        ensures { HasRounds self rounds result }
    {
        Reply { rounds, ..self }
    }
}
