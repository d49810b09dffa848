// What the replies to one file are compared with.
use super::asking::{Given, Seen, Verdict};
use super::buffer::Buffer;
use super::meaning::MANY;
use super::rule_file::RuleFile;
use super::tally::Tally;
use planner::rounds::rounds_most;

// The largest allowance that is not refused.
pub const MOST: u64 = 1_000_000;

// The allowance for a file with more assignments than are gone through.
pub const FEW: u64 = 30;

impl Seen {
    // Whether the reply is the plan of an assignment, with no more dead ends than splits.
    fn is_plan(&self, assignment: Buffer) -> bool {
        let plan = Seen {
            verdict: Verdict::Plan,
            place: 0,
            left: assignment,
            ..*self
        };
        *self == plan && self.dead_ends <= self.splits
    }

    // Whether a NONE to a file has its place: with no split that of a clause, an equality or an at-most rule,
    // and else 0 (02, R-3; a starting set is never dead, R-6). Which field it is, is in the checksum.
    fn has_place(&self, file: &RuleFile<'_>) -> bool {
        if self.splits == 0 {
            file.is_rule(self.place)
        } else {
            self.place == 0
        }
    }

    // Whether the reply to a file is NONE, with nothing written, and with one dead end more than splits: a
    // split makes two boxes of one, and at the end all boxes are dead.
    fn is_none(&self, file: &RuleFile<'_>) -> bool {
        let none = Seen {
            verdict: Verdict::NoPlan,
            left: Buffer::BLANK,
            ..*self
        };
        *self == none && self.has_place(file) && self.dead_ends.checked_sub(1) == Some(self.splits)
    }

    // Whether the reply is UNDECIDED, with all of the allowance used and nothing written.
    pub(crate) fn is_undecided(&self, allowance: u64) -> bool {
        let undecided = Seen {
            verdict: Verdict::Undecided,
            place: 0,
            splits: allowance,
            left: Buffer::BLANK,
            ..*self
        };
        *self == undecided && self.dead_ends <= allowance
    }

    // Whether the reply is a refusal of a file, 13 to 20, 26 and 27 of starting sets or 36 of at-most rules,
    // with a place in a file of a length and with nothing counted and nothing written.
    fn is_fault(&self, length: usize) -> bool {
        match self.verdict {
            Verdict::Refused(number @ (13..=20 | 26 | 27 | 36)) => {
                *self == Seen::refused(number, self.place) && self.place <= length
            }
            _ => false,
        }
    }

    // Whether the reply to a sound file has rounds: one at least, and no more than the most, which are told
    // before the search. How many they are is in the checksum.
    fn has_rounds(&self, file: &RuleFile<'_>) -> bool {
        let most = file.most_rounds();
        (1..=most).contains(&self.rounds) && rounds_most(file.bytes) == most
    }

    // Whether the reply to a file is what the enumeration finds.
    fn is_found(&self, file: &RuleFile<'_>) -> bool {
        match file.first_plan() {
            Some(assignment) => self.is_plan(assignment),
            None => self.is_none(file),
        }
    }

    // Whether the reply is a plan that meets all rules, NONE, or UNDECIDED with all of the few splits
    // used.
    fn is_possible(&self, file: &RuleFile<'_>) -> bool {
        let meets = self.left.is_assignment(&file.starts) && file.is_met(&self.left);
        self.is_none(file) || self.is_undecided(FEW) || (self.is_plan(self.left) && meets)
    }
}

// Compares the reply to a file that is not sound: a refusal. The most rounds of such a file are 0.
fn unsound(tally: &mut Tally, file: &[u8]) -> Seen {
    let seen = tally.ask(file, Given::usual(MOST));
    let right = seen.is_fault(file.len()) && rounds_most(file) == 0;
    tally.expect(right, "not refused:", file);
    seen
}

// Compares the reply to a sound file with what the enumeration finds. There are never as many splits
// as assignments.
fn enumerated(tally: &mut Tally, file: &RuleFile<'_>) -> Seen {
    let seen = tally.ask(file.bytes, Given::usual(MOST));
    let right = seen.is_found(file) && seen.splits < file.assignments() && seen.has_rounds(file);
    tally.expect(right, "not as enumerated:", file.bytes);
    seen
}

// Compares the reply to a sound file with too many assignments: a plan has to meet all rules.
fn too_many(tally: &mut Tally, file: &RuleFile<'_>) -> Seen {
    let seen = tally.ask(file.bytes, Given::usual(FEW));
    let right = seen.is_possible(file) && seen.has_rounds(file);
    tally.expect(right, "not met:", file.bytes);
    seen
}

// Compares the reply to a sound file, and one of the special kind with what demand 3 claims of it.
fn judge_sound(tally: &mut Tally, file: &RuleFile<'_>) -> Seen {
    let seen = if file.assignments() <= MANY as u64 {
        enumerated(tally, file)
    } else {
        too_many(tally, file)
    };
    if file.is_special() {
        tally.special.add(1);
        let right = file.is_claimed(&seen);
        tally.expect(right, "not as claimed of the special kind:", file.bytes);
    }
    seen
}

// Compares the reply to any bytes, sound or not, and answers it.
pub(crate) fn judge(tally: &mut Tally, bytes: &[u8]) -> Seen {
    judge_read(tally, bytes, &RuleFile::read(bytes))
}

// Compares the reply to bytes that were read, and answers it.
pub(crate) fn judge_read(tally: &mut Tally, bytes: &[u8], read: &Option<RuleFile<'_>>) -> Seen {
    match read {
        Some(file) => judge_sound(tally, file),
        None => unsound(tally, bytes),
    }
}
