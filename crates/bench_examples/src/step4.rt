// Files that tell readings of step 4 apart (02, R-2): the position that is split is the lowest-numbered
// one with two or more values that is live in some clause not yet settled, on the rooms after
// shrinking, with sets on one position united, and an equality's clauses each on its own.
//
// In each file but the first and the last, position 1 has two values or more and is not split, and the
// reply is a plan with 1 split and no dead end. A planner that splits position 1 needs 2 splits. A
// position that is not split keeps its room, and the plan has its smallest value. In a file of several
// fields each stands on a line.
use super::line::{Example, USUAL};

// All of them, in this order.
pub(crate) const EXAMPLES: [Example; 7] = [
    // Case l with allowance 0. None of the four clauses on positions 2 and 3 is settled, and none has
    // fewer than two live positions. So a split is needed, of position 2, and none is allowed: UNDECIDED,
    // 0 and 0.
    Example {
        name: "l-allowance-0",
        file: b"\x01\0\x02\x03\x02\
          \x02\0\x0a\x02\0\0\0\x01\x03\0\0\0\x01\
          \x02\0\x0a\x02\0\0\0\x01\x03\0\0\0\x02\
          \x02\0\x0a\x02\0\0\0\x02\x03\0\0\0\x01\
          \x02\0\x0a\x02\0\0\0\x02\x03\0\0\0\x02",
        allowance: 0,
        positions: Some(3),
        ..USUAL
    },
    // In this file and the next position 1 is live in the first clause, which its own room settles.
    //
    // v 3, n 2: [p1{1,2}], [p2{1} p3{1}]. Nothing is cut. Room 1 lies inside {1,2}; the second clause
    // is not settled, and 2 and 3 are live in it. With 2 alone at 1 that clause is settled too:
    // PLAN 1 1 1. By the reading "a rule names it", or "live in some clause", 1 is split first.
    Example {
        name: "own-set",
        file: b"\x01\0\x02\x03\x02\
          \x02\0\x05\x01\0\0\0\x03\
          \x02\0\x0a\x02\0\0\0\x01\x03\0\0\0\x01",
        positions: Some(3),
        ..USUAL
    },
    // v 3, n 2: [p1{1} p1{2} p2{1}], [p2{2} p3{1}]. Nothing is cut. The union of position 1's sets is
    // {1,2}, and its room lies inside; in the second clause 2 and 3 are live. With 2 alone at 1 only
    // 3 is live there and is cut to {1}: PLAN 1 1 1. Atom by atom no room lies inside a set, the first
    // clause counts as not settled, and 1 is split first.
    Example {
        name: "own-sets-united",
        file: b"\x01\0\x02\x03\x02\
          \x02\0\x0f\x01\0\0\0\x01\x01\0\0\0\x02\x02\0\0\0\x01\
          \x02\0\x0a\x02\0\0\0\x02\x03\0\0\0\x01",
        positions: Some(3),
        ..USUAL
    },
    // v 3, n 3: [p2{1,2}], [p1{1} p2{1,2}], [p2{1} p3{1}]. The first clause cuts room 2 to {1,2}, and
    // nothing more is cut. Position 1 is live in the second clause, which room 2 settles; in the third 2 and
    // 3 are live. With 2 alone at 1 all are settled: PLAN 1 1 1. By the reading "live in some clause", and
    // on the rooms before shrinking, where {1,2,3} does not lie inside {1,2}, 1 is split first.
    Example {
        name: "settled-by-another",
        file: b"\x01\0\x02\x03\x03\
          \x02\0\x05\x02\0\0\0\x03\
          \x02\0\x0a\x01\0\0\0\x01\x02\0\0\0\x03\
          \x02\0\x0a\x02\0\0\0\x01\x03\0\0\0\x01",
        positions: Some(3),
        ..USUAL
    },
    // v 3, n 3: [p1{2,3}], [p1{1} p2{1} p3{1}]. The first clause cuts room 1 to {2,3}. The second is not
    // settled, and position 1 is not live in it: its room and {1} have no value in common. Of 2 and 3,
    // which are live, 2 is split, and alone at 1 it settles the clause: PLAN 2 1 1. By the reading "named
    // in some clause not yet settled" 1 is split first.
    Example {
        name: "named-and-not-live",
        file: b"\x01\0\x02\x03\x03\
          \x02\0\x05\x01\0\0\0\x06\
          \x02\0\x0f\x01\0\0\0\x01\x02\0\0\0\x01\x03\0\0\0\x01",
        positions: Some(3),
        ..USUAL
    },
    // v 5, n 3: [p1{1,2}], [p2{1}], [p3{2}], and {1,2,3} equals the values of positions 1 to 5. The clauses
    // cut rooms 1, 2 and 3 to {1,2}, {1} and {2}. Of the equality's clauses "one of them is in {1}" is
    // settled by 2 and "in {2}" by 3; "in {3}" is not settled, and 4 and 5 are live in it. Position 1 is
    // live in the two that are settled, and not in the third. So 4 is split, and with 4 alone at 1 only 5
    // is left for 3 and is cut to {3}: PLAN 1 1 2 1 3. Where the equality is taken as a whole it is not
    // settled and has 1 live in it, and 1 is split first.
    Example {
        name: "values-settled",
        file: b"\x01\0\x02\x05\x03\
          \x02\0\x05\x01\0\0\0\x03\
          \x02\0\x05\x02\0\0\0\x01\
          \x02\0\x05\x03\0\0\0\x02\
          \x03\0\x09\0\0\0\x07\x01\x02\x03\x04\x05",
        positions: Some(5),
        ..USUAL
    },
    // v 3, n 2: [p2{1} p3{1}], [p1{2} p2{2}]. Nothing is cut, and neither clause is settled. Of the positions
    // that are live in one or the other 1 is the lowest. With 1 alone at 1 only 2 is live in the second
    // clause and is cut to {2}; then only 3 is live in the first and is cut to {1}: PLAN 1 2 1, with 1 split
    // and no dead end. Where only the first clause not yet settled is looked at, 2 is split, and the plan
    // is 2 1 1, which is not the first.
    Example {
        name: "later-clause",
        file: b"\x01\0\x02\x03\x02\
          \x02\0\x0a\x02\0\0\0\x01\x03\0\0\0\x01\
          \x02\0\x0a\x01\0\0\0\x02\x02\0\0\0\x02",
        positions: Some(3),
        ..USUAL
    },
];
