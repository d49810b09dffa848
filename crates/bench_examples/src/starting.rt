// Files that tell readings of the starting sets apart (02, R-6): a tag 4 field gives a position and its
// starting set, wherever it stands in the file. The rooms lie inside these sets from the start. So such a
// field changes nothing in a round and is never dead, but it has its place among the fields. In a file of
// several fields each stands on a line.
use super::line::{Example, USUAL, show_all, show_most};

// All of them, in this order.
pub(crate) fn all(rt: &impl Print) {
    show_all(rt, &BEHIND_AND_IN_FRONT);
    show_all(rt, &NO_OTHER_RULES);
    show_all(rt, &FROM_THE_START);
    show_all(rt, &EQUALITIES);
    show_all(rt, &SPLITS);
    one_value_each(rt);
    at_the_bound(rt);
    show_all(rt, &WITH_GAPS);
    most_rounds(rt);
    show_all(rt, &REFUSALS);
    show_all(rt, &REFUSALS_OF_THE_SECOND);
}

// v 2, n 3: [p1{1}], and {2,3} as the starting set of position 1. The clause has no live position from the
// start: NONE at its own place, 5 where the starting set stands behind it and 13 where that stands in front,
// in 1 round. Where the starting set is gone through as a clause in its turn, the place is 13 both times.
const BEHIND_AND_IN_FRONT: [Example; 2] = [
    Example {
        name: "start-behind",
        file: b"\x01\0\x02\x02\x03\
          \x02\0\x05\x01\0\0\0\x01\
          \x04\0\x05\x01\0\0\0\x06",
        positions: Some(2),
        ..USUAL
    },
    Example {
        name: "start-in-front",
        file: b"\x01\0\x02\x02\x03\
          \x04\0\x05\x01\0\0\0\x06\
          \x02\0\x05\x01\0\0\0\x01",
        positions: Some(2),
        ..USUAL
    },
];

// Starting sets and no other fields: the plan has the smallest starting values, and no split is needed.
const NO_OTHER_RULES: [Example; 2] = [
    // v 2, n 3: {3} for position 2 and {2,3} for position 1, with allowance 0: PLAN 2 3, and 1 round. Where
    // the fields cut the rooms it is 2 rounds.
    Example {
        name: "start-alone",
        file: b"\x01\0\x02\x02\x03\
          \x04\0\x05\x02\0\0\0\x04\
          \x04\0\x05\x01\0\0\0\x06",
        allowance: 0,
        positions: Some(2),
        ..USUAL
    },
    // v 64, n 32: {32} for position 64. PLAN 1 for the others, and 32.
    Example {
        name: "start-64-32",
        file: b"\x01\0\x02\x40\x20\
          \x04\0\x05\x40\x80\0\0\0",
        allowance: 0,
        positions: Some(64),
        ..USUAL
    },
];

// Rooms that a starting set makes smaller before the first round.
const FROM_THE_START: [Example; 2] = [
    // v 2, n 3: [p1{1} p2{1}], and {2,3} for position 1. Only position 2 is live in the clause, and its room is
    // cut to {1}: PLAN 2 1, with no split and 2 rounds. From full rooms a split is needed.
    Example {
        name: "start-not-live",
        file: b"\x01\0\x02\x02\x03\
          \x02\0\x0a\x01\0\0\0\x01\x02\0\0\0\x01\
          \x04\0\x05\x01\0\0\0\x06",
        allowance: 0,
        positions: Some(2),
        ..USUAL
    },
    // v 3, n 3: [p1{2,3}], [p1{2,3} p2{1}], and {2,3} for position 1. Its room lies inside {2,3}, so both clauses
    // are settled and nothing is cut: PLAN 2 1 1, in 1 round.
    Example {
        name: "start-inside",
        file: b"\x01\0\x02\x03\x03\
          \x02\0\x05\x01\0\0\0\x06\
          \x02\0\x0a\x01\0\0\0\x06\x02\0\0\0\x01\
          \x04\0\x05\x01\0\0\0\x06",
        allowance: 0,
        positions: Some(3),
        ..USUAL
    },
];

// Equalities that are dead because of starting sets.
const EQUALITIES: [Example; 2] = [
    // v 2, n 3: [p2{1,2}], {1,2} equals the values of 1 and 2, and {3} for position 1, which is not in {1,2}:
    // the equality, at 13, is dead in the first round.
    Example {
        name: "start-outside-the-equality",
        file: b"\x01\0\x02\x02\x03\
          \x02\0\x05\x02\0\0\0\x03\
          \x03\0\x06\0\0\0\x03\x01\x02\
          \x04\0\x05\x01\0\0\0\x04",
        positions: Some(2),
        ..USUAL
    },
    // v 3, n 3: {1,2,3} equals the values of 1, 2 and 3, and {1,2} for each of them. None can take 3: the
    // equality, at 5, is dead in the first round. From full rooms it is case h, a plan.
    Example {
        name: "start-without-a-value",
        file: b"\x01\0\x02\x03\x03\
          \x03\0\x07\0\0\0\x07\x01\x02\x03\
          \x04\0\x05\x01\0\0\0\x03\
          \x04\0\x05\x02\0\0\0\x03\
          \x04\0\x05\x03\0\0\0\x03",
        positions: Some(3),
        ..USUAL
    },
];

// The file of `start-split`, which is shown with allowance 0 too.
const TWO: &[u8] = b"\x01\0\x02\x02\x04\
  \x04\0\x05\x01\0\0\0\x0a\
  \x04\0\x05\x02\0\0\0\x0a\
  \x03\0\x06\0\0\0\x0a\x01\x02";

// Splits inside the starting sets.
const SPLITS: [Example; 3] = [
    // v 2, n 4: {2,4} for both positions, and {2,4} equals their values. Position 1 is split at 2, its
    // smallest starting value: PLAN 2 4, 1 and 0; with allowance 0 UNDECIDED.
    Example {
        name: "start-split",
        file: TWO,
        positions: Some(2),
        ..USUAL
    },
    Example {
        name: "start-split-allowance-0",
        file: TWO,
        allowance: 0,
        positions: Some(2),
        ..USUAL
    },
    // v 3, n 4: the four clauses on positions 2 and 3 with {2} or {4} each, and {2,4} for both. Each of
    // the two values of position 2 leaves nothing for 3: NONE, 1 and 2. From full rooms, with 1 and 3 open
    // too, it is 2 and 3.
    Example {
        name: "start-l",
        file: b"\x01\0\x02\x03\x04\
          \x02\0\x0a\x02\0\0\0\x02\x03\0\0\0\x02\
          \x02\0\x0a\x02\0\0\0\x02\x03\0\0\0\x08\
          \x02\0\x0a\x02\0\0\0\x08\x03\0\0\0\x02\
          \x02\0\x0a\x02\0\0\0\x08\x03\0\0\0\x08\
          \x04\0\x05\x02\0\0\0\x0a\
          \x04\0\x05\x03\0\0\0\x0a",
        positions: Some(3),
        ..USUAL
    },
];

// v 2, n 2: {1,2} equals the values of 1 and 2, {1} for position 1 and {2} for position 2. The product of the
// starting sizes is 1, so that there is never a split: PLAN 1 2, 0 and 0, where case e has 1 and 0. The most
// rounds are 1 too.
fn one_value_each(rt: &impl Print) {
    let file = b"\x01\0\x02\x02\x02\
      \x03\0\x06\0\0\0\x03\x01\x02\
      \x04\0\x05\x01\0\0\0\x01\
      \x04\0\x05\x02\0\0\0\x02";
    let example = Example {
        name: "start-one-value-each",
        file,
        allowance: 0,
        positions: Some(2),
        ..USUAL
    };
    example.show(rt);
    show_most(rt, "start-most-one-value-each", file);
}

// v 3, n 4: [p2{2} p3{4}], [p1{1} p2{4}], [p1{3}], and {1,3}, {2,4} and {1,4} for positions 1, 2 and 3. As in
// `rounds-at-the-bound` each of the first three rounds cuts one room, from the last clause to the first, and
// the fourth changes nothing: PLAN 3 4 4, and 4 rounds, the most that there may be for three sets of
// two values. By n the most would be 10.
fn at_the_bound(rt: &impl Print) {
    let file = b"\x01\0\x02\x03\x04\
      \x02\0\x0a\x02\0\0\0\x02\x03\0\0\0\x08\
      \x02\0\x0a\x01\0\0\0\x01\x02\0\0\0\x08\
      \x02\0\x05\x01\0\0\0\x04\
      \x04\0\x05\x01\0\0\0\x05\
      \x04\0\x05\x02\0\0\0\x0a\
      \x04\0\x05\x03\0\0\0\x09";
    let example = Example {
        name: "start-rounds-at-the-bound",
        file,
        allowance: 0,
        positions: Some(3),
        ..USUAL
    };
    example.show(rt);
    show_most(rt, "start-most-at-the-bound", file);
}

// Files of the special kind, by their starting sets: v 2, n 5, {1,3,5} for position 1 and {2,4} for position
// 2, with allowance v. {1,3} counts as {1..b}, since 2 is no starting value of 1, and so does {2} at 2.
const WITH_GAPS: [Example; 2] = [
    // [p1{1,3} p2{4}], [p1{3,5} p2{2}]. Position 1 is split, and alone at 1 it leaves 2 for position 2:
    // PLAN 1 2, with no dead end.
    Example {
        name: "start-gaps-plan",
        file: b"\x01\0\x02\x02\x05\
          \x02\0\x0a\x01\0\0\0\x05\x02\0\0\0\x08\
          \x02\0\x0a\x01\0\0\0\x14\x02\0\0\0\x02\
          \x04\0\x05\x01\0\0\0\x15\
          \x04\0\x05\x02\0\0\0\x0a",
        allowance: 2,
        positions: Some(2),
        ..USUAL
    },
    // [p1{1} p2{2}], [p1{1,3} p2{4}], [p1{5}], at 5, 18 and 31. The first round cuts room 1 to {5}; in the
    // second the first clause cuts room 2 to {2}, and the next is dead: NONE at 18, with no split.
    Example {
        name: "start-gaps-none",
        file: b"\x01\0\x02\x02\x05\
          \x02\0\x0a\x01\0\0\0\x01\x02\0\0\0\x02\
          \x02\0\x0a\x01\0\0\0\x05\x02\0\0\0\x08\
          \x02\0\x05\x01\0\0\0\x10\
          \x04\0\x05\x01\0\0\0\x15\
          \x04\0\x05\x02\0\0\0\x0a",
        allowance: 2,
        positions: Some(2),
        ..USUAL
    },
];

// The most rounds: 63 * 31 + 0 + 1, which is 1954, where v is 64, n is 32 and one position has one starting
// value; 1 * 2 + 1 + 1, which is 4, where v is 2, n is 3 and position 1 has two, the rule in front aside; and 0
// where a starting set is empty, or the second of its position.
fn most_rounds(rt: &impl Print) {
    show_most(
        rt,
        "start-most-64-32",
        b"\x01\0\x02\x40\x20\x04\0\x05\x40\x80\0\0\0",
    );
    show_most(
        rt,
        "start-most-behind",
        b"\x01\0\x02\x02\x03\x02\0\x05\x01\0\0\0\x01\x04\0\x05\x01\0\0\0\x06",
    );
    show_most(
        rt,
        "start-most-26",
        b"\x01\0\x02\x02\x02\x04\0\x05\x01\0\0\0\0",
    );
    show_most(
        rt,
        "start-most-27",
        b"\x01\0\x02\x02\x02\x04\0\x05\x01\0\0\0\x01\x04\0\x05\x01\0\0\0\x01",
    );
}

// Faults of a starting set at place 5, where v is 2 and n is 2.
const REFUSALS: [Example; 3] = [
    // Position 3 and the value 3: 19 comes before 20.
    Example {
        name: "start-19-before-20",
        file: b"\x01\0\x02\x02\x02\x04\0\x05\x03\0\0\0\x04",
        positions: Some(2),
        ..USUAL
    },
    // Length 6.
    Example {
        name: "start-17",
        file: b"\x01\0\x02\x02\x02\x04\0\x06\x01\0\0\0\x01\0",
        positions: Some(2),
        ..USUAL
    },
    // Length 5, with 4 bytes of it.
    Example {
        name: "start-13",
        file: b"\x01\0\x02\x02\x02\x04\0\x05\x03\0\0\0",
        positions: Some(2),
        ..USUAL
    },
];

// Faults of a second starting set for position 1, at place 13, where v is 2 and n is 2: the empty set, the
// same set as before, another set, and the value 3.
const REFUSALS_OF_THE_SECOND: [Example; 4] = [
    Example {
        name: "start-26-before-27",
        file: b"\x01\0\x02\x02\x02\
          \x04\0\x05\x01\0\0\0\x01\
          \x04\0\x05\x01\0\0\0\0",
        positions: Some(2),
        ..USUAL
    },
    Example {
        name: "start-27-same-set",
        file: b"\x01\0\x02\x02\x02\
          \x04\0\x05\x01\0\0\0\x01\
          \x04\0\x05\x01\0\0\0\x01",
        positions: Some(2),
        ..USUAL
    },
    Example {
        name: "start-27-another-set",
        file: b"\x01\0\x02\x02\x02\
          \x04\0\x05\x01\0\0\0\x01\
          \x04\0\x05\x01\0\0\0\x02",
        positions: Some(2),
        ..USUAL
    },
    Example {
        name: "start-20-before-27",
        file: b"\x01\0\x02\x02\x02\
          \x04\0\x05\x01\0\0\0\x01\
          \x04\0\x05\x01\0\0\0\x04",
        positions: Some(2),
        ..USUAL
    },
];
