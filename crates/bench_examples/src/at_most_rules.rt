// Files that tell readings of an at-most rule apart (02, R-12): a tag 5 field has a count k, a set and
// positions, of which at most k take a value in the set. One look counts the rooms inside the set, wide ones
// too. More than k are dead, and exactly k cut all others that meet the set down to the values outside. It
// is settled where at most k rooms meet the set. In a file of several fields each stands on a line.
use super::line::{Example, USUAL, show_all, show_most};

// All of them, in this order.
pub(crate) fn all(rt: &impl Print) {
    show_all(rt, &LOOKS);
    show_all(rt, &NOT_CUT);
    show_all(rt, &DEAD);
    show_all(rt, &DEAD_OTHERWISE);
    show_all(rt, &AT_MOST_NONE);
    show_all(rt, &ALWAYS_MET);
    show_all(rt, &INSIDE_AND_LIVE);
    show_all(rt, &NOT_LIVE);
    show_all(rt, &LOWEST_LIVE);
    all_positions(rt);
    rounds(rt);
}

// The file of `at-most-two-buses`, which is shown with allowance 0 too.
const TWO_BUSES: &[u8] = b"\x01\0\x02\x03\x02\
  \x05\0\x08\x01\0\0\0\x01\x01\x02\x03\
  \x05\0\x08\x01\0\0\0\x02\x01\x02\x03";

// What a look counts and cuts.
const LOOKS: [Example; 5] = [
    // v 3, n 2: at most 1 of 1, 2 and 3 in {1}, and at most 1 of them in {2}. No room lies inside either set, and
    // position 1 is split. Alone at 1 it cuts the others to {2}, and the second rule finds two rooms inside; alone
    // at 2 it is the other way round: NONE, 1 and 2. With allowance 0 it is UNDECIDED.
    Example {
        name: "at-most-two-buses",
        file: TWO_BUSES,
        positions: Some(3),
        ..USUAL
    },
    Example {
        name: "at-most-two-buses-allowance-0",
        file: TWO_BUSES,
        allowance: 0,
        positions: Some(3),
        ..USUAL
    },
    // v 2, n 3: {1,2} for position 1, and at most 1 of 1 and 2 in {1,2}. Room 1 has two values and lies inside, so
    // that room 2 is cut to {3}: PLAN 1 3, with no split. Where only rooms of one value count a split is needed.
    Example {
        name: "at-most-wide-room-inside",
        file: b"\x01\0\x02\x02\x03\
          \x04\0\x05\x01\0\0\0\x03\
          \x05\0\x07\x01\0\0\0\x03\x01\x02",
        allowance: 0,
        positions: Some(2),
        ..USUAL
    },
    // v 4, n 3: [p4{2}], and at most 1 of 1, 2, 3 and 4 in {2,3}; then the same of 2, 4 and 1. Room 4 lies
    // inside, and the others that are named are cut to {1} in the same round, those in front of 4 too. The
    // second round changes nothing: PLAN 1 1 1 2, and 2 rounds. Where a look cuts one room, or cuts while it
    // counts, there are more.
    Example {
        name: "at-most-all-in-one-look",
        file: b"\x01\0\x02\x04\x03\
          \x02\0\x05\x04\0\0\0\x02\
          \x05\0\x09\x01\0\0\0\x06\x01\x02\x03\x04",
        allowance: 0,
        positions: Some(4),
        ..USUAL
    },
    Example {
        name: "at-most-not-rising",
        file: b"\x01\0\x02\x04\x03\
          \x02\0\x05\x04\0\0\0\x02\
          \x05\0\x08\x01\0\0\0\x06\x02\x04\x01",
        allowance: 0,
        positions: Some(4),
        ..USUAL
    },
];

// Rooms that are not cut.
const NOT_CUT: [Example; 2] = [
    // v 3, n 3: [p3{3}], {2} for position 1, and at most 1 of 1, 2 and 3 in {1,3}. Room 3 lies inside, and room 2
    // is cut to {2}; room 1 is apart from the set and stays: PLAN 2 2 3.
    Example {
        name: "at-most-one-apart",
        file: b"\x01\0\x02\x03\x03\
          \x02\0\x05\x03\0\0\0\x04\
          \x04\0\x05\x01\0\0\0\x02\
          \x05\0\x08\x01\0\0\0\x05\x01\x02\x03",
        allowance: 0,
        positions: Some(3),
        ..USUAL
    },
    // v 3, n 2: [p3{1}], and at most 2 of 1, 2 and 3 in {1}. One room lies inside, which is fewer than 2, and so
    // nothing is cut: UNDECIDED with allowance 0. Where one of two is enough to cut it is PLAN 2 2 1.
    Example {
        name: "at-most-not-k-yet",
        file: b"\x01\0\x02\x03\x02\
          \x02\0\x05\x03\0\0\0\x01\
          \x05\0\x08\x02\0\0\0\x01\x01\x02\x03",
        allowance: 0,
        positions: Some(3),
        ..USUAL
    },
];

// v 3, n 2: [p1{1}], [p3{1}], and at most 1 of 1, 2 and 3 in {1}, behind both clauses or between them.
const DEAD: [Example; 2] = [
    // Behind them it finds two rooms inside, and is dead itself: NONE at 21.
    Example {
        name: "at-most-dead",
        file: b"\x01\0\x02\x03\x02\
          \x02\0\x05\x01\0\0\0\x01\
          \x02\0\x05\x03\0\0\0\x01\
          \x05\0\x08\x01\0\0\0\x01\x01\x02\x03",
        positions: Some(3),
        ..USUAL
    },
    // Between them it finds one, and cuts room 3 to {2}: the clause behind it is dead, NONE at 24.
    Example {
        name: "at-most-dead-behind-it",
        file: b"\x01\0\x02\x03\x02\
          \x02\0\x05\x01\0\0\0\x01\
          \x05\0\x08\x01\0\0\0\x01\x01\x02\x03\
          \x02\0\x05\x03\0\0\0\x01",
        positions: Some(3),
        ..USUAL
    },
];

// At-most rules that are dead, in the second round and by wide rooms.
const DEAD_OTHERWISE: [Example; 2] = [
    // v 3, n 2: at most 1 of 1 and 3 in {1}, [p1{1}], [p3{1}]. The clauses cut behind it, and the second round
    // finds two rooms inside: NONE at 5, and 2 rounds.
    Example {
        name: "at-most-dead-in-round-two",
        file: b"\x01\0\x02\x03\x02\
          \x05\0\x07\x01\0\0\0\x01\x01\x03\
          \x02\0\x05\x01\0\0\0\x01\
          \x02\0\x05\x03\0\0\0\x01",
        positions: Some(3),
        ..USUAL
    },
    // v 2, n 3: {1,2} for position 1, {2,3} for position 2, and at most 1 of them in {1,2,3}. Both rooms have two
    // values and lie inside: NONE at 21, with no split.
    Example {
        name: "at-most-dead-by-wide-rooms",
        file: b"\x01\0\x02\x02\x03\
          \x04\0\x05\x01\0\0\0\x03\
          \x04\0\x05\x02\0\0\0\x06\
          \x05\0\x07\x01\0\0\0\x07\x01\x02",
        positions: Some(2),
        ..USUAL
    },
];

// k is 0.
const AT_MOST_NONE: [Example; 2] = [
    // v 2, n 3: none of 1 and 2 in {1}. No room lies inside, which is exactly 0, and both are cut: PLAN 2 2.
    Example {
        name: "at-most-0",
        file: b"\x01\0\x02\x02\x03\
          \x05\0\x07\0\0\0\0\x01\x01\x02",
        allowance: 0,
        positions: Some(2),
        ..USUAL
    },
    // v 2, n 2: [p1{1}], and position 2 not in {1,2}. Its room lies inside: NONE at 13.
    Example {
        name: "at-most-0-full-set",
        file: b"\x01\0\x02\x02\x02\
          \x02\0\x05\x01\0\0\0\x01\
          \x05\0\x06\0\0\0\0\x03\x02",
        positions: Some(2),
        ..USUAL
    },
];

// v 2, n 3, and a rule that every assignment meets: at most 2 of 1 and 2 in {1}; at most 255 of them in
// {1,2,3}; none of them in the empty set; none of no positions in {1,2,3}. It is settled from the start: PLAN
// 1 1 in 1 round, with no split.
const ALWAYS_MET: [Example; 4] = [
    Example {
        name: "at-most-2-of-2",
        file: b"\x01\0\x02\x02\x03\x05\0\x07\x02\0\0\0\x01\x01\x02",
        allowance: 0,
        positions: Some(2),
        ..USUAL
    },
    Example {
        name: "at-most-255",
        file: b"\x01\0\x02\x02\x03\x05\0\x07\xff\0\0\0\x07\x01\x02",
        allowance: 0,
        positions: Some(2),
        ..USUAL
    },
    Example {
        name: "at-most-0-empty-set",
        file: b"\x01\0\x02\x02\x03\x05\0\x07\0\0\0\0\0\x01\x02",
        allowance: 0,
        positions: Some(2),
        ..USUAL
    },
    Example {
        name: "at-most-0-no-positions",
        file: b"\x01\0\x02\x02\x03\x05\0\x05\0\0\0\0\x07",
        allowance: 0,
        positions: Some(2),
        ..USUAL
    },
];

// Rooms inside the set of a rule that is not settled. They are live, and split where they have two values.
const INSIDE_AND_LIVE: [Example; 2] = [
    // v 4, n 3: {3} for position 1, and at most 2 of 1 to 4 in {3}. Position 1 has one value, and 2 is split.
    // Alone at 1 it leaves three rooms that meet the set, and 3 is split; alone at 1 it leaves two: PLAN
    // 3 1 1 1, 2 and 0.
    Example {
        name: "at-most-one-value",
        file: b"\x01\0\x02\x04\x03\
          \x04\0\x05\x01\0\0\0\x04\
          \x05\0\x09\x02\0\0\0\x04\x01\x02\x03\x04",
        positions: Some(4),
        ..USUAL
    },
    // v 3, n 3: {1,2} for position 1, {1,3} for 2 and 3, and at most 2 of 1, 2 and 3 in {1,2}. Position 1, whose
    // room lies inside, is split first and 2 next: PLAN 1 1 3, 2 and 0. Where 1 is not live it is 1 and 0.
    Example {
        name: "at-most-split-inside",
        file: b"\x01\0\x02\x03\x03\
          \x04\0\x05\x01\0\0\0\x03\
          \x04\0\x05\x02\0\0\0\x05\
          \x04\0\x05\x03\0\0\0\x05\
          \x05\0\x08\x02\0\0\0\x03\x01\x02\x03",
        positions: Some(3),
        ..USUAL
    },
];

// Position 1 has two values or more and is not split.
const NOT_LIVE: [Example; 3] = [
    // v 3, n 3: {2,3} for position 1, and at most 1 of 1, 2 and 3 in {1}. Room 1 is apart from the set: PLAN
    // 2 1 2, 1 and 0.
    Example {
        name: "at-most-not-live",
        file: b"\x01\0\x02\x03\x03\
          \x04\0\x05\x01\0\0\0\x06\
          \x05\0\x08\x01\0\0\0\x01\x01\x02\x03",
        positions: Some(3),
        ..USUAL
    },
    // v 3, n 2: at most 1 of 3 and 2 in {1}. Position 1 is not named, and 2 is the lowest: PLAN 1 1 2, 1 and 0.
    Example {
        name: "at-most-not-named",
        file: b"\x01\0\x02\x03\x02\
          \x05\0\x07\x01\0\0\0\x01\x03\x02",
        positions: Some(3),
        ..USUAL
    },
    // v 2, n 3: {3} for position 2, and at most 1 of 1 and 2 in {1,2}. One room meets the set, and the rule is
    // settled: PLAN 1 3, with no split.
    Example {
        name: "at-most-settled",
        file: b"\x01\0\x02\x02\x03\
          \x04\0\x05\x02\0\0\0\x04\
          \x05\0\x07\x01\0\0\0\x03\x01\x02",
        allowance: 0,
        positions: Some(2),
        ..USUAL
    },
];

// v 5, n 3: {1,2,3} equals the values of 2 and 5. With 1 split allowed position 2 is split, and both halves are
// dead: NONE, 1 and 2. With at most 1 of 1, 3, 4 and 5 in {2} behind it position 1 is live too, and its split
// is the one that is allowed: UNDECIDED, 1 and 0. A rule more makes a NONE undecided.
const LOWEST_LIVE: [Example; 2] = [
    Example {
        name: "at-most-none",
        file: b"\x01\0\x02\x05\x03\
          \x03\0\x06\0\0\0\x07\x02\x05",
        allowance: 1,
        positions: Some(5),
        ..USUAL
    },
    Example {
        name: "at-most-undecided",
        file: b"\x01\0\x02\x05\x03\
          \x03\0\x06\0\0\0\x07\x02\x05\
          \x05\0\x09\x01\0\0\0\x02\x01\x03\x04\x05",
        allowance: 1,
        positions: Some(5),
        ..USUAL
    },
];

// v 64, n 2: at most 1 of all 64 positions in {1}. Position 1 alone at 1 cuts all others: PLAN 1, and 63 times
// 2, with 1 split. At most 63 of them: the positions 1 to 63 are split in turn, and then 64 is cut: PLAN 63
// times 1, and 2, with 63 splits.
fn all_positions(rt: &impl Print) {
    let mut file = *b"\x01\0\x02\x40\x02\
      \x05\0\x45\x01\0\0\0\x01\
      \x01\x02\x03\x04\x05\x06\x07\x08\x09\x0a\x0b\x0c\x0d\x0e\x0f\x10\
      \x11\x12\x13\x14\x15\x16\x17\x18\x19\x1a\x1b\x1c\x1d\x1e\x1f\x20\
      \x21\x22\x23\x24\x25\x26\x27\x28\x29\x2a\x2b\x2c\x2d\x2e\x2f\x30\
      \x31\x32\x33\x34\x35\x36\x37\x38\x39\x3a\x3b\x3c\x3d\x3e\x3f\x40";
    let one = Example {
        name: "at-most-1-of-64",
        file: &file,
        positions: Some(64),
        ..USUAL
    };
    one.show(rt);
    file[8] = 63;
    let all_but_one = Example {
        name: "at-most-63-of-64",
        file: &file,
        positions: Some(64),
        ..USUAL
    };
    all_but_one.show(rt);
}

// v 3, n 2: at most 1 of 2 and 3 in {2}, and none of 1 and 2 in {1}. The first round cuts rooms 1 and 2 to {2}
// in one look, the second room 3 to {1}, and the third changes nothing: PLAN 2 2 1, and 3 rounds. The most that
// there may be is 4. It is 0 where a position is named twice.
fn rounds(rt: &impl Print) {
    let file = b"\x01\0\x02\x03\x02\
      \x05\0\x07\x01\0\0\0\x02\x02\x03\
      \x05\0\x07\0\0\0\0\x01\x01\x02";
    let example = Example {
        name: "at-most-rounds",
        file,
        allowance: 0,
        positions: Some(3),
        ..USUAL
    };
    example.show(rt);
    show_most(rt, "at-most-most", file);
    show_most(
        rt,
        "at-most-most-36",
        b"\x01\0\x02\x02\x02\x05\0\x07\x01\0\0\0\x01\x01\x01",
    );
}
