// Files that tell readings of the place of a NONE apart (02, R-3): with no split it is that of the field
// first found dead, where the fields are gone through in file order, over and over, each room cut at once;
// an equality is gone through once in a round, clause by clause, and left at its first dead one. In a file
// of several fields each stands on a line.
use super::line::{Example, USUAL};

// The file of `dead-in-round-two`, which is shown with allowance 0 too.
const DEAD_IN_ROUND_TWO: &[u8] = b"\x01\0\x02\x02\x02\
  \x02\0\x0a\x01\0\0\0\x02\x02\0\0\0\x01\
  \x02\0\x05\x01\0\0\0\x01\
  \x02\0\x05\x02\0\0\0\x02";

// The file of `dead-after-a-split`, which is shown with allowance 0 too.
const DEAD_AFTER_A_SPLIT: &[u8] = b"\x01\0\x02\x02\x03\
  \x02\0\x05\x01\0\0\0\x07\
  \x03\0\x06\0\0\0\x07\x01\x02";

// All of them, in this order.
pub(crate) const EXAMPLES: [Example; 10] = [
    // v 2, n 2: [p1{1} p2{1}], [p1{2}], [p2{2}], [p2{1}], at 5, 18, 26 and 34. In the first round the first
    // clause has two live positions, the next two cut rooms 1 and 2 to {2}, and the last finds room 2 without
    // its value: 34. Where a round starts again behind each cut it is 26, and where cuts are made at the end
    // of a round it is 5.
    Example {
        name: "dead-at-the-last-field",
        file: b"\x01\0\x02\x02\x02\
          \x02\0\x0a\x01\0\0\0\x01\x02\0\0\0\x01\
          \x02\0\x05\x01\0\0\0\x02\
          \x02\0\x05\x02\0\0\0\x02\
          \x02\0\x05\x02\0\0\0\x01",
        positions: Some(2),
        ..USUAL
    },
    // v 2, n 2: [p1{2} p2{1}], [p1{1}], [p2{2}]. The first round cuts both rooms, behind the first clause; in
    // the second that clause, at 5, has no live position left. No split is needed, so the reply is the same
    // with allowance 0.
    Example {
        name: "dead-in-round-two",
        file: DEAD_IN_ROUND_TWO,
        positions: Some(2),
        ..USUAL
    },
    Example {
        name: "dead-in-round-two-allowance-0",
        file: DEAD_IN_ROUND_TWO,
        allowance: 0,
        positions: Some(2),
        ..USUAL
    },
    // v 2, n 2: [p1{1}], [p2{}], an empty clause, at 5, 13 and 21. Both of the last two are dead from the start,
    // and the one that comes first in the file is told: 13.
    Example {
        name: "two-dead-fields",
        file: b"\x01\0\x02\x02\x02\
          \x02\0\x05\x01\0\0\0\x01\
          \x02\0\x05\x02\0\0\0\0\
          \x02\0\0",
        positions: Some(2),
        ..USUAL
    },
    // v 3, n 2: [p3{1}], [p1{1} p2{1}], [p1{2} p3{2}], [p2{2}], at 5, 13, 26 and 39. The first round cuts room 3
    // to {1}, so room 1 to {2} by the third clause, and room 2 to {2} by the last. In the second the clause at
    // 13, which cut nothing, is dead.
    Example {
        name: "middle-field-in-round-two",
        file: b"\x01\0\x02\x03\x02\
          \x02\0\x05\x03\0\0\0\x01\
          \x02\0\x0a\x01\0\0\0\x01\x02\0\0\0\x01\
          \x02\0\x0a\x01\0\0\0\x02\x03\0\0\0\x02\
          \x02\0\x05\x02\0\0\0\x02",
        positions: Some(3),
        ..USUAL
    },
    // v 1, n 2: {1,2} equals the value of position 1, and an empty clause behind it. "It is in {1}" cuts the
    // room to {1}, and "it is in {2}" has no live position then: the equality, at 5, is dead before the empty
    // clause is looked at.
    Example {
        name: "equality-dead-by-its-own-cut",
        file: b"\x01\0\x02\x01\x02\
          \x03\0\x05\0\0\0\x03\x01\
          \x02\0\0",
        positions: Some(1),
        ..USUAL
    },
    // v 3, n 3: [p1{1,2}], [p2{2,3}], [p3{3}], {1,2,3} equals the values of 1, 2 and 3, [p2{3}], at 5, 13, 21, 29
    // and 39. Of the equality's clauses "one is in {1}" leaves room 1 at {1}, and so "one is in {2}" leaves room 2
    // at {2} in the same look: the last clause is dead in the first round, 39. Where the cuts of an equality
    // are made behind it, it is dead itself, 29.
    Example {
        name: "equality-cuts-at-once",
        file: b"\x01\0\x02\x03\x03\
          \x02\0\x05\x01\0\0\0\x03\
          \x02\0\x05\x02\0\0\0\x06\
          \x02\0\x05\x03\0\0\0\x04\
          \x03\0\x07\0\0\0\x07\x01\x02\x03\
          \x02\0\x05\x02\0\0\0\x04",
        positions: Some(3),
        ..USUAL
    },
    // The same with [p2{1,3}] as the second clause. "One is in {1}" has two live positions, and "one is in {2}"
    // leaves room 1 at {2}. The equality is gone through once in a round, so the last clause cuts room 2 to {3}
    // before "one is in {1}" is looked at again and is dead, in the second round: 29. Where an equality is
    // gone through until nothing changes, the last clause is dead, 39.
    Example {
        name: "equality-once-in-a-round",
        file: b"\x01\0\x02\x03\x03\
          \x02\0\x05\x01\0\0\0\x03\
          \x02\0\x05\x02\0\0\0\x05\
          \x02\0\x05\x03\0\0\0\x04\
          \x03\0\x07\0\0\0\x07\x01\x02\x03\
          \x02\0\x05\x02\0\0\0\x04",
        positions: Some(3),
        ..USUAL
    },
    // v 2, n 3: [p1{1,2,3}], {1,2,3} equals the values of 1 and 2. Nothing is cut; position 1 is split, and both
    // halves are dead at the equality, at 13: NONE with a split has place 0. With allowance 0 it is
    // UNDECIDED, at place 0 too.
    Example {
        name: "dead-after-a-split",
        file: DEAD_AFTER_A_SPLIT,
        positions: Some(2),
        ..USUAL
    },
    Example {
        name: "dead-after-a-split-allowance-0",
        file: DEAD_AFTER_A_SPLIT,
        allowance: 0,
        positions: Some(2),
        ..USUAL
    },
];
