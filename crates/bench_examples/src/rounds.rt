// Files that tell readings of the rounds apart (02, R-10): a reply has those of the first box. A round goes
// once through all fields in file order, and rounds stop after one that changes nothing or at one that
// finds a dead field; either counts. The most rounds are the sum over positions of starting size less one,
// plus one, which is v * (n - 1) + 1 where no position has a starting set of its own. In a
// file of several fields each stands on a line.
use super::limits::clause_of_ones;
use super::line::{Example, USUAL, show_all, show_most};

// All of them, in this order.
pub(crate) fn all(rt: &impl Print) {
    show_all(rt, &EXAMPLES);
    most_of_headers(rt);
    most_of_long_inputs(rt);
}

// v 3, n 2: [p2{1} p3{2}], [p1{1} p2{2}], [p1{2}].
const BOUND: &[u8] = b"\x01\0\x02\x03\x02\
  \x02\0\x0a\x02\0\0\0\x01\x03\0\0\0\x02\
  \x02\0\x0a\x01\0\0\0\x01\x02\0\0\0\x02\
  \x02\0\x05\x01\0\0\0\x02";

// The file of `rounds-of-the-first-box`, which is shown with allowance 0 too.
const FIRST_BOX: &[u8] = b"\x01\0\x02\x03\x02\
  \x02\0\x05\x01\0\0\0\x02\
  \x02\0\x0a\x02\0\0\0\x01\x03\0\0\0\x01";

// What `plan` says of the rounds.
const EXAMPLES: [Example; 7] = [
    // v 64, n 32, no rules. The first round has no field to go through and changes nothing: 1 round. Where
    // only rounds that change something count it is 0.
    Example {
        name: "rounds-header-alone",
        file: b"\x01\0\x02\x40\x20",
        positions: Some(64),
        ..USUAL
    },
    // In the first round only the last clause cuts, room 1 to {2}. So in the second the clause before it has
    // only 2 live and cuts room 2 to {2}, and in the third the first clause cuts room 3 to {2}. The fourth
    // changes nothing: PLAN 2 2 2, and 4 rounds, the most that there may be for v 3 and n 2. Where the fields
    // are gone through backwards all is cut in the first round: 2.
    Example {
        name: "rounds-at-the-bound",
        file: BOUND,
        positions: Some(3),
        ..USUAL
    },
    // v 3, n 2: [p1{2}], [p2{1} p3{1}]. The first round cuts room 1 to {2}, and the second changes nothing: 2
    // rounds. A split of position 2 is needed; with allowance 0 it is UNDECIDED, and these are its rounds. With
    // 2 alone at 1 all is settled, and that box takes 1 round: PLAN 2 1 1 with 1 split, and still 2 rounds.
    // Where the rounds of all boxes are summed it is 3, and where the last box's are told, 1.
    Example {
        name: "rounds-undecided",
        file: FIRST_BOX,
        allowance: 0,
        positions: Some(3),
        ..USUAL
    },
    Example {
        name: "rounds-of-the-first-box",
        file: FIRST_BOX,
        positions: Some(3),
        ..USUAL
    },
    // v 2, n 2, an empty clause. The first round finds it dead, and counts: NONE at 5, and 1 round. Where only
    // rounds that come to their end count it is 0.
    Example {
        name: "rounds-dead-at-once",
        file: b"\x01\0\x02\x02\x02\x02\0\0",
        positions: Some(2),
        ..USUAL
    },
    // v 3, n 2: [p2{1} p3{1}], [p1{1} p2{2}], [p1{2} p3{2}]. Each clause has two live positions, so the first
    // round changes nothing: 1 round. Position 1 is split. With 1 alone at 1 the last clause cuts room 3 to {2}
    // in the first round, then the first clause cuts room 2 to {1} in the second, and the third changes
    // nothing: PLAN 1 1 2 with 1 split. The rounds of that box, 3, are not told.
    Example {
        name: "rounds-last-box-takes-more",
        file: b"\x01\0\x02\x03\x02\
          \x02\0\x0a\x02\0\0\0\x01\x03\0\0\0\x01\
          \x02\0\x0a\x01\0\0\0\x01\x02\0\0\0\x02\
          \x02\0\x0a\x01\0\0\0\x02\x03\0\0\0\x02",
        positions: Some(3),
        ..USUAL
    },
    // v 1, n 3: [p1{2,3}], [p1{3}]. The first round cuts the room to {2,3} and at once to {3}, and the second
    // changes nothing: PLAN 3, and 2 rounds, where the most is 3. Where a round ends at its first cut it is 3.
    Example {
        name: "rounds-most-one-room",
        file: b"\x01\0\x02\x01\x03\
          \x02\0\x05\x01\0\0\0\x06\
          \x02\0\x05\x01\0\0\0\x04",
        positions: Some(1),
        ..USUAL
    },
];

// The most rounds: 64 * 31 + 1, which is 1985, for v 64 and n 32; 3 * 1 + 1, which is 4, for the file that
// takes them all; 1 where every room has one value; and 0 where the file is refused, by 18 and by 14.
fn most_of_headers(rt: &impl Print) {
    show_most(rt, "most-header-alone", b"\x01\0\x02\x40\x20");
    show_most(rt, "most-at-the-bound", BOUND);
    show_most(rt, "most-one-value", b"\x01\0\x02\x40\x01");
    show_most(rt, "most-refused", b"\x01\0\x02\x41\x20");
    show_most(rt, "most-empty", b"");
}

// The longest file, of v 1 and n 32: 1 * 31 + 1, which is 32. With one atom more its clause is as sound, and it
// is refused for its length alone, by 10: 0. These are 6553 atoms in place of 6552, which are 32,765 bytes, and
// so 253 in place of 248.
fn most_of_long_inputs(rt: &impl Print) {
    show_most(rt, "most-32768", &clause_of_ones::<32768>(248));
    show_most(rt, "most-32773", &clause_of_ones::<32773>(253));
}
