// Files with a rule added at the end, and calls with a larger allowance (02, R-14). With a rule more NONE stays
// NONE if it is decided, though not always at the same place, and a plan stays, gives way to one that is later in
// dictionary order, or to NONE. With a larger allowance a PLAN or NONE stays with all that it says. In a file of
// several fields each stands on a line, and the one that was added on the last.
use super::line::{Example, USUAL, show_all};
use arrayvec::ArrayVec;

// All of them, in this order.
pub(crate) fn all(rt: &impl Print) {
    show_all(rt, &NONE_AND_UNDECIDED);
    show_all(rt, &NONE_AT_ANOTHER_PLACE);
    show_all(rt, &PLAN_WITH_MORE_SPLITS);
    for (name, field) in &FIELDS {
        show_added(rt, name, field);
    }
}

// The file of `added-none-undecided`, which is shown with the most splits too.
const NONE_UNDECIDED: &[u8] = b"\x01\0\x02\x05\x03\
  \x03\0\x06\0\0\0\x07\x02\x05\
  \x05\0\x09\x01\0\0\0\x02\x01\x03\x04\x05";

// v 5, n 3: {1,2,3} equals the values of 2 and 5. With 1 split allowed position 2 is split, and both halves are
// dead: NONE, 1 and 2. With at most 1 of 1, 3, 4 and 5 in {2} behind it position 1 is live too, and its split
// is the one that is allowed: UNDECIDED, 1 and 0. With enough splits it is NONE again, 4 and 5: position 1 is
// split into 1, 2 and 3, at 1 and at 3 position 2 is split, and at 2 room 5 has lost that value.
const NONE_AND_UNDECIDED: [Example; 3] = [
    Example {
        name: "added-none",
        file: b"\x01\0\x02\x05\x03\
          \x03\0\x06\0\0\0\x07\x02\x05",
        allowance: 1,
        positions: Some(5),
        ..USUAL
    },
    Example {
        name: "added-none-undecided",
        file: NONE_UNDECIDED,
        allowance: 1,
        positions: Some(5),
        ..USUAL
    },
    Example {
        name: "added-none-decided",
        file: NONE_UNDECIDED,
        positions: Some(5),
        ..USUAL
    },
];

// v 1, n 2: [p1{1}], [p1{2}], at 5 and 13. The first clause cuts the room to {1}, and the second is dead: NONE at
// 13. With {2} for position 1 behind them the first is dead from the start: NONE at 5, in front of the place
// that it had.
const NONE_AT_ANOTHER_PLACE: [Example; 2] = [
    Example {
        name: "added-place",
        file: b"\x01\0\x02\x01\x02\
          \x02\0\x05\x01\0\0\0\x01\
          \x02\0\x05\x01\0\0\0\x02",
        positions: Some(1),
        ..USUAL
    },
    Example {
        name: "added-place-moves",
        file: b"\x01\0\x02\x01\x02\
          \x02\0\x05\x01\0\0\0\x01\
          \x02\0\x05\x01\0\0\0\x02\
          \x04\0\x05\x01\0\0\0\x02",
        positions: Some(1),
        ..USUAL
    },
];

// v 2, n 3: [p1{2,3}], [p1{3} p2{3}], at 5 and 13. Its plans are 2 3, 3 1, 3 2 and 3 3.
const PLANS: &[u8] = b"\x01\0\x02\x02\x03\
  \x02\0\x05\x01\0\0\0\x06\
  \x02\0\x0a\x01\0\0\0\x04\x02\0\0\0\x04";

// Position 1 is split, and alone at 2 it cuts room 2 to {3}: PLAN 2 3, 1 and 0. With no split allowed it is
// UNDECIDED; with 1 and with the most it is the same PLAN.
const PLAN_WITH_MORE_SPLITS: [Example; 3] = [
    Example {
        name: "added-plan-allowance-0",
        file: PLANS,
        allowance: 0,
        positions: Some(2),
        ..USUAL
    },
    Example {
        name: "added-plan-allowance-1",
        file: PLANS,
        allowance: 1,
        positions: Some(2),
        ..USUAL
    },
    Example {
        name: "added-plan",
        file: PLANS,
        positions: Some(2),
        ..USUAL
    },
];

// Names, and the fields that are added to this file, each one rule.
const FIELDS: [(&str, &[u8]); 12] = [
    // A clause more. [p2{1,3}] is met by 2 3, which stays. [p2{1,2}] is not, and the next plan is 3 1, which is
    // later by position 1 though its value at position 2 is lower. [p1{1}] finds room 1 without its value: NONE
    // at 26.
    ("added-clause-stays", b"\x02\0\x05\x02\0\0\0\x05"),
    ("added-clause-later", b"\x02\0\x05\x02\0\0\0\x03"),
    ("added-clause-none", b"\x02\0\x05\x01\0\0\0\x01"),
    // An equality more, of positions 1 and 2: {2,3} leaves 2 3 as it is, {1,3} leaves 3 1 alone, and {1,2} leaves
    // nothing. It cuts the rooms to {2} and {1}, and the second clause, at 13, is dead in the second round.
    ("added-equality-stays", b"\x03\0\x06\0\0\0\x06\x01\x02"),
    ("added-equality-later", b"\x03\0\x06\0\0\0\x05\x01\x02"),
    ("added-equality-none", b"\x03\0\x06\0\0\0\x03\x01\x02"),
    // A starting set more. {2,3} for position 2 leaves 2 3 as it is. {1,3} for position 1 leaves 3 1 as the
    // first. With {1} for position 1 the first clause is dead from the start: NONE at 5, and not at the field
    // that was added.
    ("added-start-stays", b"\x04\0\x05\x02\0\0\0\x06"),
    ("added-start-later", b"\x04\0\x05\x01\0\0\0\x05"),
    ("added-start-none", b"\x04\0\x05\x01\0\0\0\x01"),
    // An at-most rule more, of positions 1 and 2. At most 1 in {3} leaves 2 3 as it is. At most 1 in {2,3} finds
    // room 1 inside and cuts room 2 to {1}: PLAN 3 1. At most 0 in {2,3} finds more inside than it allows: NONE
    // at 26.
    ("added-at-most-stays", b"\x05\0\x07\x01\0\0\0\x04\x01\x02"),
    ("added-at-most-later", b"\x05\0\x07\x01\0\0\0\x06\x01\x02"),
    ("added-at-most-none", b"\x05\0\x07\0\0\0\0\x06\x01\x02"),
];

// Shows the same file with a field added at its end, at 26, and with the most splits allowed.
fn show_added(rt: &impl Print, name: &str, field: &[u8]) {
    // Room for the 26 bytes of that file, and for a field, of which none has more than 10.
    let mut file = ArrayVec::<u8, 36>::new();
    for part in [PLANS, field] {
        let _ = file.try_extend_from_slice(part);
    }
    let example = Example {
        name,
        file: &file,
        positions: Some(2),
        ..USUAL
    };
    example.show(rt);
}
