// 01's starred cases, with its own letters; the counts of l are those of 02 (R-2), and the place of d is
// (R-3). In a file of several fields each stands on a line.
use super::line::{Example, USUAL, show_all};

// All of them, in this order.
pub(crate) fn all(rt: &impl Print) {
    show_all(rt, &EXAMPLES_OF_SOURCE_002);
    show_all(rt, &NO_ATOMS);
    show_all(rt, &EQUALITIES);
    show_all(rt, &CLAUSES);
}

// The two examples of source 002, with 1 for false and 2 for true.
const EXAMPLES_OF_SOURCE_002: [Example; 2] = [
    // v 3, n 2: [p1{2} p2{2} p3{1}], [p1{1} p2{1}], [p3{2}], [p1{2} p2{1}].
    Example {
        name: "a",
        file: b"\x01\0\x02\x03\x02\
          \x02\0\x0f\x01\0\0\0\x02\x02\0\0\0\x02\x03\0\0\0\x01\
          \x02\0\x0a\x01\0\0\0\x01\x02\0\0\0\x01\
          \x02\0\x05\x03\0\0\0\x02\
          \x02\0\x0a\x01\0\0\0\x02\x02\0\0\0\x01",
        positions: Some(3),
        ..USUAL
    },
    // v 4, n 2: [p1{2} p2{1} p3{1} p4{1}], [p2{2} p4{1}], [p3{2} p4{1}], [p4{2}].
    Example {
        name: "b",
        file: b"\x01\0\x02\x04\x02\
          \x02\0\x14\x01\0\0\0\x02\x02\0\0\0\x01\x03\0\0\0\x01\x04\0\0\0\x01\
          \x02\0\x0a\x02\0\0\0\x02\x04\0\0\0\x01\
          \x02\0\x0a\x03\0\0\0\x02\x04\0\0\0\x01\
          \x02\0\x05\x04\0\0\0\x02",
        positions: Some(4),
        ..USUAL
    },
];

// Files of v 2 and n 3 without an atom.
const NO_ATOMS: [Example; 2] = [
    // No rules.
    Example {
        name: "c",
        file: b"\x01\0\x02\x02\x03",
        positions: Some(2),
        ..USUAL
    },
    // An empty clause.
    Example {
        name: "d",
        file: b"\x01\0\x02\x02\x03\x02\0\0",
        positions: Some(2),
        ..USUAL
    },
];

// v 2, n 2, {1,2} with positions 1, 2.
const TWO: &[u8] = b"\x01\0\x02\x02\x02\x03\0\x06\0\0\0\x03\x01\x02";

// v 2, n 3, {1,2,3} with positions 1, 2.
const FEW: &[u8] = b"\x01\0\x02\x02\x03\x03\0\x06\0\0\0\x07\x01\x02";

// v 3, n 3, {1,2,3} with positions 1, 2, 3.
const THREE: &[u8] = b"\x01\0\x02\x03\x03\x03\0\x07\0\0\0\x07\x01\x02\x03";

// Files of one equality.
const EQUALITIES: [Example; 5] = [
    Example {
        name: "e",
        file: TWO,
        positions: Some(2),
        ..USUAL
    },
    Example {
        name: "f",
        file: TWO,
        allowance: 0,
        positions: Some(2),
        ..USUAL
    },
    Example {
        name: "g",
        file: FEW,
        positions: Some(2),
        ..USUAL
    },
    Example {
        name: "h",
        file: THREE,
        positions: Some(3),
        ..USUAL
    },
    Example {
        name: "i",
        file: THREE,
        allowance: 2,
        positions: Some(3),
        ..USUAL
    },
];

// Files of clauses.
const CLAUSES: [Example; 3] = [
    // v 2, n 3: [p1{2,3}], [p1{1} p2{3}].
    Example {
        name: "j",
        file: b"\x01\0\x02\x02\x03\
          \x02\0\x05\x01\0\0\0\x06\
          \x02\0\x0a\x01\0\0\0\x01\x02\0\0\0\x04",
        positions: Some(2),
        ..USUAL
    },
    // v 2, n 2: [p1{1} p2{1}].
    Example {
        name: "k",
        file: b"\x01\0\x02\x02\x02\
          \x02\0\x0a\x01\0\0\0\x01\x02\0\0\0\x01",
        positions: Some(2),
        ..USUAL
    },
    // v 3, n 2, the four clauses on positions 2 and 3 with one-value sets.
    Example {
        name: "l",
        file: b"\x01\0\x02\x03\x02\
          \x02\0\x0a\x02\0\0\0\x01\x03\0\0\0\x01\
          \x02\0\x0a\x02\0\0\0\x01\x03\0\0\0\x02\
          \x02\0\x0a\x02\0\0\0\x02\x03\0\0\0\x01\
          \x02\0\x0a\x02\0\0\0\x02\x03\0\0\0\x02",
        positions: Some(3),
        ..USUAL
    },
];
