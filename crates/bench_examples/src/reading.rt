// 01's examples of reading, and those of at-most rules (02, R-12): what is refused in a file, and what is not.
use super::line::{Example, USUAL, show_all};

// All of them, in this order.
pub(crate) fn all(rt: &impl Print) {
    show_all(rt, &HEADERS);
    show_all(rt, &RULES);
    show_all(rt, &AT_MOST_RULES);
    show_all(rt, &AT_MOST_POSITIONS);
}

// Files that end with the header or before it.
const HEADERS: [Example; 4] = [
    Example {
        name: "empty-input",
        file: b"",
        ..USUAL
    },
    Example {
        name: "bytes-01-00",
        file: b"\x01\0",
        ..USUAL
    },
    // With n 32.
    Example {
        name: "v-65",
        file: b"\x01\0\x02\x41\x20",
        ..USUAL
    },
    // This one is read.
    Example {
        name: "v-64-n-32",
        file: b"\x01\0\x02\x40\x20",
        positions: Some(64),
        ..USUAL
    },
];

// Faults in the second field, at place 5, where v is 2 and n is 2.
const RULES: [Example; 4] = [
    Example {
        name: "second-header",
        file: b"\x01\0\x02\x02\x02\x01\0\x02\x02\x02",
        positions: Some(2),
        ..USUAL
    },
    Example {
        name: "clause-length-4",
        file: b"\x01\0\x02\x02\x02\x02\0\x04\x01\0\0\0",
        positions: Some(2),
        ..USUAL
    },
    // Set 4 is the value 3.
    Example {
        name: "clause-set-4",
        file: b"\x01\0\x02\x02\x02\x02\0\x05\x01\0\0\0\x04",
        positions: Some(2),
        ..USUAL
    },
    Example {
        name: "equality-set-4",
        file: b"\x01\0\x02\x02\x02\x03\0\x05\0\0\0\x04\x01",
        positions: Some(2),
        ..USUAL
    },
];

// Faults of an at-most rule at place 5, where v is 2 and n is 2: length 4; length 7 with a byte missing, where
// the value 3 is in the set; and the value 3 with position 3, 20 before 19.
const AT_MOST_RULES: [Example; 3] = [
    Example {
        name: "at-most-17",
        file: b"\x01\0\x02\x02\x02\x05\0\x04\x01\0\0\0",
        positions: Some(2),
        ..USUAL
    },
    Example {
        name: "at-most-13",
        file: b"\x01\0\x02\x02\x02\x05\0\x07\x01\0\0\0\x04\x01",
        positions: Some(2),
        ..USUAL
    },
    Example {
        name: "at-most-20",
        file: b"\x01\0\x02\x02\x02\x05\0\x06\x01\0\0\0\x04\x03",
        positions: Some(2),
        ..USUAL
    },
];

// The same, with the positions 3 and 3, 1 and 1, and 1, 1 and 3: 19 for every position comes before 36. Then a
// field of tag 6, which is not known.
const AT_MOST_POSITIONS: [Example; 4] = [
    Example {
        name: "at-most-19",
        file: b"\x01\0\x02\x02\x02\x05\0\x07\x01\0\0\0\x01\x03\x03",
        positions: Some(2),
        ..USUAL
    },
    Example {
        name: "at-most-36",
        file: b"\x01\0\x02\x02\x02\x05\0\x07\x01\0\0\0\x01\x01\x01",
        positions: Some(2),
        ..USUAL
    },
    Example {
        name: "at-most-19-before-36",
        file: b"\x01\0\x02\x02\x02\x05\0\x08\x01\0\0\0\x01\x01\x01\x03",
        positions: Some(2),
        ..USUAL
    },
    Example {
        name: "tag-6",
        file: b"\x01\0\x02\x02\x02\x06\0\x05\x01\0\0\0\x01",
        positions: Some(2),
        ..USUAL
    },
];
