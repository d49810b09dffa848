// Inputs, buffers and allowances at their limits and one past them, and the order in which these
// are refused.
use super::line::{Example, MOST, USUAL, show_all};

// All of them, in this order.
pub(crate) fn all(rt: &impl Print) {
    input_length(rt);
    show_all(rt, &BUFFERS_AND_ALLOWANCES);
    long_inputs(rt);
    show_all(rt, &SHORT_BUFFERS);
    show_all(rt, &HIGH_ALLOWANCES);
}

// A file of v 1 and n 32, and a clause whose length is 127 times 256 and this low byte. Every byte not named
// here is 1, so that its atoms are position 1 with the values 1, 9, 17 and 25.
// Kept: the program `reading` starts its long files so too. Each test program stands alone; a crate for ten lines is
// no plainer.
pub(crate) fn clause_of_ones<const BYTES: usize>(low: u8) -> [u8; BYTES] {
    let mut file = [1; BYTES];
    for (byte, named) in file.iter_mut().zip([1, 0, 2, 1, 32, 2, 127, low]) {
        *byte = named;
    }
    file
}

// A sound file of 32,768 bytes, the most that there may be, with 6552 atoms; and in front of it the same with
// one byte more.
fn input_length(rt: &impl Print) {
    let examples = [
        Example {
            name: "input-32769",
            file: &clause_of_ones::<32769>(248),
            positions: Some(1),
            ..USUAL
        },
        Example {
            name: "input-32768",
            file: &clause_of_ones::<32768>(248),
            positions: Some(1),
            ..USUAL
        },
    ];
    show_all(rt, &examples);
}

// Buffers about the shortest that is long enough, and an allowance above the highest.
const BUFFERS_AND_ALLOWANCES: [Example; 4] = [
    // Buffers of 63, 0 and 64 bytes for a plan of 64 values.
    Example {
        name: "buffer-63",
        file: b"\x01\0\x02\x40\x20",
        lent: 63,
        positions: Some(64),
        ..USUAL
    },
    Example {
        name: "buffer-0",
        file: b"\x01\0\x02\x40\x20",
        lent: 0,
        positions: Some(64),
        ..USUAL
    },
    Example {
        name: "buffer-64",
        file: b"\x01\0\x02\x40\x20",
        lent: 64,
        positions: Some(64),
        ..USUAL
    },
    // An allowance of 1,000,001 for the file of case e.
    Example {
        name: "allowance-1000001",
        file: b"\x01\0\x02\x02\x02\x03\0\x06\0\0\0\x03\x01\x02",
        allowance: MOST + 1,
        positions: Some(2),
        ..USUAL
    },
];

// An input that is too long is told before all else; all its bytes are 0.
fn long_inputs(rt: &impl Print) {
    let file = [0; 32769];
    let examples = [
        Example {
            name: "10-before-11-12",
            file: &file,
            allowance: MOST + 1,
            lent: 63,
            ..USUAL
        },
        Example {
            name: "10-before-11",
            file: &file,
            lent: 63,
            ..USUAL
        },
        Example {
            name: "10-before-12",
            file: &file,
            allowance: MOST + 1,
            ..USUAL
        },
    ];
    show_all(rt, &examples);
}

// A buffer that is too short is told before the allowance and before what the file has. The empty
// input has fault 14; the other is the file of case c, which has none.
const SHORT_BUFFERS: [Example; 3] = [
    Example {
        name: "11-before-12-14",
        file: b"",
        allowance: MOST + 1,
        lent: 63,
        ..USUAL
    },
    Example {
        name: "11-before-12",
        file: b"\x01\0\x02\x02\x03",
        allowance: MOST + 1,
        lent: 63,
        positions: Some(2),
        ..USUAL
    },
    Example {
        name: "11-before-14",
        file: b"",
        lent: 63,
        ..USUAL
    },
];

// An allowance that is too high is told before the faults of the file: 14 where it is empty, 13
// where its first head is cut.
const HIGH_ALLOWANCES: [Example; 2] = [
    Example {
        name: "12-before-14",
        file: b"",
        allowance: MOST + 1,
        ..USUAL
    },
    Example {
        name: "12-before-13",
        file: b"\x01\0",
        allowance: MOST + 1,
        ..USUAL
    },
];
