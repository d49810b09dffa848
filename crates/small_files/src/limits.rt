// The limits: allowances, lengths of the answer buffer, the longest input, the largest header, the
// longest equality.
use super::asking::{Given, Seen};
use super::compare::{MOST, judge};
use super::tally::Tally;

// Tries a file with each allowance from 0 to one more than the splits that its reply with the
// largest allowance reported, but with no more than 100.
pub(crate) fn allowances(tally: &mut Tally, file: &[u8], full: Seen) {
    for allowance in 0..=full.splits.saturating_add(1).min(100) {
        another(tally, file, full, Given::usual(allowance));
    }
}

// Tries a file with answer buffers of 60 to 68 bytes.
pub(crate) fn buffers(tally: &mut Tally, file: &[u8], full: Seen) {
    for length in 60..=68 {
        let given = Given {
            length,
            allowance: MOST,
        };
        another(tally, file, full, given);
    }
}

// Tries a file with another length of the answer buffer or another allowance than those of a reply
// that it had.
fn another(tally: &mut Tally, file: &[u8], full: Seen, given: Given) {
    let seen = tally.ask(file, given);
    let right = is_right(seen, full, given);
    tally.expect(
        right,
        "another reply with another buffer or allowance:",
        file,
    );
}

// Whether a reply is right: refusal 11 where the buffer is below 64, UNDECIDED where the allowance is
// below the splits of the reply that the file had, with that reply's rounds, and otherwise that reply.
fn is_right(seen: Seen, full: Seen, given: Given) -> bool {
    if given.length < 64 {
        seen == Seen::refused(11, 0)
    } else if given.allowance < full.splits {
        seen.is_undecided(given.allowance) && seen.rounds == full.rounds
    } else {
        seen == full
    }
}

// Tries a file with allowances below the limit and above it.
pub(crate) fn largest_allowances(tally: &mut Tally, file: &[u8], full: Seen) {
    another(tally, file, full, Given::usual(MOST - 1));
    refused(tally, file, Given::usual(MOST + 1), 12);
    refused(tally, file, Given::usual(u64::MAX), 12);
}

// Tries the limits that the families do not reach.
pub(crate) fn all(tally: &mut Tally) {
    before_the_file(tally);
    headers(tally);
    longest_equality(tally);
}

// The numbers of positions and of values of headers at both ends of 1 to 64 and of 1 to 32, and one beyond
// them.
const HEADERS: [(u8, u8); 6] = [(1, 1), (64, 32), (65, 32), (64, 33), (0, 1), (1, 0)];

// Tries these headers, each alone.
fn headers(tally: &mut Tally) {
    for (v, n) in HEADERS {
        judge(tally, &[1, 0, 2, v, n]);
    }
}

// Tries an equality of 64 positions, the most that there may be, and one of 65: v 64, n 1, and
// position 1 every time.
fn longest_equality(tally: &mut Tally) {
    let mut file = [1u8; 77];
    file[..12].copy_from_slice(&[1, 0, 2, 64, 1, 3, 0, 68, 0, 0, 0, 1]);
    judge(tally, &file[..76]);
    file[7] = 69;
    judge(tally, &file);
}

// Tries what is refused before the file is read, and that 10 comes before 11, 11 before 12, and 12
// before an empty input.
fn before_the_file(tally: &mut Tally) {
    let long = [1u8; 32769];
    let both_wrong = Given {
        length: 63,
        allowance: MOST + 1,
    };
    refused(tally, &long, Given::usual(MOST), 10);
    refused(tally, &long, both_wrong, 10);
    refused(tally, b"", both_wrong, 11);
    refused(tally, b"", Given::usual(MOST + 1), 12);
}

// Tries a call that has to be refused with a number and place 0.
fn refused(tally: &mut Tally, file: &[u8], given: Given, number: u32) {
    let seen = tally.ask(file, given);
    tally.expect(
        seen == Seen::refused(number, 0),
        "not refused at a limit:",
        file,
    );
}
