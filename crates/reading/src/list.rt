// The short files, from standard input.
//
// A line with a colon is a file: what it is, and behind the last colon its bytes in decimal, each
// after a space. A line with none heads the files below it.
use super::line::show;
use arrayvec::ArrayVec;
use std::io::Read;

// The most bytes of the list that are read.
const LIST_BYTES: usize = 32_768;

// The most bytes that a file of the list has.
const FILE_BYTES: usize = 32;

// Shows every file of the list, in its order and numbered from 1.
pub(crate) fn all(rt: &impl Print, input: &mut impl Read) {
    let mut space = [0; LIST_BYTES];
    let files = list(input, &mut space)
        .split_inclusive(|byte| *byte == b'\n')
        .filter_map(words);
    for (number, words) in (1..).zip(files) {
        show(rt, number, &bytes(words));
    }
}

// The list, read into some bytes until they are full. Where a read fails it ends, as at the end of the input.
// Kept: a loop over `read`; `read_to_end` takes a `Vec`, for which there may be no memory.
fn list<'a>(input: &mut impl Read, space: &'a mut [u8]) -> &'a [u8] {
    let mut len = 0;
    while len < space.len() {
        match input.read(&mut space[len..]) {
            Ok(0) | Err(_) => break,
            Ok(more) => len += more,
        }
    }
    &space[..len]
}

// What stands behind the last colon of a line, if it has one. A line without its end is none.
fn words(line: &[u8]) -> Option<&[u8]> {
    let whole = line.strip_suffix(b"\n")?;
    let colon = whole.iter().rposition(|byte| *byte == b':')?;
    Some(&whole[colon + 1..])
}

// The bytes of a file, each from the word behind a space. Where there are more spaces, the last byte has all that
// is left of the line for its word.
fn bytes(words: &[u8]) -> ArrayVec<u8, FILE_BYTES> {
    let mut bytes = ArrayVec::new();
    let words = words.splitn(FILE_BYTES + 1, |byte| *byte == b' ').skip(1);
    for word in words {
        // There is room: the line is split into no more words than that.
        let _ = bytes.try_push(byte(word));
    }
    bytes
}

// The byte that a word tells in decimal, modulo 256. Spaces in it are passed over.
// Kept: `parse` refuses an empty word, a number above 255, a space and a letter; here each gives some byte.
fn byte(word: &[u8]) -> u8 {
    word.iter()
        .filter(|code| **code != b' ')
        .fold(0, with_digit)
}

// A number with one digit more, modulo 256. Every character is a digit, by its code's distance from that of 0.
fn with_digit(number: u8, code: &u8) -> u8 {
    number
        .wrapping_mul(10)
        .wrapping_add(code.wrapping_sub(b'0'))
}
