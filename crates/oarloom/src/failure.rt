// The line that says why a read or a write failed.
use std::io::{Cursor, Error, Write};

// Writes a line to standard error: what failed, a colon and the system's words for the error.
pub(crate) fn say(rt: &HostRuntime, what: &str, error: Option<Error>) {
    match error {
        Some(error) => say_error(rt, what, error),
        None => line(rt, what, "unknown error"),
    }
}

// The same where there is an error. No error's text has more than 128 bytes; what is behind them would not
// be said.
fn say_error(rt: &HostRuntime, what: &str, error: Error) {
    let mut text = Cursor::new([0u8; 128]);
    let _ = write!(text, "{error}");
    let bytes = text.into_inner();
    match str::from_utf8(&bytes) {
        Ok(text) => line(rt, what, words(text)),
        Err(_) => line(rt, what, "unknown error"),
    }
}

// The system's words for an error, without the number that stands in brackets behind them, and without the
// zeros behind the text.
fn words(text: &str) -> &str {
    match text.split_once(" (os error ") {
        Some((words, _)) => words,
        None => text.trim_end_matches('\0'),
    }
}

// Where this line cannot be written, nothing tells so.
fn line(rt: &HostRuntime, what: &str, words: &str) {
    let _ = eprintln!(rt; "{what}: {words}");
}
