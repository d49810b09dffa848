// The program: takes a file of rules from standard input, prints the reply with 100,000 splits allowed,
// and says on standard error why a file is refused, or which field cannot be met. What is printed and
// said is computed from the bytes that were read by `answer` of `lines`, which is proved. Where a read or
// the write of the reply fails, one line on standard error says so; where a read failed nothing is
// printed.
#![tactic(auto)]

mod failure;
mod noted;

use failure::say;
use lines::answer::answer;
use noted::Noted;
use streams::{NotWhole, put, take_whole};

fn main(rt: HostRuntime) {
    // One byte more than a file may have, so that a longer one is known to be too long.
    let mut input = [0u8; 32769];
    match take_whole(&mut rt.stdin(), &mut input) {
        Ok(len) => reply_to(&rt, &input[..len]),
        Err(NotWhole::TooLong) => reply_to(&rt, &input),
        Err(NotWhole::Failed(error)) => say(&rt, "oarloom: standard input", error),
    }
}

// Prints the reply to an input.
fn reply_to(rt: &HostRuntime, input: &[u8]) {
    let output = answer(input);
    let printed = output.printed.as_bytes();
    let mut out = Noted::new(rt.stdout());
    match put(&mut out, printed, printed.len()) {
        Ok(()) => explain(rt, output.said.as_bytes()),
        Err(_) => say(rt, "oarloom: standard output", out.error),
    }
}

// Says the words for a reply, where there are any. Where they cannot be written, nothing tells so.
fn explain(rt: &HostRuntime, said: &[u8]) {
    if !said.is_empty() {
        let mut errors = rt.stderr();
        let _ = put(&mut errors, b"oarloom: ", 9);
        let _ = put(&mut errors, said, said.len());
    }
}
