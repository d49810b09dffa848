// Shows what `take_whole` answers, a line for each input: its name, and then `whole` with its
// length and its bytes, `too long`, or `failed`. The buffer has 16 bytes. The inputs are the files
// of data/, the folder that they lie in, whose read fails, a file that is closed to reading, and
// standard input; two of the files are tried with a buffer of no bytes too. An input's name is written
// before the input is read, and what cannot be written is passed over.
//
// The file `stdout` beside src/ has the lines that are right, written by hand.
#![tactic(auto)]

use std::fs::{File, OpenOptions};
use std::io::{self, Read};
use streams::{NotWhole, take_whole};

fn main(rt: HostRuntime) {
    let mut buf = [0u8; 16];
    for name in ["short", "one_less", "as_long", "longer", "empty", "."] {
        show_file(&rt, name, "", File::open(&rt, name), &mut buf);
    }
    for name in ["short", "empty"] {
        show_file(&rt, name, ", no room", File::open(&rt, name), &mut []);
    }
    // Open for writing alone, and so closed to reading. Std hands out no descriptor that is closed; a read of
    // this one fails with the same error, EBADF.
    let closed = OpenOptions::new().write(true).open(&rt, "short");
    show_file(&rt, "short", ", closed", closed, &mut buf);
    let _ = print!(rt; "standard input");
    show(&rt, &mut rt.stdin(), &mut buf);
}

// Prints the line of a file: its name, the way in which it was opened or is read, and what became of it. Of one
// that the system did not open, of which there is none here, nothing can be read, so that it counts as failed;
// its line names no way.
fn show_file(rt: &impl Print, name: &str, way: &str, opened: io::Result<File>, buf: &mut [u8]) {
    match opened {
        Ok(mut file) => {
            let _ = print!(rt; "{name}{way}");
            show(rt, &mut file, buf);
        }
        Err(_) => {
            let _ = println!(rt; "{name}: failed");
        }
    }
}

// Takes an input whole into the buffer, and prints what became of it, the end of its line. Its bytes are printed
// as they are, since standard input need not be text.
fn show(rt: &impl Print, input: &mut impl Read, buf: &mut [u8]) {
    match take_whole(input, buf) {
        Ok(len) => {
            let _ = print!(rt; ": whole {len} <");
            let _ = rt.write_all(&buf[..len]);
            let _ = println!(rt; ">");
        }
        Err(NotWhole::TooLong) => {
            let _ = println!(rt; ": too long");
        }
        Err(NotWhole::Failed(_)) => {
            let _ = println!(rt; ": failed");
        }
    }
}
