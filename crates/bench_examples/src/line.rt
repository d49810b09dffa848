// What is shown of one file: the line of a call of `plan`, and what the program prints for the file; or the
// most rounds that the file can take.
use lines::answer::answer;
use planner::plan::plan;
use planner::rounds::rounds_most;
use searching::reply::Reply;
use std::{array, fmt};

// The most splits that may be allowed.
pub(crate) const MOST: u64 = 1_000_000;

// The bytes of the buffer for an answer.
const BUFFER: usize = 70;

// A file to call `plan` on.
#[derive(Clone, Copy)]
pub(crate) struct Example<'a> {
    // The example's letter or name.
    pub(crate) name: &'a str,
    // The bytes of the file.
    pub(crate) file: &'a [u8],
    // The splits that are allowed.
    pub(crate) allowance: u64,
    // How many bytes of the buffer are lent to `plan`.
    pub(crate) lent: usize,
    // How many positions the file has, where it has a header that is read.
    pub(crate) positions: Option<usize>,
}

// What most examples have: the most splits and the whole buffer.
pub(crate) const USUAL: Example = Example {
    name: "",
    file: b"",
    allowance: MOST,
    lent: BUFFER,
    positions: None,
};

impl Example<'_> {
    // Calls `plan` and prints the line, which starts with the name. Behind it stands what the program prints for
    // the file. What cannot be written is passed over.
    pub(crate) fn show(&self, rt: &impl Print) {
        let _ = println!(rt; "{} {}", self.name, self.planned());
        let output = answer(self.file);
        let _ = rt.write_all(output.printed.as_bytes());
    }

    // What `plan` replies, and what it leaves in the buffer.
    fn planned(&self) -> Planned {
        let mut buffer = array::from_fn(pattern);
        let lent = self.lent.min(BUFFER);
        let reply = plan(self.file, &mut buffer[..lent], self.allowance);
        Planned {
            reply,
            buffer,
            positions: self.positions,
        }
    }
}

// A reply, and the buffer behind the call.
#[derive(Clone, Copy)]
struct Planned {
    reply: Reply,
    buffer: [u8; BUFFER],
    positions: Option<usize>,
}

impl Planned {
    // How many bytes of the buffer the reply may write: one for each position for a plan, and none for every
    // other reply.
    fn written(&self) -> usize {
        match self.positions {
            Some(positions) if self.reply.number == Reply::PLAN => positions,
            _ => 0,
        }
    }

    // Whether every byte of the buffer that the reply may not write is what it was before the call.
    fn is_kept(&self) -> bool {
        let mut others = self.buffer.iter().enumerate().skip(self.written());
        others.all(|(place, byte)| *byte == pattern(place))
    }
}

// The number, the place, the splits, the dead ends and the rounds of a reply, the values of a plan, and whether
// all other bytes of the buffer were kept.
// Kept: the program `deep` writes the five numbers too. Each test program stands alone; a crate for ten lines is no
// plainer.
impl fmt::Display for Planned {
    fn fmt<W: fmt::Write>(&self, f: &mut fmt::Formatter<W>) -> fmt::Result {
        let Reply {
            number,
            place,
            splits,
            dead_ends,
            rounds,
        } = self.reply;
        write!(f, "{number} {place} {splits} {dead_ends} {rounds} ")?;
        for value in self.buffer.iter().take(self.written()) {
            write!(f, "{value} ")?;
        }
        f.write_str(if self.is_kept() { "kept" } else { "touched" })
    }
}

// Shows examples, in their order.
pub(crate) fn show_all(rt: &impl Print, examples: &[Example<'_>]) {
    for example in examples {
        example.show(rt);
    }
}

// Prints a line with the name and the most rounds of a file, by `rounds_most`. One that cannot be written is
// passed over.
pub(crate) fn show_most(rt: &impl Print, name: &str, file: &[u8]) {
    let _ = println!(rt; "{name} {}", rounds_most(file));
}

// The byte at a place of the buffer before the call: 200 to 249 in turn, none of them a value.
fn pattern(place: usize) -> u8 {
    (200 + place % 50) as u8
}
