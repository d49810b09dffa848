// Takes an input whole, and tells an input that ended from a read that failed, into a buffer that the
// caller has; and writes the front of a buffer. Both over any reader and writer of std. The contracts cite
// specs/Promise.antt (what `take_whole` and `put` promise) and specs/Turn.antt (what follows from one read).
#![tactic(auto)]

ghost use Rattle.std.specs.Prelude.{◌≡◌, ◌≤◌, Some, length};
ghost use Rattle.streams.specs.declared.NotWhole.TheVariants.{Failed};
ghost use Rattle.streams.specs.Promise.{Took, Put};
ghost use Rattle.streams.specs.Turn.{After, Turned};

use std::io::{self, ErrorKind, Read, Write};

// How many reads that a signal interrupts are tried again. A loop that is proved has to end, and
// nothing says that signals do. No run comes to this many.
const TRIES: usize = 1_000_000;

// Why an input was not taken whole.
#[derive(Clone, Copy, Debug)]
pub enum NotWhole {
    // The buffer is full, so the input may have more.
    TooLong,
    // A read failed, and nothing is known of the input. It failed with this error; there is none where it
    // answered more bytes than it had room for.
    Failed(Option<io::Error>),
}

impl From<io::Error> for NotWhole {
    ghost from_gives = { λ cause result. result ≡ Failed (Some cause) };

    fn from(cause: io::Error) -> NotWhole {
        NotWhole::Failed(Some(cause))
    }
}

// What follows from one read that neither failed nor filled the buffer.
// Kept: an enum that says how the reading goes on, which one `match` in one loop takes; closures would be no plainer.
#[derive(Clone, Copy)]
enum Next {
    // The input ended: the first so many bytes of the buffer are the input.
    Whole(usize),
    // So many bytes are read, and more may follow.
    More(usize),
    // A signal interrupted the read before it moved a byte: the same read again. This is the read's error.
    Again(io::Error),
}

// Reads until the input ends, the buffer is full or a read fails, and answers how many bytes the input
// has. An input as long as the buffer is too long, since only a read behind it would tell that it ends
// there, and so is every input for a buffer of no bytes. A read that a signal interrupts is tried again,
// 1,000,000 times in all, and after that counts as one that failed. The contract does not say which bytes
// were read: of a file or a terminal none can, and of a reader that is a value this one does not.
pub fn take_whole<R: Read>(input: &mut R, buf: &mut [u8]) -> Result<usize, NotWhole>
    ensures { Took buf.new result }
{
    let mut done = 0;
    let mut tries = 0..TRIES;
    // Kept: no plainer as a `for` over the tries, since a read that brings bytes is none of them.
    loop {
        match turn(input, buf, done)? {
            Next::Whole(len) => return Ok(len),
            Next::More(sum) => done = sum,
            Next::Again(error) => {
                if tries.next().is_none() {
                    return Err(NotWhole::from(error));
                }
            }
        }
    }
}

// One read behind the first `done` bytes, which stay as they are.
fn turn<R: Read>(input: &mut R, buf: &mut [u8], done: usize) -> Result<Next, NotWhole>
    requires { done ≤ length buf.old }
    ensures { Turned done buf.old buf.new result }
{
    let answer = input.read(&mut buf[done..]);
    after(answer, done, buf.len())
}

// What follows from a read with this answer, behind the first `done` bytes of a buffer of `room` bytes.
// Where no room was left, no byte is not the end of the input. An answer beyond the room counts as a
// failure: that there is none is a clause of `Read::read`, and this function does not lean on it.
fn after(answer: io::Result<usize>, done: usize, room: usize) -> Result<Next, NotWhole>
    requires { done ≤ room }
    ensures { After answer done room result }
{
    let left = room - done;
    match answer {
        Ok(0) if 0 < left => Ok(Next::Whole(done)),
        Ok(moved) if moved < left => Ok(Next::More(done + moved)),
        Ok(moved) if moved == left => Err(NotWhole::TooLong),
        Ok(_) => Err(NotWhole::Failed(None)),
        Err(error) if error.kind() == ErrorKind::Interrupted => Ok(Next::Again(error)),
        Err(error) => Err(NotWhole::from(error)),
    }
}

// Writes the first `len` bytes. Where there are fewer it writes nothing and answers with an error. Where it
// answers with an error, some may have been written.
// Kept: the length beside the bytes may be more than there are (`Put`, `example-put`); a slice would ask more of a caller.
pub fn put<W: Write>(output: &mut W, bytes: &[u8], len: usize) -> io::Result<()>
    ensures { Put bytes.now len result }
{
    if bytes.len() < len {
        return Err(io::Error::from(ErrorKind::InvalidInput));
    }
    output.write_all(&bytes[..len])
}
