// The line that is printed for a reply.
use searching::reply::Reply;
use std::fmt;

// A reply, and the buffer behind the call.
#[derive(Clone, Copy)]
pub(crate) struct Line<'a> {
    pub(crate) reply: Reply,
    pub(crate) answer: &'a [u8; 64],
}

// The reply's number, place, splits, dead ends and rounds, and then every byte of the answer.
impl fmt::Display for Line<'_> {
    fn fmt<W: fmt::Write>(&self, f: &mut fmt::Formatter<W>) -> fmt::Result {
        let Reply {
            number,
            place,
            splits,
            dead_ends,
            rounds,
        } = self.reply;
        write!(f, "{number} {place} {splits} {dead_ends} {rounds}")?;
        for byte in self.answer {
            write!(f, " {byte}")?;
        }
        Ok(())
    }
}
