// A writer that keeps the error of its last call that failed. Where a write takes no byte, the error that comes back is
// one of std's own and has no number of the system's; the system's words are then those of a call that failed before, as
// where a signal interrupted it.
ghost use Rattle.std.specs.Prelude.{◌≡◌};

use std::io::{Error, Result, Write};

// A writer and the error of its last call that failed.
#[derive(Clone, Copy)]
pub(crate) struct Noted<W> {
    output: W,
    pub(crate) error: Option<Error>,
}

impl<W> Noted<W> {
    // Before its first call.
    pub(crate) fn new(output: W) -> Noted<W> {
        Noted {
            output,
            error: None,
        }
    }

    // What a call answered, once it is noted.
    fn note<T>(&mut self, answer: Result<T>) -> Result<T>
        ensures { result ≡ answer }
    {
        if let Err(error) = answer {
            self.error = Some(error);
        }
        answer
    }
}

impl<W: Write> Write for Noted<W> {
    fn write(&mut self, buf: &[u8]) -> Result<usize> {
        let answer = self.output.write(buf);
        self.note(answer)
    }

    fn flush(&mut self) -> Result<()> {
        let answer = self.output.flush();
        self.note(answer)
    }
}
