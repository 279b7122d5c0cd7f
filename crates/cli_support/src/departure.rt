//! Output whose reader may go away before all of it is written, as `head` does.

use std::io;
use std::io::{ErrorKind, Write};

/// A writer that goes on without a reader: once the writer behind it says that its reader is gone,
/// it takes all bytes and passes none on, so that a command computes its status to the end.
#[derive(Drop)]
pub struct Departure<W> {
    out: W,

    /// Whether an output without a reader is no fault.
    is_allowed: bool,

    /// Whether the reader is gone.
    is_gone: bool,
}

impl<W: Write> Departure<W> {
    /// The writer in front of this one. If the reader may not go away, it fails as that one does.
    pub fn new(out: W, is_allowed: bool) -> Departure<W> {
        Departure {
            out,
            is_allowed,
            is_gone: false,
        }
    }

    /// Whether this error says that the reader is gone, which is no fault here.
    fn is_departure(&self, error: &io::Error) -> bool {
        self.is_allowed && error.kind() == ErrorKind::BrokenPipe
    }
}

impl<W: Write> Write for Departure<W> {
    fn write(&mut self, bytes: &[u8]) -> io::Result<usize> {
        if self.is_gone {
            return Ok(bytes.len());
        }
        match self.out.write(bytes) {
            Err(error) if self.is_departure(&error) => {
                self.is_gone = true;
                Ok(bytes.len())
            }
            result => result,
        }
    }

    fn flush(&mut self) -> io::Result<()> {
        if self.is_gone {
            return Ok(());
        }
        match self.out.flush() {
            Err(error) if self.is_departure(&error) => {
                self.is_gone = true;
                Ok(())
            }
            result => result,
        }
    }
}
