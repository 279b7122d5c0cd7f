//! Writing texts to a sink or a writer in pieces, which allocates nothing.

ghost use Rattle.std.specs.Prelude.{◌<◌, ◌++◌, length};
ghost use Rattle.semver.specs.Identifiers.{marked};
ghost use Rattle.cargo_lock_graph.specs.Sinks.{CanCountFault, IsTaken, IsWritten, Taken};

use crate::drawing::sink::{Sink, write_some};
use std::io::{ErrorKind, Write};

// The destination of the pieces of a text: a borrowed sink or writer. Its state is what it took,
// how often it failed, and which borrow it is.
pub(crate) trait Target {
    ghost state: { Self → Taken };

    // As `Sink::put`.
    fn put(&mut self, bytes: &[u8]) -> Result<usize, ErrorKind>
        requires some { 0 < length bytes.now }
        requires countable { CanCountFault (state self.old).failures }
        ensures { IsTaken (state self.old) (state self.new) bytes.now result };
}

// A borrowed sink.
#[derive(Drop)]
pub(crate) struct OfSink<'a, S> {
    pub(crate) sink: &'a mut S,
}

impl<S: Sink> Target for OfSink<'_, S> {
    ghost state = { λ out.
        record {
          bytes = S.taken out.sink.now;
          failures = S.failures out.sink.now;
          borrow =
              out.sink.ghost_name;
        } };

    fn put(&mut self, bytes: &[u8]) -> Result<usize, ErrorKind> {
        self.sink.put(bytes)
    }
}

// A borrowed writer, with a count of its errors. It is written to as `WriterSink` does.
#[derive(Drop)]
pub(crate) struct OfWriter<'a, W> {
    pub(crate) writer: &'a mut W,
    pub(crate) faults: u64,
}

impl<W: Write> Target for OfWriter<'_, W> {
    ghost state = { λ out.
        record {
          bytes = W.contents out.writer.now;
          failures = out.faults;
          borrow =
              out.writer.ghost_name;
        } };

    fn put(&mut self, bytes: &[u8]) -> Result<usize, ErrorKind> {
        write_some(&mut *self.writer, &mut self.faults, bytes)
    }
}

// The result of writing a text: an error is the kind of the first one.
pub(crate) type Put = std::result::Result<(), ErrorKind>;

// Writes all the bytes, or stops at an error.
pub(crate) fn put_all<T: Target>(out: &mut T, bytes: &[u8]) -> Put
    requires { CanCountFault (T.state out.old).failures }
    ensures { IsWritten (T.state out.old) (T.state out.new) bytes.now result }
{
    let mut at = 0;
    while at < bytes.len() {
        let count = out.put(&bytes[at..])?;
        at += count;
    }
    Ok(())
}

// Writes two texts, one after the other.
pub(crate) fn put_both<T: Target>(out: &mut T, first: &[u8], second: &[u8]) -> Put
    requires { CanCountFault (T.state out.old).failures }
    ensures { IsWritten (T.state out.old) (T.state out.new) (first.now ++ second.now) result }
{
    put_all(out, first)?;
    put_all(out, second)
}

// Writes a byte and a text, or nothing if the text is empty.
pub(crate) fn put_marked<T: Target>(out: &mut T, mark: u8, text: &str) -> Put
    requires { CanCountFault (T.state out.old).failures }
    ensures { IsWritten (T.state out.old) (T.state out.new) (marked mark text.now) result }
{
    if text.is_empty() {
        return Ok(());
    }
    put_both(out, &[mark], text.as_bytes())
}
