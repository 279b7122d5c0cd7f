//! The destination of the text of a drawing.

ghost use Rattle.std.specs.Prelude.{◌≡◌, ℕ, ◌<◌, List, length, Option};
ghost use Rattle.cargo_lock_graph.specs.Sinks.{CanCountFault, IsPut};

use std::io::{ErrorKind, Write};
use std::marker::Model;

/// Takes the bytes of a text, some at a time, and counts how often it failed.
pub trait Sink {
    /// The bytes that it took, if they are known.
    ghost taken: { Self → Option (List ℕ) };

    /// How often it has failed.
    ghost failures: { Self → ℕ };

    /// Takes some of the bytes from their front, at least one, and returns how many. If it takes
    /// none, it returns an error and counts it.
    ///
    /// The bytes must not be empty, and the count of errors must be below 2^64 - 1.
    fn put(&mut self, bytes: &[u8]) -> Result<usize, ErrorKind>
        requires some { 0 < length bytes.now }
        requires countable { CanCountFault (failures self.old) }
        ensures { IsPut (taken self.old) (taken self.new) (failures self.old)
            (failures self.new) bytes.now result };

    /// How often it has failed.
    fn faults(&self) -> u64
        ensures { result ≡ failures self.now };
}

// Writes some of the bytes from their front, at least one, and returns how many. An interrupted
// write is an error, and so is a write of no bytes. Errors are counted.
pub(crate) fn write_some<W: Write>(
    writer: &mut W,
    faults: &mut u64,
    bytes: &[u8],
) -> Result<usize, ErrorKind>
    requires some { 0 < length bytes.now }
    requires countable { CanCountFault faults.old }
    ensures { IsPut (W.contents writer.old) (W.contents writer.new)
        faults.old faults.new bytes.now result }
{
    match writer.write(bytes) {
        Ok(0) => {
            *faults += 1;
            Err(ErrorKind::WriteZero)
        }
        Ok(count) => Ok(count),
        Err(error) => {
            *faults += 1;
            Err(error.kind())
        }
    }
}

/// A writer as a sink. An interrupted write is an error, and a write of no bytes is the error
/// `WriteZero`.
#[derive(Drop)]
pub struct WriterSink<W: Write> {
    writer: W,
    faults: u64,
}

impl<W: Write> Model for WriterSink<W> {
    ghost use Rattle.cargo_lock_graph.specs.Sinks.{SinkState};

    ghost Value = { SinkState };

    ghost view = { λ sink. record { bytes = W.contents sink.writer; faults = sink.faults } };
}

impl<W: Write> WriterSink<W> {
    /// The sink for this writer, with no errors so far.
    pub fn new(writer: W) -> Self
        ensures { result ≡ record { bytes = W.contents writer; faults = 0 } }
    {
        WriterSink { writer, faults: 0 }
    }
}

impl<W: Write> Sink for WriterSink<W> {
    ghost taken = { λ sink. sink.bytes };

    ghost failures = { λ sink. sink.faults };

    fn put(&mut self, bytes: &[u8]) -> Result<usize, ErrorKind> {
        write_some(&mut self.writer, &mut self.faults, bytes)
    }

    fn faults(&self) -> u64 {
        self.faults
    }
}
