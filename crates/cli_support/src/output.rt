//! Text to a writer, without allocation. An interrupted write is an error.
ghost use Rattle.std.specs.Prelude.{◌≡◌, IfSome, OnOk};
ghost use Rattle.std.specs.Io.KnownBytes.{Appends};
ghost use Rattle.cli_support.specs.Output.{IsWrittenOut};

use std::io::{ErrorKind, Write};
use std::{fmt, io};

/// Writes all of the bytes. Fails at the first write that fails, and with `WriteZero` at the first
/// that takes no bytes; a prefix of them was then written.
pub fn put_all<W: Write>(out: &mut W, bytes: &[u8]) -> io::Result<()>
    ensures { IsWrittenOut (W.contents out.old) (W.contents out.new) bytes.now result }
{
    let mut at = 0;
    while at < bytes.len() {
        let count = out.write(&bytes[at..])?;
        if count == 0 {
            return Err(io::Error::from(ErrorKind::WriteZero));
        }
        at += count;
    }
    Ok(())
}

/// Writes what `Display` writes of a value. Fails as `put_all` does.
pub fn put<W: Write, D: fmt::Display + Drop>(out: &mut W, value: D) -> io::Result<()>
    ensures { OnOk result (IfSome (D.output value)
        (Appends (W.contents out.old) (W.contents out.new))) }
{
    let mut text = Text { out, failed: None };
    let result = fmt::Write::write(&mut text, value);
    let Text { out, failed } = text;
    // No effect at run time. The proof reads what `out` holds from this use of it.
    let _ = &*out;
    match result {
        Ok(()) => Ok(()),
        Err(_) => Err(io::Error::from(failed.unwrap_or(ErrorKind::Other))),
    }
}

/// A writer as the target of a format. It keeps the kind of the error that ended the format.
#[derive(Drop)]
struct Text<'a, W> {
    out: &'a mut W,
    failed: Option<ErrorKind>,
}

impl<W: Write> fmt::Write for Text<'_, W> {
    ghost write_str_gives = { λ old bytes new. (new.out.ghost_name ≡ old.out.ghost_name)
        × Appends (W.contents old.out.now) (W.contents new.out.now) bytes };

    fn write_str(&mut self, text: &str) -> fmt::Result {
        match put_all(self.out, text.as_bytes()) {
            Ok(()) => Ok(()),
            Err(error) => {
                self.failed = Some(error.kind());
                Err(fmt::Error)
            }
        }
    }
}
