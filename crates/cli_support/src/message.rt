//! Messages for people, in which no character of a stranger can hide or move another.

use crate::fault::Fault;
use crate::output::{put, put_all};
use crate::terminal::is_hidden_in_line;
use printing::Shown;
use std::io::{ErrorKind, Write};
use std::{fmt, io};

/// The beginning of each line of a message except the first.
const NEXT_LINE: &str = "\n  | ";

/// Prints `*** ` and what `Display` writes of the error: letters of each alphabet unchanged, and the
/// characters that a terminal obeys or does not show by their numbers. A newline inside the message
/// begins a line with `  | `, and the newlines at its end become one. The parser of the arguments
/// formats its own lines, which have no `  | `, nor has the line that names a file after an error.
/// Fails as the writer does.
pub fn put_message<W: Write>(out: &mut W, fault: &Fault) -> io::Result<()> {
    match fault {
        Fault::Words(words) => put_lines(out, Continued::Plain, format_args!("*** {words}"))?,
        Fault::FileAfter(name, error) => {
            put_lines(out, Continued::Marked, format_args!("*** error: {error}"))?;
            put_all(out, b"\n  in ")?;
            put_lines(out, Continued::Marked, format_args!("{name}"))?;
        }
        _ => put_lines(out, Continued::Marked, format_args!("*** {fault}"))?,
    }
    put_all(out, b"\n")
}

/// How a line begins that a newline inside a message makes.
#[derive(Clone, Copy)]
enum Continued {
    Plain,
    Marked,
}

impl Continued {
    fn separator(self) -> &'static str {
        match self {
            Continued::Plain => "\n",
            Continued::Marked => NEXT_LINE,
        }
    }
}

/// Prints a text as a message has it, without the newlines at its end.
fn put_lines<W: Write, D: fmt::Display + Drop>(
    out: &mut W,
    continued: Continued,
    text: D,
) -> io::Result<()> {
    let mut message = Message {
        out,
        separator: continued.separator(),
        newlines: 0,
    };
    match fmt::Write::write(&mut message, text) {
        Ok(()) => Ok(()),
        Err(_) => Err(io::Error::from(ErrorKind::Other)),
    }
}

/// A writer as the target of a message.
#[derive(Drop)]
struct Message<'a, W> {
    out: &'a mut W,
    separator: &'static str,

    /// How many newlines were read since the last text.
    newlines: u32,
}

impl<W: Write> fmt::Write for Message<'_, W> {
    fn write_str(&mut self, text: &str) -> fmt::Result {
        for piece in text.split_inclusive(is_hidden_in_line) {
            match self.put_piece(piece) {
                Ok(()) => {}
                Err(_) => return Err(fmt::Error),
            }
        }
        Ok(())
    }
}

impl<W: Write> Message<'_, W> {
    /// Prints characters that are not hidden, except perhaps the last one.
    fn put_piece(&mut self, piece: &str) -> io::Result<()> {
        if let Some(plain) = piece.strip_suffix('\n') {
            self.put_text(plain)?;
            self.newlines = self.newlines.saturating_add(1);
            return Ok(());
        }
        self.put_text(piece)
    }

    /// Prints a text without newlines, after the newlines that came before it.
    fn put_text(&mut self, text: &str) -> io::Result<()> {
        if text.is_empty() {
            return Ok(());
        }
        for _ in 0..self.newlines {
            put_all(self.out, self.separator.as_bytes())?;
        }
        self.newlines = 0;
        put_ended(self.out, text, text.strip_suffix(is_hidden_in_line))
    }
}

/// Prints a text. `plain` is all of it except its last character, if that is hidden.
fn put_ended<W: Write>(out: &mut W, text: &str, plain: Option<&str>) -> io::Result<()> {
    match (plain, text.chars().next_back()) {
        (Some(plain), Some(last)) => {
            put_all(out, plain.as_bytes())?;
            put(out, Shown(last))
        }
        _ => put_all(out, text.as_bytes()),
    }
}
