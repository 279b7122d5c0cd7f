//! Text for a terminal, without characters that it would obey or would not show.

ghost use Rattle.std.specs.Prelude.{◌≡◌, ◌++◌, IfOk, OnOk, string_bytes};
ghost use Rattle.std.specs.Io.KnownBytes.{Appends};
ghost use Rattle.cli_support.specs.Terminal.{in_line_char, visible, visible_char};
ghost use Rattle.cli_support.specs.Terminal as spec;

use crate::output::put;
use printing::Shown;
use std::alloc::{AllocError, Global};
use std::io;
use std::io::{ErrorKind, Write};

/// A writer of text to a terminal. The characters that a terminal obeys or does not show are
/// printed by their numbers: control characters except the newline, those that change the direction
/// of the text, separators of lines and paragraphs, and those without a width.
#[derive(Drop)]
pub struct Terminal<W> {
    out: W,
}

impl<W: Write> Terminal<W> {
    /// The writer in front of this one.
    pub fn new(out: W) -> Terminal<W> {
        Terminal { out }
    }
}

impl<W: Write> Write for Terminal<W> {
    /// Prints the bytes, which are whole characters of a text.
    fn write(&mut self, bytes: &[u8]) -> io::Result<usize> {
        match str::from_utf8(bytes) {
            Ok(text) => put_visible(&mut self.out, text)?,
            Err(_) => return Err(io::Error::from(ErrorKind::InvalidData)),
        }
        Ok(bytes.len())
    }

    fn flush(&mut self) -> io::Result<()> {
        self.out.flush()
    }
}

/// Prints a text for a terminal. No character of what it prints is hidden
/// (`laws::nothing_is_hidden`). Fails as the writer does.
#[tactic(auto, unfolding(crate::specs::Terminal::visible))]
pub fn put_visible<W: Write>(out: &mut W, text: &str) -> io::Result<()>
    ensures { OnOk result (Appends (W.contents out.old) (W.contents out.new) (visible text.now)) }
{
    for c in text.chars() {
        put_char(out, c)?;
    }
    Ok(())
}

fn put_char<W: Write>(out: &mut W, c: char) -> io::Result<()>
    ensures { OnOk result (Appends (W.contents out.old) (W.contents out.new) (visible_char c)) }
{
    if is_hidden(c) {
        put(out, Shown(c))
    } else {
        put(out, c)
    }
}

/// Whether a terminal obeys the character or does not show it.
fn is_hidden(c: char) -> bool
    ensures { result ≡ spec.is_hidden c }
{
    match c {
        '\0'..='\u{9}' | '\u{b}'..='\u{1f}' | '\u{7f}'..='\u{9f}' => true,
        '\u{61c}' | '\u{200b}'..='\u{200f}' | '\u{2028}'..='\u{202e}' => true,
        '\u{2060}'..='\u{2069}' | '\u{feff}' => true,
        _ => false,
    }
}

/// A text as it is shown in one line of a message: no character of it is hidden, and a newline too
/// is printed by its number. Fails when out of memory.
#[tactic(auto, unfolding(crate::specs::Terminal::in_line))]
pub fn in_line(alloc: Global, text: &str) -> Result<String, AllocError>
    ensures { IfOk result (λ line. string_bytes line ≡ spec.in_line text.now) }
{
    let mut line = String::new(alloc);
    for c in text.chars() {
        push_in_line(&mut line, alloc, c)?;
    }
    Ok(line)
}

fn push_in_line(line: &mut String, alloc: Global, c: char) -> Result<(), AllocError>
    ensures { OnOk result (string_bytes line.new ≡ string_bytes line.old ++ in_line_char c) }
{
    if is_hidden_in_line(c) {
        let c = Shown(c);
        line.push_str(format!(in alloc; "{c}")?.as_str())
    } else {
        line.push(c)
    }
}

/// Whether the character is hidden, or the newline.
pub(crate) fn is_hidden_in_line(c: char) -> bool
    ensures { result ≡ spec.is_hidden_in_line c }
{
    c == '\n' || is_hidden(c)
}
