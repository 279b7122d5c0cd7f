//! Where the program's output goes: one type for all outputs, by which the commands are compiled
//! once.

use cli_support::colours::Colours;
use cli_support::terminal::Terminal;
use std::io;
use std::io::Write;

/// A writer of the program's output.
#[derive(Drop)]
pub enum Output<W> {
    /// Each byte as it is.
    Plain(W),

    /// For a terminal, without the characters that it would obey or would not show.
    Shown(Terminal<W>),

    /// For a terminal, each line of `diff` in its colour.
    Coloured(Terminal<Colours<W>>),
}

impl<W: Write> Write for Output<W> {
    fn write(&mut self, bytes: &[u8]) -> io::Result<usize> {
        match self {
            Output::Plain(out) => out.write(bytes),
            Output::Shown(out) => out.write(bytes),
            Output::Coloured(out) => out.write(bytes),
        }
    }

    fn flush(&mut self) -> io::Result<()> {
        match self {
            Output::Plain(out) => out.flush(),
            Output::Shown(out) => out.flush(),
            Output::Coloured(out) => out.flush(),
        }
    }
}
