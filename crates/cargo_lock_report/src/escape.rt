//! A text as it is in a report.

ghost use Rattle.std.specs.Prelude.{Some};
ghost use Rattle.std.specs.Fmt.{DisplaysOnOk};
ghost use Rattle.cargo_lock_report.specs.Escapes.{char_as, doubled_char, message_char};
ghost use Rattle.cargo_lock_report.specs.Escapes.{property_char, text_as};

use std::fmt;

// Where a text stands, and so which of its characters are escaped.
#[derive(Debug, Clone, Copy, PartialEq, Eq)]
pub(crate) enum Escape {
    // In a message of SARIF, in which a brace begins or ends the number of an argument.
    Braces,

    // As the message of an annotation.
    Message,

    // As a property of an annotation.
    Property,
}

// Displays a text as it stands there.
#[derive(Clone, Copy)]
pub(crate) struct Escaped<'a>(pub(crate) Escape, pub(crate) &'a str);

impl fmt::Display for Escaped<'_> {
    ghost use Rattle.std.specs.Prelude.{Some};
    ghost use Rattle.cargo_lock_report.specs.Escapes.{text_as};

    ghost output = { λ shown. Some (text_as shown.0 shown.1.now) };

    fn fmt<W: fmt::Write>(&self, f: &mut fmt::Formatter<W>) -> fmt::Result {
        let Escaped(escape, text) = *self;
        write_escaped(escape, text, f)
    }
}

fn write_escaped<W: fmt::Write>(
    escape: Escape,
    text: &str,
    f: &mut fmt::Formatter<W>,
) -> fmt::Result
    ensures { DisplaysOnOk W.write_str_gives f.old result (Some (text_as escape text.now)) f.new }
{
    for c in text.chars() {
        write_escaped_char(escape, c, f)?;
    }
    Ok(())
}

fn write_escaped_char<W: fmt::Write>(
    escape: Escape,
    c: char,
    f: &mut fmt::Formatter<W>,
) -> fmt::Result
    ensures { DisplaysOnOk W.write_str_gives f.old result (Some (char_as escape c)) f.new }
{
    match escape {
        Escape::Braces => write_doubled(c, f),
        Escape::Message => write_message_char(c, f),
        Escape::Property => write_property_char(c, f),
    }
}

// Writes a character of a message of SARIF.
fn write_doubled<W: fmt::Write>(c: char, f: &mut fmt::Formatter<W>) -> fmt::Result
    ensures { DisplaysOnOk W.write_str_gives f.old result (Some (doubled_char c)) f.new }
{
    if c == '{' {
        return f.write_str("{{");
    }
    if c == '}' {
        return f.write_str("}}");
    }
    f.write_char(c)
}

// Writes a character of the message of an annotation.
fn write_message_char<W: fmt::Write>(c: char, f: &mut fmt::Formatter<W>) -> fmt::Result
    ensures { DisplaysOnOk W.write_str_gives f.old result (Some (message_char c)) f.new }
{
    if c == '%' {
        return f.write_str("%25");
    }
    if c == '\r' {
        return f.write_str("%0D");
    }
    if c == '\n' {
        return f.write_str("%0A");
    }
    f.write_char(c)
}

// Writes a character of a property of an annotation.
fn write_property_char<W: fmt::Write>(c: char, f: &mut fmt::Formatter<W>) -> fmt::Result
    ensures { DisplaysOnOk W.write_str_gives f.old result (Some (property_char c)) f.new }
{
    if c == ':' {
        return f.write_str("%3A");
    }
    if c == ',' {
        return f.write_str("%2C");
    }
    write_message_char(c, f)
}
