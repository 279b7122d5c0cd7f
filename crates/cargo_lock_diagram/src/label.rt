//! Labels of packages in texts that other programs draw.

ghost use Rattle.std.specs.Prelude.{◌≡◌, Some, option_map};
ghost use Rattle.std.specs.Fmt.{DisplaysOnOk};
ghost use Rattle.cargo_lock_diagram.specs.Labels.{escaped, escaped_char};
ghost use Rattle.cargo_lock_diagram.specs.Labels as spec;

use std::fmt;
use std::fmt::Formatter;

/// The program that draws a text.
#[derive(Clone, Copy, Debug, PartialEq, Eq)]
pub enum Target {
    /// Graphviz.
    Dot,

    /// Mermaid.
    Mermaid,
}

/// Displays a value as the label of a node, between quotes, which are not written. No value can end
/// its label.
#[derive(Clone, Copy)]
pub struct Label<T>(pub Target, pub T);

impl<T: fmt::Display> fmt::Display for Label<T> {
    ghost use Rattle.std.specs.Prelude.{option_map};
    ghost use Rattle.cargo_lock_diagram.specs.Labels.{escaped};

    ghost output = { λ x. option_map (escaped x.0) (T.output x.1) };

    fn fmt<W: fmt::Write>(&self, f: &mut Formatter<W>) -> fmt::Result {
        write_escaped(self.0, &self.1, f)
    }
}

// What `Display` writes of the value, as it is in a label.
fn write_escaped<T: fmt::Display, W: fmt::Write>(
    target: Target,
    value: &T,
    f: &mut Formatter<W>,
) -> fmt::Result
    ensures { DisplaysOnOk W.write_str_gives f.old result
        (option_map (escaped target) (T.output value.now)) f.new }
{
    let mut g = Formatter::new(LabelWriter { target, inner: f });
    let result = g.write(value);
    let LabelWriter { target: _, inner } = g.into_inner();
    // No effect at run time. The proof reads what `f` holds from this use of `inner`.
    let _ = &*inner;
    result
}

// A writer that passes texts to a formatter as they are in a label.
#[derive(Drop)]
struct LabelWriter<'a, W> {
    target: Target,
    inner: &'a mut Formatter<W>,
}

impl<W: fmt::Write> fmt::Write for LabelWriter<'_, W> {
    ghost use Rattle.cargo_lock_diagram.specs.Labelling.{EscapesLabelText};

    ghost write_str_gives = { EscapesLabelText W.write_str_gives };

    fn write_str(&mut self, s: &str) -> fmt::Result {
        let target = self.target;
        write_text(target, s, self.inner)
    }
}

#[tactic(auto, unfolding(crate::specs::Labels::escaped))]
fn write_text<W: fmt::Write>(target: Target, text: &str, f: &mut Formatter<W>) -> fmt::Result
    ensures { DisplaysOnOk W.write_str_gives f.old result (Some (escaped target text.now)) f.new }
{
    for c in text.chars() {
        write_char(target, c, f)?;
    }
    Ok(())
}

fn write_char<W: fmt::Write>(target: Target, c: char, f: &mut Formatter<W>) -> fmt::Result
    ensures { DisplaysOnOk W.write_str_gives f.old result (Some (escaped_char target c)) f.new }
{
    match target {
        Target::Dot => {
            if c == '"' || c == '\\' {
                return write!(f, "\\{c}");
            }
            if c == '&' {
                return f.write_str("&amp;");
            }
            f.write_char(c)
        }
        Target::Mermaid => {
            if is_plain(c) {
                return f.write_char(c);
            }
            let number = c as u32;
            write!(f, "#{number};")
        }
    }
}

// Whether Mermaid reads the character as itself in each place.
fn is_plain(c: char) -> bool
    ensures { result ≡ spec.is_plain c }
{
    is_letter_or_digit(c) || is_mark(c)
}

fn is_letter_or_digit(c: char) -> bool
    ensures { result ≡ spec.is_letter_or_digit c }
{
    ('0'..='9').contains(&c) || ('A'..='Z').contains(&c) || ('a'..='z').contains(&c)
}

fn is_mark(c: char) -> bool
    ensures { result ≡ spec.is_mark c }
{
    c == ' ' || c == '+' || c == '-' || c == '.' || c == '_'
}
