//! A text as it is shown, and a writer that shows each text that is written to it.

ghost use Rattle.std.specs.Prelude.{◌≡◌, ℕ, List, Some, option_map};
ghost use Rattle.std.specs.Fmt.{DisplaysOnOk};
ghost use Rattle.printing.specs.Shown.{by_number, shown, shown_char};

use crate::form::Form;
use std::fmt;
use std::fmt::Formatter;

/// Displays a value as a part of a line without spaces: what `Display` writes of it, with each
/// backslash and each character that is not visible ASCII as `\u{..}`.
#[derive(Clone, Copy)]
pub struct Shown<T>(pub T);

impl<T: fmt::Display> fmt::Display for Shown<T> {
    ghost use Rattle.std.specs.Prelude.{option_map};
    ghost use Rattle.printing.specs.Shown.{shown};
    ghost use Rattle.printing.specs.declared.form.Form.TheVariants.{Plain};

    ghost output = { λ x. option_map (shown Plain) (T.output x.0) };

    fn fmt<W: fmt::Write>(&self, f: &mut Formatter<W>) -> fmt::Result {
        write_shown(Form::Plain, &self.0, f)
    }
}

/// Displays a value as `Shown` does for a place between backquotes, which are not written: a space
/// is kept, and a backquote is not.
#[derive(Clone, Copy)]
pub struct Quoted<T>(pub T);

impl<T: fmt::Display> fmt::Display for Quoted<T> {
    ghost use Rattle.std.specs.Prelude.{option_map};
    ghost use Rattle.printing.specs.Shown.{shown};
    ghost use Rattle.printing.specs.declared.form.Form.TheVariants.{Quoted};

    ghost output = { λ x. option_map (shown Quoted) (T.output x.0) };

    fn fmt<W: fmt::Write>(&self, f: &mut Formatter<W>) -> fmt::Result {
        write_shown(Form::Quoted, &self.0, f)
    }
}

// What `Display` writes of the value, as it is shown.
fn write_shown<T: fmt::Display, W: fmt::Write>(
    form: Form,
    value: &T,
    f: &mut Formatter<W>,
) -> fmt::Result
    ensures { DisplaysOnOk W.write_str_gives f.old result
        (option_map (shown form) (T.output value.now)) f.new }
{
    let mut g = Formatter::new(ShowingWriter { form, inner: f });
    let result = g.write(value);
    let ShowingWriter { form: _, inner } = g.into_inner();
    // No effect at run time. The proof reads what `f` holds from this use of `inner`.
    let _ = &*inner;
    result
}

// A writer that passes texts to a formatter as they are shown.
#[derive(Drop)]
struct ShowingWriter<'a, W> {
    form: Form,
    inner: &'a mut Formatter<W>,
}

impl<W: fmt::Write> fmt::Write for ShowingWriter<'_, W> {
    ghost use Rattle.printing.specs.Writing.{ShowsText};

    ghost write_str_gives = { ShowsText W.write_str_gives };

    fn write_str(&mut self, s: &str) -> fmt::Result {
        let form = self.form;
        write_text(form, s, self.inner)
    }
}

#[tactic(auto, unfolding(crate::specs::Shown::shown))]
fn write_text<W: fmt::Write>(form: Form, text: &str, f: &mut Formatter<W>) -> fmt::Result
    ensures { DisplaysOnOk W.write_str_gives f.old result (Some (shown form text.now)) f.new }
{
    for c in text.chars() {
        write_char(form, c, f)?;
    }
    Ok(())
}

fn write_char<W: fmt::Write>(form: Form, c: char, f: &mut Formatter<W>) -> fmt::Result
    ensures { DisplaysOnOk W.write_str_gives f.old result (Some (shown_char form c)) f.new }
{
    if form.keeps(c) {
        return f.write_char(c);
    }
    let number = c as u32;
    write!(f, "\\u{{{number:x}}}")
}
