//! Which characters are not escaped.

ghost use Rattle.std.specs.Prelude.{◌≡◌};
ghost use Rattle.printing.specs.Shown as spec;

/// The place in which a text is shown.
#[derive(Clone, Copy)]
pub enum Form {
    /// As a part of a line without spaces: U+0021 to U+007E are kept, except the backslash.
    Plain,

    /// Between backquotes: the space is kept too, and the backquote is not.
    Quoted,
}

impl Form {
    /// Whether the character is not escaped.
    pub fn keeps(self, c: char) -> bool
        ensures { result ≡ spec.is_kept self c }
    {
        match self {
            Form::Plain => ('!'..='~').contains(&c) && c != '\\',
            Form::Quoted => (' '..='~').contains(&c) && c != '\\' && c != '`',
        }
    }
}
