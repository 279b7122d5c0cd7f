//! The tokens of a licence expression.

ghost use Rattle.std.specs.Prelude.{◌≡◌, string_bytes};
ghost use Rattle.cargo_lock_licenses.specs.Tokens.{token_of, word_token};

use std::fmt;

// A token of a licence expression. `Display` writes it with the spaces around it.
#[derive(Drop)]
pub(crate) enum Token {
    // `(`.
    Open,

    // `)`.
    Close,

    // `OR`, or `/`.
    Or,

    // `AND`.
    And,

    // `WITH`.
    With,

    // A name of a licence or of an exception.
    Id(String),

    // A byte that is in no expression.
    Other,
}

impl Token {
    // The token of a word.
    pub(crate) fn of_word(word: String) -> Token
        ensures { token_of result ≡ word_token (string_bytes word) }
    {
        if word.as_str() == "OR" {
            Token::Or
        } else if word.as_str() == "AND" {
            Token::And
        } else if word.as_str() == "WITH" {
            Token::With
        } else {
            Token::Id(word)
        }
    }
}

impl fmt::Display for Token {
    ghost use Rattle.std.specs.Prelude.{Some};
    ghost use Rattle.cargo_lock_licenses.specs.Printed.{token_text};
    ghost use Rattle.cargo_lock_licenses.specs.Tokens.{token_of};

    ghost output = { λ token. Some (token_text (token_of token)) };

    fn fmt<W: fmt::Write>(&self, f: &mut fmt::Formatter<W>) -> fmt::Result {
        match self {
            Token::Open => f.write_str("("),
            Token::Close => f.write_str(")"),
            Token::Or => f.write_str(" OR "),
            Token::And => f.write_str(" AND "),
            Token::With => f.write_str(" WITH "),
            Token::Id(id) => f.write_str(id),
            Token::Other => Ok(()),
        }
    }
}
