//! Licence expressions.

ghost use Rattle.std.specs.Prelude.{◌≡◌, ◌↔◌, [], IfOk, IsTrue, is_some, map, string_bytes};
ghost use Rattle.cargo_lock_licenses.specs.Allowed.{IsAllowed};
ghost use Rattle.cargo_lock_licenses.specs.Evaluation.{evaluated};
ghost use Rattle.cargo_lock_licenses.specs.Grammar.{ReadsAs, Tree};
ghost use Rattle.cargo_lock_licenses.specs.Reading.{IsReading, tokens_of};
ghost use Rattle.cargo_lock_licenses.specs.Tokens.{token_of};

use crate::evaluation::evaluate;
use crate::token::Token;
use crate::tokens::tokens;
use std::alloc::{AllocError, Global};
use std::fmt;

/// A licence expression, as a manifest has it in `license`: names of licences, `NAME WITH NAME` for
/// a licence with an exception, `AND`, `OR` and round brackets. `AND` binds before `OR`, and `/` is
/// `OR` too. No list of licences is known here: any name will do.
///
/// `Display` writes it with one space around operators, `OR` for `/`, and the brackets that it has.
#[derive(Drop)]
pub struct Expression {
    tokens: Vec<Token>,
}

impl Expression {
    /// The expression in a text, or `None` if the text is none. A name is a run of ASCII letters,
    /// digits and `-.+:`, as long as possible; operators are in upper case; white space of ASCII
    /// (space, tab, newline, carriage return, form feed) may be between tokens; at most 100
    /// brackets are in one another. Fails when out of memory.
    ///
    /// ```
    /// let expression = Expression::parse(alloc, "MIT OR Apache-2.0")?;
    /// ```
    pub fn parse(alloc: Global, text: &str) -> Result<Option<Expression>, AllocError>
        ensures { IfOk result (IsReading text.now) }
    {
        let tokens = tokens(alloc, text)?;
        if is_expression(alloc, &tokens)? {
            Ok(Some(Expression { tokens }))
        } else {
            Ok(None)
        }
    }

    /// Whether the expression is allowed: in one of its alternatives each term, `NAME` or
    /// `NAME WITH NAME`, is one of these to the letter. Fails when out of memory.
    ///
    /// ```
    /// let is_allowed = expression.is_allowed(alloc, &allowed)?;
    /// ```
    pub fn is_allowed(&self, alloc: Global, allowed: &[String]) -> Result<bool, AllocError>
        ensures { IfOk result (λ is. (e : Tree) → ReadsAs (tokens_of self.now) e
            → IsTrue is ↔ IsAllowed (map string_bytes allowed.now) e) }
    {
        let value = evaluate(alloc, &self.tokens, allowed)?;
        Ok(value.unwrap_or(false))
    }
}

// Whether the tokens are an expression.
fn is_expression(alloc: Global, tokens: &[Token]) -> Result<bool, AllocError>
    ensures { IfOk result (λ is. is ≡ is_some (evaluated [] (map token_of tokens.now))) }
{
    let value = evaluate(alloc, tokens, &[])?;
    Ok(value.is_some())
}

impl fmt::Display for Expression {
    ghost use Rattle.std.specs.Prelude.{Some};
    ghost use Rattle.cargo_lock_licenses.specs.Printed.{printed};
    ghost use Rattle.cargo_lock_licenses.specs.Reading.{tokens_of};

    ghost output = { λ expression. Some (printed (tokens_of expression)) };

    fn fmt<W: fmt::Write>(&self, f: &mut fmt::Formatter<W>) -> fmt::Result {
        for token in &self.tokens {
            write!(f, "{token}")?;
        }
        Ok(())
    }
}
