//! The terms of expressions.

ghost use Rattle.std.specs.Prelude.{◌≡◌, ◌++◌, ◌↔◌, ◌∷◌, [], IfOk, IsTrue, OnOk, map};
ghost use Rattle.std.specs.Prelude.{string_bytes};
ghost use Rattle.cargo_lock_licenses.specs.Grammar.{with_exception};
ghost use Rattle.cargo_lock_licenses.specs.Terms.{IsTerm, Nothing, begun_after, begun_of, ended};
ghost use Rattle.cargo_lock_licenses.specs.Terms.{ended_at, ended_by_name, terms_behind};
ghost use Rattle.cargo_lock_licenses.specs.Terms as spec;
ghost use Rattle.cargo_lock_licenses.specs.Tokens.{token_of};

use crate::token::Token;
use crate::tokens::tokens;
use std::alloc::{AllocError, Global};

// What has begun of a term.
#[derive(Clone, Copy)]
enum Begun<'a> {
    // Nothing.
    Nothing,

    // A name.
    Name(&'a String),

    // A name and `WITH`.
    Exempt(&'a String),
}

impl<'a> Begun<'a> {
    // What has begun after a token.
    fn after(self, token: &'a Token) -> Begun<'a>
        ensures { begun_of result ≡ begun_after (begun_of self.entry) (token_of token.now) }
    {
        match token {
            Token::With => self.after_with(),
            Token::Id(id) => self.after_name(id),
            Token::Open | Token::Close | Token::Or | Token::And | Token::Other => Begun::Nothing,
        }
    }

    fn after_with(self) -> Begun<'a>
        ensures { begun_of result ≡ spec.after_with (begun_of self.entry) }
    {
        match self {
            Begun::Name(id) => Begun::Exempt(id),
            Begun::Nothing | Begun::Exempt(_) => Begun::Nothing,
        }
    }

    fn after_name(self, name: &'a String) -> Begun<'a>
        ensures { begun_of result ≡ spec.after_name (string_bytes name.now) (begun_of self.entry) }
    {
        match self {
            Begun::Nothing | Begun::Name(_) => Begun::Name(name),
            Begun::Exempt(_) => Begun::Nothing,
        }
    }
}

/// Whether a text is one term to the letter: `NAME` or `NAME WITH NAME`, without operators and
/// brackets. Fails when out of memory.
///
/// ```
/// let is_term = is_term(alloc, "Apache-2.0 WITH LLVM-exception")?;
/// ```
pub fn is_term(alloc: Global, text: &str) -> Result<bool, AllocError>
    ensures { IfOk result (λ is. IsTrue is ↔ IsTerm text.now) }
{
    let terms = terms(alloc, text)?;
    Ok(is_only(&terms, text))
}

// Whether a text is the only one.
fn is_only(terms: &[String], text: &str) -> bool
    ensures { IsTrue result ↔ (map string_bytes terms.now ≡ text.now ∷ []) }
{
    match terms {
        [only] => only.as_str() == text,
        _ => false,
    }
}

/// The terms of a text, from left to right. Fails when out of memory.
pub(crate) fn terms(alloc: Global, text: &str) -> Result<Vec<String>, AllocError>
    ensures { IfOk result (λ terms. map string_bytes terms.items ≡ spec.terms text.now) }
{
    let tokens = tokens(alloc, text)?;
    terms_of(alloc, &tokens)
}

// The terms of tokens.
fn terms_of(alloc: Global, tokens: &[Token]) -> Result<Vec<String>, AllocError>
    ensures { IfOk result (λ terms. map string_bytes terms.items
        ≡ terms_behind Nothing (map token_of tokens.now)) }
{
    let mut terms = Vec::new(alloc);
    let mut begun = Begun::Nothing;
    for token in tokens {
        put_ended(alloc, &mut terms, begun, token)?;
        begun = begun.after(token);
    }
    put(alloc, &mut terms, begun)?;
    Ok(terms)
}

// Adds the term that ends at a token.
fn put_ended(
    alloc: Global,
    terms: &mut Vec<String>,
    begun: Begun<'_>,
    token: &Token,
) -> Result<(), AllocError>
    ensures { OnOk result (map string_bytes terms.new.items ≡ map string_bytes terms.old.items
        ++ ended_at (begun_of begun.entry) (token_of token.now)) }
{
    match token {
        Token::With => Ok(()),
        Token::Id(id) => put_by_name(alloc, terms, begun, id),
        Token::Open | Token::Close | Token::Or | Token::And | Token::Other => {
            put(alloc, terms, begun)
        }
    }
}

// Adds the term that ends at a name.
fn put_by_name(
    alloc: Global,
    terms: &mut Vec<String>,
    begun: Begun<'_>,
    name: &String,
) -> Result<(), AllocError>
    ensures { OnOk result (map string_bytes terms.new.items ≡ map string_bytes terms.old.items
        ++ ended_by_name (string_bytes name.now) (begun_of begun.entry)) }
{
    match begun {
        Begun::Exempt(id) => {
            terms.push(with_exception(alloc, id, name)?)?;
            Ok(())
        }
        Begun::Nothing | Begun::Name(_) => put(alloc, terms, begun),
    }
}

// A term with an exception.
fn with_exception(alloc: Global, id: &String, exception: &String) -> Result<String, AllocError>
    ensures { IfOk result (λ text. string_bytes text
        ≡ with_exception (string_bytes id.now) (string_bytes exception.now)) }
{
    let text = format!(in alloc; "{id} WITH {exception}")?;
    Ok(text)
}

// Adds the term that ends where no name and no `WITH` follows.
fn put(alloc: Global, terms: &mut Vec<String>, begun: Begun<'_>) -> Result<(), AllocError>
    ensures { OnOk result (map string_bytes terms.new.items
        ≡ map string_bytes terms.old.items ++ ended (begun_of begun.entry)) }
{
    if let Begun::Name(id) = begun {
        terms.push(String::from_str(alloc, id)?)?;
    }
    Ok(())
}
