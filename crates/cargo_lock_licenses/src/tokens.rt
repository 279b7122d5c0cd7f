//! The tokens of a text.

ghost use Rattle.std.specs.Prelude.{◌≡◌, ◌++◌, ◌∷◌, [], IfOk, OnOk, if◌then◌else◌, map};
ghost use Rattle.std.specs.Prelude.{string_bytes};
ghost use Rattle.cargo_lock_licenses.specs.Tokens.{is_letter, sign_tokens, token_of, word_tokens};
ghost use Rattle.cargo_lock_licenses.specs.Tokens as spec;

use crate::token::Token;
use std::alloc::{AllocError, Global};
use std::mem;

// The tokens of a text.
pub(crate) fn tokens(alloc: Global, text: &str) -> Result<Vec<Token>, AllocError>
    ensures { IfOk result (λ found. map token_of found.items ≡ spec.tokens text.now) }
{
    let mut found = Vec::new(alloc);
    let mut word = String::new(alloc);
    for byte in text.as_bytes() {
        put_byte(alloc, &mut found, &mut word, *byte)?;
    }
    put_word(alloc, &mut found, &mut word)?;
    Ok(found)
}

// Adds a byte to the word before it, or ends that and adds the token of the byte.
fn put_byte(
    alloc: Global,
    found: &mut Vec<Token>,
    word: &mut String,
    byte: u8,
) -> Result<(), AllocError>
    ensures found { OnOk result (map token_of found.new.items ≡ map token_of found.old.items
        ++ (if is_letter byte then []
        else word_tokens (string_bytes word.old) ++ sign_tokens byte)) }
    ensures word { OnOk result (string_bytes word.new
        ≡ (if is_letter byte then string_bytes word.old ++ byte ∷ [] else [])) }
{
    if is_of_word(byte) {
        return word.push(char::from(byte));
    }
    put_word(alloc, found, word)?;
    put_sign(found, byte)
}

// Whether the byte can be in a word.
fn is_of_word(byte: u8) -> bool
    ensures { result ≡ is_letter byte }
{
    byte.is_ascii_alphanumeric() || byte == b'-' || byte == b'.' || byte == b'+' || byte == b':'
}

// Adds the token of a word that has ended, and empties the word.
fn put_word(alloc: Global, found: &mut Vec<Token>, word: &mut String) -> Result<(), AllocError>
    ensures found { OnOk result (map token_of found.new.items
        ≡ map token_of found.old.items ++ word_tokens (string_bytes word.old)) }
    ensures word { OnOk result (string_bytes word.new ≡ []) }
{
    if word.is_empty() {
        return Ok(());
    }
    let ended = mem::replace(word, String::new(alloc));
    found.push(Token::of_word(ended))?;
    Ok(())
}

// Adds the token of a byte between words, if it is no white space.
fn put_sign(found: &mut Vec<Token>, byte: u8) -> Result<(), AllocError>
    ensures { OnOk result (map token_of found.new.items
        ≡ map token_of found.old.items ++ sign_tokens byte) }
{
    if byte.is_ascii_whitespace() {
        return Ok(());
    }
    found.push(sign(byte))?;
    Ok(())
}

// The token of a byte between words that is no white space.
fn sign(byte: u8) -> Token
    ensures { token_of result ≡ spec.sign_token byte }
{
    match byte {
        b'(' => Token::Open,
        b')' => Token::Close,
        b'/' => Token::Or,
        _ => Token::Other,
    }
}
