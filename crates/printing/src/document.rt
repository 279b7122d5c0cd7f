//! A document of JSON that is being written, token by token, with its keys in the order in which
//! they are written.

ghost use Rattle.std.specs.Prelude.{◌≡◌, ◌∷◌, [], All, IfSome, decimal, string_bytes};
ghost use Rattle.std.specs.Str.{IsUtf8};
ghost use Rattle.json.specs.Lex.{tokens};
ghost use Rattle.json.specs.Print.{IsPrintable};
ghost use Rattle.json.specs.Reads.{token_of};
ghost use Rattle.json.specs.Token as token;
ghost use Rattle.printing.specs.Json.{Adds, HasDecimal, IsPlain, draft_of, empty, laid_out};

use json::{Pretty, Token, Writer};
use std::alloc::{AllocError, Global};
use std::fmt;
use std::marker::Model;

/// How the text of a document is laid out.
#[derive(Clone, Copy)]
pub enum Layout {
    /// In one line, without spaces between its parts.
    Line,

    /// With one member or item per line, indented.
    Lines,
}

// What writes the tokens.
#[derive(Drop)]
enum Tokens {
    Line(Writer),
    Lines(Pretty),
}

/// A document of JSON that is being written. Contracts see its layout and its tokens. Each call
/// fails when out of memory, and the document can then not be used any more. A caller writes the
/// tokens of one value: `json_tokens` of the kit's crate `json` has those of a value.
///
/// ```
/// let mut out = JsonWriter::new(alloc, Layout::Line);
/// out.begin_object()?;
/// out.string_member("name", "serde")?;
/// out.end_object()?;
/// let text = out.into_string();
/// ```
#[derive(Drop)]
pub struct JsonWriter {
    alloc: Global,
    tokens: Tokens,
}

impl Model for JsonWriter {
    ghost use Rattle.printing.specs.Json.{Draft, IsPlain, draft_of};

    ghost Value = { Draft };

    ghost view = { λ out. draft_of out.tokens };

    ghost invariant = { λ out. IsPlain out.tokens };
}

impl JsonWriter {
    /// A document without tokens.
    pub fn new(alloc: Global, layout: Layout) -> JsonWriter
        ensures { result ≡ empty layout }
    {
        let tokens = match layout {
            Layout::Line => Tokens::Line(Writer::new(Vec::new(alloc))),
            Layout::Lines => Tokens::Lines(Pretty::new(alloc)),
        };
        JsonWriter { alloc, tokens }
    }

    /// The text, in its layout.
    pub fn into_string(self) -> String
        ensures text { string_bytes result ≡ laid_out self.layout self.tokens }
        ensures tokens { tokens (string_bytes result) ≡ self.tokens }
        ensures numbers { All HasDecimal self.tokens }
    {
        match String::from_utf8(bytes_of(self.tokens)) {
            Ok(text) => text,
            Err(_) => unreachable!(),
        }
    }

    // One token more.
    fn token(&mut self, token: Token<'_>) -> Result<(), AllocError>
        requires printable { IsPrintable (token_of token) }
        requires decimal { HasDecimal (token_of token) }
        ensures { Adds result self.old self.new (token_of token.entry ∷ []) }
    {
        match &mut self.tokens {
            Tokens::Line(out) => out.token(token),
            Tokens::Lines(out) => out.token(token),
        }
    }

    /// An object opens.
    pub fn begin_object(&mut self) -> Result<(), AllocError>
        ensures { Adds result self.old self.new (token.begin_object ∷ []) }
    {
        self.token(Token::BeginObject)
    }

    /// An object ends.
    pub fn end_object(&mut self) -> Result<(), AllocError>
        ensures { Adds result self.old self.new (token.end_object ∷ []) }
    {
        self.token(Token::EndObject)
    }

    /// An array opens.
    pub fn begin_array(&mut self) -> Result<(), AllocError>
        ensures { Adds result self.old self.new (token.begin_array ∷ []) }
    {
        self.token(Token::BeginArray)
    }

    /// An array ends.
    pub fn end_array(&mut self) -> Result<(), AllocError>
        ensures { Adds result self.old self.new (token.end_array ∷ []) }
    {
        self.token(Token::EndArray)
    }

    /// The key of a member, whose value comes next.
    pub fn key(&mut self, key: &str) -> Result<(), AllocError>
        ensures { Adds result self.old self.new (token.key key.now ∷ []) }
    {
        self.token(Token::Key(key))
    }

    /// A value that is null.
    pub fn null(&mut self) -> Result<(), AllocError>
        ensures { Adds result self.old self.new (token.null ∷ []) }
    {
        self.token(Token::Null)
    }

    /// A value that is a text.
    pub fn string(&mut self, text: &str) -> Result<(), AllocError>
        ensures { Adds result self.old self.new (token.string text.now ∷ []) }
    {
        self.token(Token::String(text))
    }

    /// A value that is a number.
    pub fn number(&mut self, number: u64) -> Result<(), AllocError>
        ensures { Adds result self.old self.new (token.number (decimal number) ∷ []) }
    {
        let mut buffer = itoa::Buffer::new();
        self.token(Token::Number(buffer.format(number)))
    }

    /// A value that is true or false.
    pub fn boolean(&mut self, is_true: bool) -> Result<(), AllocError>
        ensures { Adds result self.old self.new (token.boolean is_true ∷ []) }
    {
        self.token(Token::Bool(is_true))
    }

    /// A member whose value is null.
    pub fn null_member(&mut self, key: &str) -> Result<(), AllocError>
        ensures { Adds result self.old self.new (token.key key.now ∷ token.null ∷ []) }
    {
        self.key(key)?;
        self.null()
    }

    /// A member whose value is a text.
    pub fn string_member(&mut self, key: &str, text: &str) -> Result<(), AllocError>
        ensures { Adds result self.old self.new (token.key key.now ∷ token.string text.now ∷ []) }
    {
        self.key(key)?;
        self.string(text)
    }

    /// A member whose value is a number.
    pub fn number_member(&mut self, key: &str, number: u64) -> Result<(), AllocError>
        ensures { Adds result self.old self.new
            (token.key key.now ∷ token.number (decimal number) ∷ []) }
    {
        self.key(key)?;
        self.number(number)
    }

    /// A member whose value is true or false.
    pub fn boolean_member(&mut self, key: &str, is_true: bool) -> Result<(), AllocError>
        ensures { Adds result self.old self.new (token.key key.now ∷ token.boolean is_true ∷ []) }
    {
        self.key(key)?;
        self.boolean(is_true)
    }

    /// A member whose value is what is displayed.
    pub fn displayed_member<D: fmt::Display>(
        &mut self,
        key: &str,
        value: &D,
    ) -> Result<(), AllocError>
        ensures { IfSome (D.output value.now)
            (λ text. Adds result self.old self.new (token.key key.now ∷ token.string text ∷ [])) }
    {
        let text = value.to_string(self.alloc)?;
        self.string_member(key, text.as_str())
    }
}

// The bytes of a document.
fn bytes_of(written: Tokens) -> Vec<u8>
    requires { IsPlain written }
    ensures tokens { tokens result.items ≡ (draft_of written).tokens }
    ensures layout { result.items ≡ laid_out (draft_of written).layout (draft_of written).tokens }
    ensures utf8 { IsUtf8 result.items }
{
    match written {
        Tokens::Line(out) => out.into_inner(),
        Tokens::Lines(out) => out.into_inner(),
    }
}
