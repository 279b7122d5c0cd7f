//! What an expression is worth, where a term is true exactly if it is allowed.

ghost use Rattle.std.specs.Prelude.{◌≡◌, [], IfOk, map, string_bytes};
ghost use Rattle.std.specs.List.{list_any};
ghost use Rattle.std.specs.Prelude.{bytes_eq, option_and_then, option_map};
ghost use Rattle.cargo_lock_licenses.specs.Evaluation.{Steps, after_name, after_with, and_level};
ghost use Rattle.cargo_lock_licenses.specs.Evaluation.{at_level, closed, ended_with, last_of};
ghost use Rattle.cargo_lock_licenses.specs.Evaluation.{opened, or_level, start, state_of, step};
ghost use Rattle.cargo_lock_licenses.specs.Evaluation.{value_of, with_last};
ghost use Rattle.cargo_lock_licenses.specs.Evaluation as spec;
ghost use Rattle.cargo_lock_licenses.specs.Grammar.{with_exception};
ghost use Rattle.cargo_lock_licenses.specs.Tokens.{token_of};

use crate::token::Token;
use std::alloc::{AllocError, Global};
use std::collections::VecDeque;

// How many brackets can be open at once.
const MOST_OPEN: usize = 100;

// What was read of a bracket, or of the whole.
#[derive(Clone, Copy)]
struct Level {
    // One of the alternatives before the last `OR` is true.
    any: bool,

    // All that is joined by `AND` since then is true, up to the last `AND`.
    all: bool,
}

impl Level {
    // Nothing was read.
    fn at_start() -> Level
        ensures { result ≡ spec.at_start }
    {
        Level {
            any: false,
            all: true,
        }
    }

    // Whether the bracket is true if it ends with this.
    fn ended_with(self, value: bool) -> bool
        ensures { result ≡ ended_with self value }
    {
        self.any || self.all && value
    }
}

// What was read last.
#[derive(Clone, Copy)]
enum Last<'a> {
    // An operator, a bracket that opens, or nothing.
    Operator,

    // A name.
    Name(&'a String),

    // A name and `WITH`.
    Exempt(&'a String),

    // A term or a bracket that has ended, and whether it is true.
    Value(bool),
}

impl Last<'_> {
    // Whether an operand comes next.
    fn is_operator(self) -> bool
        ensures { result ≡ spec.is_operator (last_of self.entry) }
    {
        match self {
            Last::Operator => true,
            Last::Name(_) | Last::Exempt(_) | Last::Value(_) => false,
        }
    }

    // Whether it is true, if it can be an operand.
    fn value(self, allowed: &[String]) -> Option<bool>
        ensures { result ≡ value_of (map string_bytes allowed.now) (last_of self.entry) }
    {
        match self {
            Last::Name(id) => Some(is_allowed(id, allowed)),
            Last::Value(value) => Some(value),
            Last::Operator | Last::Exempt(_) => None,
        }
    }
}

// What was read of an expression.
#[derive(Drop)]
struct Evaluation<'a> {
    // What was read of the brackets around the innermost open one, the innermost first.
    around: VecDeque<Level>,

    // What was read of the innermost open bracket.
    level: Level,

    last: Last<'a>,
}

// Whether the tokens are an expression, and if so, whether it is true.
pub(crate) fn evaluate(
    alloc: Global,
    tokens: &[Token],
    allowed: &[String],
) -> Result<Option<bool>, AllocError>
    ensures { IfOk result (λ value. value
        ≡ spec.evaluated (map string_bytes allowed.now) (map token_of tokens.now)) }
{
    let mut evaluation = Evaluation {
        around: VecDeque::new(alloc),
        level: Level::at_start(),
        last: Last::Operator,
    };
    for token in tokens {
        if !evaluation.read(alloc, token, allowed)? {
            return Ok(None);
        }
    }
    Ok(evaluation.end(allowed))
}

impl<'a> Evaluation<'a> {
    // Reads a token. Returns whether an expression can go on so.
    fn read(
        &mut self,
        alloc: Global,
        token: &'a Token,
        allowed: &[String],
    ) -> Result<bool, AllocError>
        ensures { IfOk result (Steps (step (map string_bytes allowed.now) (state_of self.old)
            (token_of token.now)) (state_of self.new)) }
    {
        match token {
            Token::Open => self.open(),
            Token::Close => Ok(self.close(allowed)),
            Token::Or => Ok(self.read_or(allowed)),
            Token::And => Ok(self.read_and(allowed)),
            Token::With => Ok(self.read_with()),
            Token::Id(id) => self.read_name(alloc, id, allowed),
            Token::Other => Ok(false),
        }
    }

    fn open(&mut self) -> Result<bool, AllocError>
        ensures { IfOk result (Steps (opened (state_of self.old) (last_of self.old.last))
            (state_of self.new)) }
    {
        if !self.last.is_operator() || self.around.len() >= MOST_OPEN {
            return Ok(false);
        }
        self.around.push_front(self.level)?;
        self.level = Level::at_start();
        Ok(true)
    }

    fn close(&mut self, allowed: &[String]) -> bool
        ensures { Steps (option_and_then (λ v. closed self.old.around.items
            (ended_with self.old.level v)) (value_of (map string_bytes allowed.now)
            (last_of self.old.last))) (state_of self.new) result }
    {
        let Some(value) = self.last.value(allowed) else {
            return false;
        };
        let Some(outer) = self.around.pop_front() else {
            return false;
        };
        self.last = Last::Value(self.level.ended_with(value));
        self.level = outer;
        true
    }

    fn read_or(&mut self, allowed: &[String]) -> bool
        ensures { Steps (option_map (λ v. at_level (state_of self.old) (or_level self.old.level v))
            (value_of (map string_bytes allowed.now) (last_of self.old.last)))
            (state_of self.new) result }
    {
        let Some(value) = self.last.value(allowed) else {
            return false;
        };
        let any = self.level.ended_with(value);
        self.level = Level { any, all: true };
        self.last = Last::Operator;
        true
    }

    fn read_and(&mut self, allowed: &[String]) -> bool
        ensures { Steps (option_map (λ v. at_level (state_of self.old) (and_level self.old.level v))
            (value_of (map string_bytes allowed.now) (last_of self.old.last)))
            (state_of self.new) result }
    {
        let Some(value) = self.last.value(allowed) else {
            return false;
        };
        self.level.all = self.level.all && value;
        self.last = Last::Operator;
        true
    }

    fn read_with(&mut self) -> bool
        ensures { Steps (option_map (with_last (state_of self.old)) (after_with
            (last_of self.old.last))) (state_of self.new) result }
    {
        match self.last {
            Last::Name(id) => {
                self.last = Last::Exempt(id);
                true
            }
            Last::Operator | Last::Exempt(_) | Last::Value(_) => false,
        }
    }

    fn read_name(
        &mut self,
        alloc: Global,
        name: &'a String,
        allowed: &[String],
    ) -> Result<bool, AllocError>
        ensures { IfOk result (Steps (option_map (with_last (state_of self.old)) (after_name
            (map string_bytes allowed.now) (string_bytes name.now) (last_of self.old.last)))
            (state_of self.new)) }
    {
        match self.last {
            Last::Operator => {
                self.last = Last::Name(name);
                Ok(true)
            }
            Last::Exempt(id) => {
                self.last = Last::Value(is_allowed_with(alloc, id, name, allowed)?);
                Ok(true)
            }
            Last::Name(_) | Last::Value(_) => Ok(false),
        }
    }

    // Whether what was read is true, if it is an expression.
    fn end(&self, allowed: &[String]) -> Option<bool>
        ensures { result ≡ spec.run (map string_bytes allowed.now) (state_of self.now) [] }
    {
        if !self.around.is_empty() {
            return None;
        }
        let value = self.last.value(allowed)?;
        Some(self.level.ended_with(value))
    }
}

// Whether a term with an exception is allowed.
fn is_allowed_with(
    alloc: Global,
    id: &String,
    exception: &String,
    allowed: &[String],
) -> Result<bool, AllocError>
    ensures { IfOk result (λ is. is ≡ spec.is_term (map string_bytes allowed.now)
        (with_exception (string_bytes id.now) (string_bytes exception.now))) }
{
    let term = format!(in alloc; "{id} WITH {exception}")?;
    Ok(is_allowed(&term, allowed))
}

// Whether a term is allowed.
fn is_allowed(text: &String, allowed: &[String]) -> bool
    ensures { result ≡ spec.is_term (map string_bytes allowed.now) (string_bytes text.now) }
{
    is_among(text, allowed)
}

// The same, as a test of each text of the program.
fn is_among(text: &String, allowed: &[String]) -> bool
    ensures { result ≡ list_any (λ t. bytes_eq (string_bytes t) (string_bytes text.now))
        allowed.now }
{
    allowed.iter().any(|term| *term == *text)
}
