//! The first line of a text that is not as Cargo writes it.

ghost use Rattle.std.specs.Prelude.{◌≡◌, ◌≢◌, ◌<◌, ◌+◌, ◌++◌, ℕ, IfOk, MatchOption, codes, drop};
ghost use Rattle.std.specs.Prelude.{eqb, length};
ghost use Rattle.std.specs.Bool.{Decides};
ghost use Rattle.std.specs.List.{starts_with};
ghost use Rattle.std.specs.Str.Lines.{lines};
ghost use Rattle.cargo_lock_check.specs.Text.{AreSameLines, IsFirstOther, compared_at, with_carets};
ghost use Rattle.cargo_lock_check.specs.Text.{with_carets_after};
ghost use Rattle.cargo_lock_layout.specs.Lines.{cargo_lines};
ghost use Rattle.cargo_lock.specs.Texts.{texts_at};

use cargo_lock_layout::{cargo_lines, line_or_empty};
use cargo_lock_location::lines_in;
use std::alloc::{AllocError, Global};
use std::marker::Model;

/// A line that is not as Cargo writes it.
#[derive(Debug, Drop)]
pub struct OtherLine {
    /// Its number, from 1 on.
    pub number: usize,

    /// The line, empty if the text has ended.
    pub written: String,

    /// The line that Cargo writes, empty if it writes no more.
    pub wanted: String,
}

impl Model for OtherLine {
    ghost use Rattle.std.specs.Prelude.{string_bytes};
    ghost use Rattle.cargo_lock_check.specs.Text.{OtherLineData};

    ghost Value = { OtherLineData };

    ghost view = { λ o. record {
      number = o.number;
      written = string_bytes o.written;
      wanted = string_bytes o.wanted;
    } };
}

// The first line of a text that differs from the one that Cargo writes there, where `printed` is
// the text that this library prints.
pub(crate) fn first_other_line<'a>(
    alloc: Global,
    text: &'a str,
    printed: &'a str,
) -> Result<Option<OtherLine>, AllocError>
    ensures { IfOk result (λ other. MatchOption other
        (AreSameLines (lines text.now) (cargo_lines (lines text.now) (lines printed.now)))
        (IsFirstOther (lines text.now) (cargo_lines (lines text.now) (lines printed.now)))) }
{
    let written = lines_in(alloc, text)?;
    let printed = lines_in(alloc, printed)?;
    let wanted = cargo_lines(alloc, written.as_slice(), printed.as_slice())?;
    let other = first_other(alloc, written.as_slice(), wanted.as_slice())?;
    Ok(other)
}

fn first_other(
    alloc: Global,
    written: &[&str],
    wanted: &[&str],
) -> Result<Option<OtherLine>, AllocError>
    ensures { IfOk result (λ other. MatchOption other
        (AreSameLines (texts_at written.now) (texts_at wanted.now))
        (IsFirstOther (texts_at written.now) (texts_at wanted.now))) }
{
    match other_place(alloc, written, wanted)? {
        Some(place) => Ok(Some(OtherLine {
            number: place + 1,
            written: String::from_str(alloc, line_or_empty(written, place))?,
            wanted: String::from_str(alloc, line_or_empty(wanted, place))?,
        })),
        None => Ok(None),
    }
}

// The first place at which lines differ.
fn other_place(
    alloc: Global,
    written: &[&str],
    wanted: &[&str],
) -> Result<Option<usize>, AllocError>
    ensures { IfOk result (λ other. MatchOption other
        (AreSameLines (texts_at written.now) (texts_at wanted.now))
        (λ place. (place < length written.now + length wanted.now)
        × (compared_at (texts_at written.now) place ≢ compared_at (texts_at wanted.now) place)
        × ((k : ℕ) → k < place
        → compared_at (texts_at written.now) k ≡ compared_at (texts_at wanted.now) k))) }
{
    for place in 0..written.len().max(wanted.len()) {
        if !are_same(
            alloc,
            line_or_empty(written, place),
            line_or_empty(wanted, place),
        )? {
            return Ok(Some(place));
        }
    }
    Ok(None)
}

// Whether the lines are the same, with `^` for `%5E`.
fn are_same(alloc: Global, one: &str, other: &str) -> Result<bool, AllocError>
    ensures { IfOk result
        (λ same. Decides same (with_carets one.now ≡ with_carets other.now)) }
{
    if one == other {
        return Ok(true);
    }
    let one = with_carets(alloc, one.as_bytes())?;
    let other = with_carets(alloc, other.as_bytes())?;
    Ok(one == other)
}

// The text with `^` for `%5E`.
fn with_carets(alloc: Global, text: &[u8]) -> Result<Vec<u8>, AllocError>
    ensures { IfOk result (λ plain. plain.items ≡ with_carets text.now) }
{
    let mut plain = Vec::new(alloc);
    let mut rest: usize = 0;
    for at in 0..text.len() {
        rest = put_plain(&mut plain, text, at, rest)?;
    }
    Ok(plain)
}

// Adds the byte at a place, or `^` for an escape there. Does nothing if it is one of the next
// `rest` bytes, which are skipped. Returns how many bytes are skipped after it.
fn put_plain(plain: &mut Vec<u8>, text: &[u8], at: usize, rest: usize) -> Result<usize, AllocError>
    requires { at < length text.now }
    ensures { IfOk result (λ next.
        plain.new.items ++ with_carets_after next (drop (at + 1) text.now)
        ≡ plain.old.items ++ with_carets_after rest (drop at text.now)) }
{
    if rest > 0 {
        return Ok(rest - 1);
    }
    if has_escape(text, at) {
        plain.push(b'^')?;
        return Ok(2);
    }
    plain.push(text[at])?;
    Ok(0)
}

// Whether `%5E` is at a place.
fn has_escape(text: &[u8], at: usize) -> bool
    requires { at < length text.now }
    ensures { result ≡ starts_with eqb (drop at text.now) (codes "%5E") }
{
    text[at..].starts_with(b"%5E")
}
