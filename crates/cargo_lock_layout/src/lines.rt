//! The lines that Cargo writes.

ghost use Rattle.std.specs.Prelude.{◌≡◌, IfOk, drop, take, map};
ghost use Rattle.std.specs.List.{dedup};
ghost use Rattle.cargo_lock_layout.specs.Lines.{are_empty, body_place, cargo_lines, header};
ghost use Rattle.cargo_lock_layout.specs.Lines.{is_unnumbered, line_or_empty};

use crate::comments::{is_comment, kept_comments};
use std::alloc::{AllocError, Global};

/// The lines that Cargo writes in place of `written`, for a lockfile that this library prints as the
/// lines `printed`: Cargo's two comments, the comments that it keeps, and the rest. In V1 and V2
/// Cargo's own comments are missing where the first line of `written` is none.
///
/// # Errors
///
/// Out of memory.
///
/// ```
/// let wanted = cargo_lines(rt.alloc(), &written, &printed)?;
/// ```
pub fn cargo_lines<'a>(
    alloc: Global,
    written: &[&'a str],
    printed: &[&'a str],
) -> Result<Vec<&'a str>, AllocError>
    ensures { IfOk result (λ all. map (λ line. line.now) all.items
        ≡ cargo_lines (map (λ line. line.now) written.now) (map (λ line. line.now) printed.now)) }
{
    let mut all = Vec::with_capacity(alloc, printed.len())?;
    all.extend_from_slice(header(written, printed))?;
    all.extend_from_slice(&kept_comments(alloc, written)?)?;
    all.extend_from_slice(lines_from(printed, body_place(printed)))?;
    leave_one_empty(&mut all);
    Ok(all)
}

// Cargo's two comments, which may be missing if the format has no number.
fn header<'a, 'b>(written: &[&'a str], printed: &'b [&'a str]) -> &'b [&'a str]
    ensures { map (λ line. line.now) result.now ≡ header (map (λ line. line.now) written.now) (map (λ line. line.now) printed.now) }
{
    if is_unnumbered(printed) && !is_comment(line_or_empty(written, 0)) {
        &[]
    } else {
        lines_before(printed, 2)
    }
}

// Whether the format has no number in the file.
fn is_unnumbered(printed: &[&str]) -> bool
    ensures { result ≡ is_unnumbered (map (λ line. line.now) printed.now) }
{
    line_or_empty(printed, 2).is_empty()
}

// The place after the two comments at which the lines begin that Cargo writes too.
fn body_place(printed: &[&str]) -> usize
    ensures { result ≡ body_place (map (λ line. line.now) printed.now) }
{
    if is_unnumbered(printed) { 3 } else { 2 }
}

// Removes all but one of consecutive empty lines.
fn leave_one_empty(lines: &mut Vec<&str>)
    ensures { map (λ line. line.now) lines.new.items ≡ dedup are_empty (map (λ line. line.now) lines.old.items) }
{
    lines.dedup_by(|a, b| a.is_empty() && b.is_empty());
}

/// The lines before a place.
pub(crate) fn lines_before<'a, 'b>(lines: &'b [&'a str], end: usize) -> &'b [&'a str]
    ensures { result.now ≡ take end lines.now }
{
    &lines[..lines.len().min(end)]
}

/// The lines from a place on.
pub(crate) fn lines_from<'a, 'b>(lines: &'b [&'a str], start: usize) -> &'b [&'a str]
    ensures { result.now ≡ drop start lines.now }
{
    &lines[lines.len().min(start)..]
}

/// The line at a place, or an empty one after the last.
///
/// ```
/// let fourth = line_or_empty(&wanted, 3);
/// ```
pub fn line_or_empty<'a>(lines: &[&'a str], place: usize) -> &'a str
    ensures { result.now ≡ line_or_empty (map (λ line. line.now) lines.now) place }
{
    match lines.get(place) {
        Some(line) => *line,
        None => "",
    }
}
