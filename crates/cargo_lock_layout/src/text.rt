//! The text that Cargo writes.

ghost use Rattle.std.specs.Prelude.{◌≡◌, ◌++◌, IfOk, string_bytes, map};
ghost use Rattle.std.specs.Str.Lines.{lines};
ghost use Rattle.cargo_lock_layout.specs.Lines as spec;
ghost use Rattle.cargo_lock_lines.specs.Layout.{comment_lines, join_lines};

use crate::comments::{FIRST, SECOND};
use crate::lines::{cargo_lines, line_or_empty, lines_before};
use cargo_lock_location::lines_in;
use std::alloc::{AllocError, Global};

/// The text that Cargo writes below its own two comments and these, where `printed` is the text that
/// this library prints. Each comment ends with a newline. In V1 without metadata Cargo leaves one more
/// line empty at the end; such a text is read as V2.
///
/// # Errors
///
/// Out of memory.
///
/// ```
/// let text = cargo_text(rt.alloc(), "# by our team\n", printed.as_str())?;
/// ```
pub fn cargo_text(alloc: Global, comments: &str, printed: &str) -> Result<String, AllocError>
    ensures { IfOk result (λ text. string_bytes text ≡ spec.cargo_text comments.now printed.now) }
{
    let written = below_own(alloc, comments)?;
    let printed = lines_in(alloc, printed)?;
    let all = cargo_lines(alloc, written.as_slice(), printed.as_slice())?;
    joined(alloc, without_empty_end(all.as_slice()))
}

// Cargo's own comments, and these.
fn below_own<'a>(alloc: Global, comments: &'a str) -> Result<Vec<&'a str>, AllocError>
    ensures { IfOk result
        (λ all. map (λ line. line.now) all.items ≡ comment_lines ++ lines comments.now) }
{
    let lines = lines_in(alloc, comments)?;
    let mut all = Vec::new(alloc);
    all.push(FIRST)?;
    all.push(SECOND)?;
    all.extend_from_slice(&lines)?;
    Ok(all)
}

// The lines without an empty one at the end.
fn without_empty_end<'a, 'b>(lines: &'b [&'a str]) -> &'b [&'a str]
    ensures { map (λ line. line.now) result.now ≡ spec.without_empty_end (map (λ line. line.now) lines.now) }
{
    let end = lines.len().saturating_sub(1);
    if line_or_empty(lines, end).is_empty() {
        lines_before(lines, end)
    } else {
        lines
    }
}

/// The lines, each with its newline.
pub(crate) fn joined(alloc: Global, lines: &[&str]) -> Result<String, AllocError>
    ensures { IfOk result (λ text. string_bytes text ≡ join_lines (map (λ line. line.now) lines.now)) }
{
    let mut text = String::new(alloc);
    for line in lines {
        text.push_str(line)?;
        text.push('\n')?;
    }
    Ok(text)
}
