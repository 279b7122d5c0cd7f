//! The file of an advisory as lines: its front matter, and its title.

ghost use Rattle.std.specs.Prelude.{◌≡◌, ◌<◌, ◌++◌, IfOk, IfSome, OnOk, length, option_map};
ghost use Rattle.std.specs.Prelude.{◌+◌, drop, position, string_bytes, take};
ghost use Rattle.std.specs.Str.{trim_start};
ghost use Rattle.std.specs.Str.Lines.{lines};
ghost use Rattle.cargo_lock_parts.specs.Error.{IsParseOrMemory, Reads};
ghost use Rattle.cargo_lock_audit.specs.FrontMatter.{body_of, front_length, is_fence, joined};
ghost use Rattle.cargo_lock_audit.specs.FrontMatter.{line_text, lines_at, title_in, title_of};

use cargo_lock_location::lines_in;
use cargo_lock_parts::error::{Error, Result};
use std::alloc::{AllocError, Global};

/// The lines of a text, from the first one that is not white space.
pub(crate) fn lines_from_first<'a>(
    alloc: Global,
    text: &'a str,
) -> std::result::Result<Vec<&'a str>, AllocError>
    ensures { IfOk result (λ all. lines_at all.items ≡ lines (trim_start text.now)) }
{
    lines_in(alloc, text.trim_start())
}

/// The lines after the first one, which begins the front matter.
pub(crate) fn body_of<'b, 'a>(alloc: Global, lines: &'b [&'a str]) -> Result<&'b [&'a str]>
    ensures { Reads (λ rest. lines_at rest.now) result (body_of (lines_at lines.now)) }
{
    match lines {
        [first, rest @ ..] if *first == "```toml" => Ok(rest),
        _ => Err(fault(
            alloc,
            "the front matter has no first line, three backquotes and toml",
        )),
    }
}

// The error with this message.
fn fault(alloc: Global, message: &str) -> Error
    ensures { IsParseOrMemory result }
{
    Error::parse(String::from_str(alloc, message))
}

/// How many lines the front matter has.
pub(crate) fn front_length(alloc: Global, body: &[&str]) -> Result<usize>
    ensures length { Reads (λ n. n) result (front_length (lines_at body.now)) }
    ensures within { IfOk result (λ n. n < length body.now) }
{
    match first_fence(body) {
        Some(number) => Ok(number),
        None => Err(fault(alloc, "the front matter has no last line, three backquotes")),
    }
}

// The place of the first line that ends the front matter.
fn first_fence(body: &[&str]) -> Option<usize>
    ensures place { result ≡ front_length (lines_at body.now) }
    ensures within { IfSome result (λ n. n < length body.now) }
{
    fence_at(body)
}

// The same, as a test of each line.
fn fence_at(body: &[&str]) -> Option<usize>
    ensures place { result ≡ position (λ l. is_fence l.now) body.now }
    ensures within { IfSome result (λ n. n < length body.now) }
{
    body.iter().position(|line| is_fence(line))
}

// Whether the line ends the front matter.
fn is_fence(line: &str) -> bool
    ensures { result ≡ is_fence line.now }
{
    line.starts_with("```")
}

/// The title after the front matter.
#[tactic(auto, using(crate::proofs::Strips::drop_lines))]
pub(crate) fn title_after<'a>(alloc: Global, body: &[&'a str], count: usize) -> Result<&'a str>
    requires { count < length body.now }
    ensures { Reads (λ t. t.now) result (title_in (drop (count + 1) (lines_at body.now))) }
{
    title_in(alloc, &body[count + 1..])
}

/// The text of the front matter.
#[tactic(auto, using(crate::proofs::Strips::take_lines))]
pub(crate) fn front_of(
    alloc: Global,
    body: &[&str],
    count: usize,
) -> std::result::Result<String, AllocError>
    requires { count < length body.now }
    ensures { IfOk result
        (λ text. string_bytes text ≡ joined (take count (lines_at body.now))) }
{
    joined(alloc, &body[..count])
}

// The title, from the first line that is not empty.
fn title_in<'a>(alloc: Global, lines: &[&'a str]) -> Result<&'a str>
    ensures { Reads (λ t. t.now) result (title_in (lines_at lines.now)) }
{
    for line in lines {
        if !line.is_empty() {
            return title_of_line(alloc, line);
        }
    }
    Err(no_title(alloc))
}

fn no_title(alloc: Global) -> Error
    ensures { IsParseOrMemory result }
{
    fault(
        alloc,
        "no title after the front matter, a line that begins with #",
    )
}

// The title of a line.
fn title_of_line<'a>(alloc: Global, line: &'a str) -> Result<&'a str>
    ensures { Reads (λ t. t.now) result (title_of line.now) }
{
    match title_of(line) {
        Some(title) => Ok(title),
        None => Err(no_title(alloc)),
    }
}

fn title_of(line: &str) -> Option<&str>
    ensures { option_map (λ t. t.now) result ≡ title_of line.now }
{
    line.strip_prefix("# ")
}

// The text of some lines, each with a newline.
fn joined(alloc: Global, lines: &[&str]) -> std::result::Result<String, AllocError>
    ensures { IfOk result (λ text. string_bytes text ≡ joined (lines_at lines.now)) }
{
    let mut text = String::new(alloc);
    for line in lines {
        push_line(&mut text, line)?;
    }
    Ok(text)
}

// Adds a line and a newline.
fn push_line(text: &mut String, line: &str) -> std::result::Result<(), AllocError>
    ensures { OnOk result (string_bytes text.new ≡ string_bytes text.old ++ line_text line.now) }
{
    text.push_str(line)?;
    text.push_str("\n")?;
    Ok(())
}
