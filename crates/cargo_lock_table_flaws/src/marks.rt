//! The marks of a conflict that a merge by lines leaves in a text.

ghost use Rattle.std.specs.Prelude.{◌≡◌, ◌+◌, ◌<◌, IfOk, IfSome, length, nat_eq, option_map};
ghost use Rattle.std.specs.List.{starts_with};
ghost use Rattle.cargo_lock_table_flaws.specs.Marks as spec;

use std::alloc::{AllocError, Global};

/// The number of the first line with a mark of a conflict, from 1 on, if the text is no TOML: a
/// line that begins with seven of `<`, `|`, `=` or `>`. Fails when out of memory.
///
/// ```
/// if let Some(number) = conflict_mark_line(rt.alloc(), text)? {
///     println!(rt; "conflict marks in line {number}")?;
/// }
/// ```
pub fn conflict_mark_line(alloc: Global, text: &str) -> Result<Option<usize>, AllocError>
    ensures { IfOk result (λ number. number ≡ spec.conflict_mark_line text.now) }
{
    let Some(number) = marked_line(text) else {
        return Ok(None);
    };
    match toml::table_from_str(alloc, text) {
        Ok(_) => Ok(None),
        Err(fault) if fault.is_memory() => Err(AllocError),
        Err(_) => Ok(Some(number)),
    }
}

// The number of the first line with a mark.
fn marked_line(text: &str) -> Option<usize>
    ensures { result ≡ option_map (λ place. place + 1) (spec.first_mark text.now) }
{
    match first_mark(text) {
        Some(place) => Some(place + 1),
        None => None,
    }
}

// The place of the first line with a mark.
fn first_mark(text: &str) -> Option<usize>
    ensures place { result ≡ spec.first_mark text.now }
    ensures within { IfSome result (λ place. place < length text.now) }
{
    text.lines().position(|line| is_conflict_mark(line))
}

fn is_conflict_mark(line: &str) -> bool
    ensures { result ≡ spec.is_conflict_mark line.now }
{
    begins(line, "<<<<<<<")
        || begins(line, "|||||||")
        || begins(line, "=======")
        || begins(line, ">>>>>>>")
}

fn begins(line: &str, mark: &str) -> bool
    ensures { result ≡ starts_with nat_eq line.now mark.now }
{
    line.starts_with(mark)
}
