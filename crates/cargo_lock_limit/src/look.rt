//! A look at a text, before it is read.
//!
//! Each reference stands between quotation marks, and so does each version, which has none itself.
//! So the versions that references match have no more bytes together than half of the marks, times
//! the longest part of the text without one. It is a look alone, on which no promise rests:
//! `reading` asks what was read.

ghost use Rattle.std.specs.Prelude.{◌<◌, IfSome, length};

use memchr::{memchr2_iter, memrchr2};

/// Whether the versions that the references of a text match may have more bytes together than a
/// limit. Of a lockfile that Cargo wrote they may not, unless it is a very large one.
pub(crate) fn may_be_beyond(text: &str, limit: u32) -> bool {
    let bytes = text.as_bytes();
    let limit = limit as usize;
    // (the marks are counted only where half of the bytes would be too many)
    let longest = limit.checked_div(bytes.len() / 2).unwrap_or(limit);
    if !has_part(bytes, longest.saturating_add(1)) {
        return false;
    }
    match limit.checked_div(strings(bytes)) {
        Some(longest) => has_part(bytes, longest.saturating_add(1)),
        None => false,
    }
}

// How many strings there can be, each between two quotation marks.
fn strings(bytes: &[u8]) -> usize {
    memchr2_iter(b'"', b'\'', bytes).count() / 2
}

// Whether some part of this length has no quotation mark.
fn has_part(bytes: &[u8], size: usize) -> bool {
    let mut rest = bytes;
    while size <= rest.len() {
        match last_mark(&rest[..size]) {
            Some(place) => rest = &rest[place + 1..],
            None => return true,
        }
    }
    false
}

// The place of the last quotation mark.
fn last_mark(bytes: &[u8]) -> Option<usize>
    ensures { IfSome result (λ place. place < length bytes.now) }
{
    memrchr2(b'"', b'\'', bytes)
}
