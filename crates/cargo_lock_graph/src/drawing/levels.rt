//! The levels of a prefix, each a text, one after the other.

ghost use Rattle.std.specs.Prelude.{◌≡◌, List, ℕ, ◌+◌, ◌*◌, ◌≤◌, ◌++◌, [], IfOk};
ghost use Rattle.std.specs.Prelude.{vec_capacity, vec_len};
ghost use Rattle.cargo_lock_graph.specs.DrawingText.{level_text, standard_symbols};

use std::alloc::{AllocError, Global};

// The part of a prefix for a level above an entry.
fn level(more: bool) -> &'static str
    ensures { result.now ≡ level_text standard_symbols more }
{
    if more { "│   " } else { "    " }
}

// No levels yet, with room for this many: a level has at most 6 bytes.
pub(crate) fn with_room(alloc: Global, count: usize) -> Result<Vec<u8>, AllocError>
    ensures items { IfOk result (λ levels. levels.items ≡ []) }
    ensures capacity { IfOk result (λ levels. 6 * count ≤ vec_capacity levels) }
{
    match count.checked_mul(6) {
        Some(bytes) => Vec::with_capacity(alloc, bytes),
        None => Err(AllocError),
    }
}

// Adds a level where there is room for it, which takes no memory.
pub(crate) fn push_level(levels: &mut Vec<u8>, more: bool)
    requires { vec_len levels.old + 6 ≤ vec_capacity levels.old }
    ensures items { levels.new.items ≡ levels.old.items ++ level_text standard_symbols more }
    ensures capacity { vec_capacity levels.old ≤ vec_capacity levels.new }
{
    let _ = levels.extend_from_slice(level(more).as_bytes());
}

// Takes the last level off again.
pub(crate) fn pop_level(levels: &mut Vec<u8>, more: bool)
    requires { (front : List ℕ) × (levels.old.items ≡ front ++ level_text standard_symbols more) }
    ensures items { (front : List ℕ)
        → levels.old.items ≡ front ++ level_text standard_symbols more
        → levels.new.items ≡ front }
    ensures capacity { vec_capacity levels.new ≡ vec_capacity levels.old }
{
    let end = levels.len() - level(more).len();
    levels.truncate(end);
}
