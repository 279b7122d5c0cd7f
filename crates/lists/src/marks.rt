//! Marks at places of a list.

ghost use Rattle.std.specs.Prelude.{◌↔◌, IsTrue};
ghost use Rattle.lists.specs.Marks.{IsMarked};

/// Whether a place has a mark. A place behind the last one has none.
pub fn is_marked(marks: &[bool], place: usize) -> bool
    ensures { IsTrue result ↔ (IsMarked marks.now place) }
{
    match marks.get(place) {
        Some(mark) => *mark,
        None => false,
    }
}
