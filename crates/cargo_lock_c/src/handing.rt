//! How answers are returned to the caller.

ghost use Rattle.std.specs.Prelude.{◌≡◌, ◌⊎◌};
ghost use Rattle.cargo_lock_c.specs.Answers.{IsHandedOut};

use crate::refusal::{DONE, NO_ROOM};

/// Copies an answer to the front of the caller's buffer, and sets its length. If the buffer is too
/// short, nothing is copied.
pub(crate) fn hand_out<T: Copy>(answer: &[T], room: &mut [T], length: &mut usize) -> u32
    ensures handed { IsHandedOut (λ items. items ≡ answer.now) result room.old room.new
        length.old length.new }
    ensures status { (result ≡ 0) ⊎ (result ≡ 5) }
{
    *length = answer.len();
    if answer.len() > room.len() {
        return NO_ROOM;
    }
    room[..answer.len()].copy_from_slice(answer);
    DONE
}
