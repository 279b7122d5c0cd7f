//! What a caller does with each kind of error.

ghost use Rattle.std.specs.Prelude.{◌≡◌, ◌↔◌, ◌⊎◌, IsTrue};
ghost use Rattle.std.specs.declared.io.ErrorKind.{ErrorKind};
ghost use Rattle.cargo_lock_parts.specs.declared.error.Error.TheVariants.{Io, Memory};

use cargo_lock::Error;

/// Whether the error is `Memory` or `Io`, which is also the error for a file that is missing or not
/// UTF-8. The other errors mean that the text, or a dependency in it, is refused.
pub fn may_pass(fault: &Error) -> bool
    ensures { IsTrue result
        ↔ ((fault.now ≡ Memory) ⊎ ((kind : ErrorKind) × (fault.now ≡ Io kind))) }
{
    match fault {
        Error::Io(_) | Error::Memory => true,
        Error::Parse(_) | Error::Version(_) | Error::Resolution(_) => false,
    }
}
