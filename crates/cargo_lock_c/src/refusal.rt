//! Why a call returns no answer, and the status of each reason.

ghost use Rattle.std.specs.Prelude.{◌≡◌};
ghost use Rattle.cargo_lock_c.specs.Statuses.{refusal_of_bill, refusal_of_new, refusal_of_third};
ghost use Rattle.cargo_lock_c.specs.Statuses.{status_of};

use cargo_lock::Error;
use std::alloc::{AllocError, AllocFailed};

/// The status of a call that returns its answer.
pub(crate) const DONE: u32 = 0;

/// The status of a call whose answer is longer than the caller's buffer.
pub(crate) const NO_ROOM: u32 = 5;

/// Why there is no answer.
#[derive(Clone, Copy)]
pub(crate) enum Refusal {
    /// The text is not a lockfile.
    NoLockfile,

    /// The bytes are not UTF-8.
    NoText,

    /// Memory ran out.
    NoMemory,

    /// There is no format of that number.
    NoFormat,

    /// The lockfile does not survive the format.
    Lost,

    /// No package matches a dependency.
    Unresolved,

    /// There is no package of that number.
    NoPackage,

    /// A name or a source has a control character, and so cannot be in a line.
    NoLine,

    /// The second of several texts is not a lockfile.
    NoNewLockfile,

    /// The second of several texts is not UTF-8.
    NoNewText,

    /// The same text would refer to two packages in a bill.
    Repeated,

    /// No package fits a specification.
    NothingFits,

    /// The bytes of a specification are not UTF-8.
    NoSpecText,

    /// The third of three texts is not a lockfile.
    NoThirdLockfile,

    /// The third of three texts is not UTF-8.
    NoThirdText,
}

impl Refusal {
    /// The number that is returned to the caller.
    pub(crate) fn status(self) -> u32
        ensures { result ≡ status_of self }
    {
        match self {
            Refusal::NoLockfile => 1,
            Refusal::NoText => 2,
            Refusal::NoMemory => 3,
            Refusal::NoFormat => 4,
            Refusal::Lost => 6,
            Refusal::Unresolved => 7,
            Refusal::NoPackage => 8,
            Refusal::NoLine => 9,
            Refusal::NoNewLockfile => 10,
            Refusal::NoNewText => 11,
            Refusal::Repeated => 12,
            Refusal::NothingFits => 13,
            Refusal::NoSpecText => 14,
            Refusal::NoThirdLockfile => 19,
            Refusal::NoThirdText => 20,
        }
    }

    /// The refusal for the second of several texts, from that of reading one.
    pub(crate) fn into_new(self) -> Refusal
        ensures { result ≡ refusal_of_new self }
    {
        match self {
            Refusal::NoLockfile => Refusal::NoNewLockfile,
            Refusal::NoText => Refusal::NoNewText,
            other => other,
        }
    }

    /// The refusal for the third of three texts, from that of reading one.
    pub(crate) fn into_third(self) -> Refusal
        ensures { result ≡ refusal_of_third self }
    {
        match self {
            Refusal::NoLockfile => Refusal::NoThirdLockfile,
            Refusal::NoText => Refusal::NoThirdText,
            other => other,
        }
    }

    /// The refusal for an error of printing a bill.
    pub(crate) fn of_bill(fault: Error) -> Refusal
        ensures { result ≡ refusal_of_bill fault }
    {
        match fault {
            Error::Parse(_) => Refusal::Repeated,
            other => Refusal::from(other),
        }
    }
}

impl From<Error> for Refusal {
    ghost use Rattle.cargo_lock_c.specs.Statuses.{refusal_of};

    ghost from_gives = { λ error refusal. refusal ≡ refusal_of error };

    fn from(error: Error) -> Refusal {
        match error {
            Error::Parse(_) => Refusal::NoLockfile,
            Error::Version(_) => Refusal::NoLockfile,
            Error::Resolution(_) => Refusal::Unresolved,
            Error::Io(_) => Refusal::NoMemory,
            Error::Memory => Refusal::NoMemory,
        }
    }
}

impl From<AllocError> for Refusal {
    ghost use Rattle.cargo_lock_c.specs.declared.refusal.Refusal.TheVariants.{NoMemory};

    ghost from_gives = { λ _ refusal. refusal ≡ NoMemory };

    fn from(_: AllocError) -> Refusal {
        Refusal::NoMemory
    }
}

impl<T: Drop> From<AllocFailed<T>> for Refusal {
    ghost use Rattle.cargo_lock_c.specs.declared.refusal.Refusal.TheVariants.{NoMemory};

    ghost from_gives = { λ _ refusal. refusal ≡ NoMemory };

    fn from(_: AllocFailed<T>) -> Refusal {
        Refusal::NoMemory
    }
}
