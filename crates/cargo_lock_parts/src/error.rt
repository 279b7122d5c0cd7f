//! The errors of this crate's calls.

use semver::Error as VersionError;
use std::alloc::{AllocError, AllocFailed, Global};
use std::io;
use std::num::ParseIntError;
use thiserror::Error;

/// Why a call failed. `Display` writes each variant as the text of its attribute `error`, with the
/// value that the variant holds in place of `{0}`.
#[derive(Debug, Drop, Error)]
pub enum Error {
    /// A file could not be read, or a writer failed.
    #[error("I/O operation failed: {0}")]
    Io(io::ErrorKind),

    /// A text or a table is not one that the call reads. The text says why.
    #[error("parse error: {0}")]
    Parse(String),

    /// A text is not a version.
    #[error("version error: {0}")]
    Version(VersionError),

    /// A dependency resolves to no package.
    #[error("resolution error: {0}")]
    Resolution(String),

    /// Memory ran out.
    #[error("out of memory")]
    Memory,
}

/// The result of this crate's calls.
pub type Result<T> = std::result::Result<T, Error>;

impl From<io::Error> for Error {
    ghost use Rattle.std.specs.Prelude.{◌≡◌};
    ghost use Rattle.std.specs.IoError.{error_kind};
    ghost use Rattle.cargo_lock_parts.specs.declared.error.Error.TheVariants.{Io};

    ghost from_gives = { λ fault e. e ≡ Io (error_kind fault) };

    fn from(fault: io::Error) -> Error {
        Error::Io(fault.kind())
    }
}

impl From<VersionError> for Error {
    ghost use Rattle.cargo_lock_parts.specs.Error.{IsFromVersion};

    ghost from_gives = { IsFromVersion };

    fn from(fault: VersionError) -> Error {
        if fault == VersionError::from(AllocError) {
            Error::Memory
        } else {
            Error::Version(fault)
        }
    }
}

impl From<AllocError> for Error {
    ghost use Rattle.std.specs.Prelude.{◌≡◌};
    ghost use Rattle.cargo_lock_parts.specs.declared.error.Error.TheVariants.{Memory};

    ghost from_gives = { λ _ e. e ≡ Memory };

    fn from(_: AllocError) -> Error {
        Error::Memory
    }
}

impl<T: Drop> From<AllocFailed<T>> for Error {
    ghost use Rattle.std.specs.Prelude.{◌≡◌};
    ghost use Rattle.cargo_lock_parts.specs.declared.error.Error.TheVariants.{Memory};

    ghost from_gives = { λ _ e. e ≡ Memory };

    fn from(_: AllocFailed<T>) -> Error {
        Error::Memory
    }
}

// The text of the error for a URL of 4 GB or more.
pub(crate) const TOO_LONG: &str = "invalid url: more than 4 GB";

/// Texts of fewer bytes, which is 2^28, hold no URL of 4 GB or more: a URL grows at most threefold
/// by escapes.
pub const SHORT_LENGTH: usize = 268435456;

impl Error {
    ghost use Rattle.std.specs.Prelude.{◌≡◌, ◌↔◌, IsTrue};
    ghost use Rattle.cargo_lock_parts.specs.Error.{IsParseOrMemory, IsTooLong, parse_fault};

    /// `Parse` with this text, or `Memory` if the text could not be made.
    pub fn parse(text: std::result::Result<String, AllocError>) -> Error
        ensures { result ≡ parse_fault text }
    {
        match text {
            Ok(text) => Error::Parse(text),
            Err(_) => Error::Memory,
        }
    }

    /// Whether this is the error for a URL of 4 GB or more, which is refused though it may be a
    /// valid URL. The readers of sources, references and lockfiles give it for no text of fewer
    /// than `SHORT_LENGTH` bytes.
    pub fn is_too_long(&self) -> bool
        ensures { IsTrue result ↔ IsTooLong self.now }
    {
        match self {
            Error::Parse(text) => text.as_str() == TOO_LONG,
            _ => false,
        }
    }

    /// `Parse` for a text that is not a whole number, or `Memory` if memory runs out. The text of
    /// the error is what `Display` of `fault` writes, which is tested and not in the contract.
    pub fn from_int(alloc: Global, fault: ParseIntError) -> Error
        ensures { IsParseOrMemory result }
    {
        Error::parse(fault.to_string(alloc))
    }
}
