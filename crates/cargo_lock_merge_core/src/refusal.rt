//! Why a lockfile cannot be merged.

use cargo_lock_parts::error::Error;
use cargo_lock_parts::package::{Package, SourceId};
use std::alloc::{AllocError, AllocFailed};

/// Why a lockfile cannot be merged.
#[derive(Drop)]
pub enum Refusal<'a> {
    /// Two packages are at one place.
    OnePlace(&'a Package, &'a Package),

    /// Packages of the second source, which is a git source, are at the commits of both.
    TwoCommits(&'a SourceId, &'a SourceId),

    /// No package has the name, the version and the source, but for a commit, of the replacement of
    /// this package.
    Unreplaced(&'a Package),

    /// A dependency resolves to no package. The text is `failed to find dependency: ` and the
    /// dependency.
    Lost(String),
}

/// Why there is no merge.
#[derive(Drop)]
pub enum Fault<'a> {
    /// Memory ran out.
    Memory,

    /// A lockfile cannot be merged.
    Refused(Refusal<'a>),
}

/// The result of calls that may refuse a lockfile.
pub type Result<'a, T> = std::result::Result<T, Fault<'a>>;

impl<'a> From<AllocError> for Fault<'a> {
    ghost use Rattle.std.specs.Prelude.{◌≡◌};
    ghost use Rattle.cargo_lock_merge_core.specs.declared.refusal.Fault.TheVariants.{Memory};

    ghost from_gives = { λ _ fault. fault ≡ Memory };

    fn from(_: AllocError) -> Fault<'a> {
        Fault::Memory
    }
}

impl<'a, T: Drop> From<AllocFailed<T>> for Fault<'a> {
    ghost use Rattle.std.specs.Prelude.{◌≡◌};
    ghost use Rattle.cargo_lock_merge_core.specs.declared.refusal.Fault.TheVariants.{Memory};

    ghost from_gives = { λ _ fault. fault ≡ Memory };

    fn from(_: AllocFailed<T>) -> Fault<'a> {
        Fault::Memory
    }
}

impl<'a> From<Error> for Fault<'a> {
    ghost use Rattle.cargo_lock_merge_core.specs.Refusals.{IsOfError};

    ghost from_gives = { IsOfError };

    fn from(error: Error) -> Fault<'a> {
        match error {
            Error::Resolution(text) => Fault::Refused(Refusal::Lost(text)),
            _ => Fault::Memory,
        }
    }
}
