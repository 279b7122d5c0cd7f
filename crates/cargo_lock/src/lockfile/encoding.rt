//! A lockfile and the values of its table.

ghost use Rattle.std.specs.Prelude.{◌≡◌, IfOk, IsOkUnless};
ghost use Rattle.cargo_lock_parts.specs.declared.error.Error.TheVariants.{Memory};
ghost use Rattle.cargo_lock_parts.specs.Error.{Reads};
ghost use Rattle.cargo_lock_references.specs.Finds.{Finds};
ghost use Rattle.cargo_lock_encoding.specs.Lockfiles.{EncodedData};
ghost use Rattle.cargo_lock_encoding.specs.Means.{IsLocked};
ghost use Rattle.cargo_lock_encoding.specs.Meaning.{completed_lockfile, lockfile_of};
ghost use Rattle.cargo_lock_encoding.specs.Table.{encoded_of};

use crate::error::Result;
use crate::lockfile::Lockfile;
pub use cargo_lock_encoding::EncodableLockfile;
use cargo_lock_encoding::{LockfileRef, Resolved, resolved_values};
pub use cargo_lock_references::{EncodableDependency, EncodablePackage, EncodableSourceId};
use std::alloc::Global;

impl Lockfile {
    /// The lockfile of the values of a table: in its format, with each reference resolved. In V1
    /// the references are in full, and the checksums are those in the metadata. From V2 on the
    /// references of packages are resolved among the packages. Replacements and the references of
    /// the root are in full in every format.
    ///
    /// `Parse` means that the values have no format, or that a reference does not resolve. The
    /// other error is `Memory`, which is also the error for a key of V1 metadata with a URL of 4 GB
    /// or more.
    ///
    /// ```
    /// let values = lockfile.to_encodable(alloc)?;
    /// let read = Lockfile::from_encodable(alloc, values)?;
    /// ```
    pub fn from_encodable(alloc: Global, values: EncodableLockfile) -> Result<Lockfile>
        ensures { Finds (IsLocked values) result }
    {
        lockfile_of(alloc, values)
    }

    /// The values of the lockfile's table, in the lockfile's format. The references of its packages
    /// are without the parts that are redundant among the packages, except in V1. The references of
    /// the root and all replacements are in full. The one error is `Memory`.
    ///
    /// ```
    /// let values = lockfile.to_encodable(alloc)?;
    /// let dependency = reference.resolve(alloc, values.package.as_slice())?;
    /// ```
    pub fn to_encodable(&self, alloc: Global) -> Result<EncodableLockfile>
        ensures ok { IfOk result (λ e. e ≡ encoded_of self.now) }
        ensures err { IsOkUnless result Memory }
    {
        self.by_ref().to_encodable(alloc)
    }

    // The parts of the lockfile, borrowed.
    pub(super) fn by_ref(&self) -> LockfileRef<'_>
        ensures { result ≡ self.now }
    {
        LockfileRef {
            version: self.version,
            packages: self.packages.as_slice(),
            root: &self.root,
            metadata: &self.metadata,
            patch: &self.patch,
        }
    }
}

/// Two other names for the calls above, as methods of `EncodableLockfile`: `of` and
/// `into_lockfile`. Import this trait to use them.
pub trait EncodesLockfile: Sized {
    /// The values of the table.
    ghost values: { Self → EncodedData };

    /// The values of a lockfile's table: `Lockfile::to_encodable`. The one error is `Memory`.
    fn of(alloc: Global, lockfile: &Lockfile) -> Result<Self>
        ensures ok { IfOk result (λ made. values made ≡ encoded_of lockfile.now) }
        ensures err { IsOkUnless result Memory };

    /// The lockfile of the values: `Lockfile::from_encodable`. `Parse` says that they have no
    /// format, or that a reference does not resolve. The other error is `Memory`.
    fn into_lockfile(self, alloc: Global) -> Result<Lockfile>
        ensures { Finds (IsLocked (values self)) result };
}

impl EncodesLockfile for EncodableLockfile {
    ghost values = { λ values. values };

    fn of(alloc: Global, lockfile: &Lockfile) -> Result<EncodableLockfile> {
        lockfile.to_encodable(alloc)
    }

    fn into_lockfile(self, alloc: Global) -> Result<Lockfile> {
        Lockfile::from_encodable(alloc, self)
    }
}

#[tactic(auto, unfolding(cargo_lock_encoding::specs::Meaning::lockfile_of))]
pub(super) fn lockfile_of(alloc: Global, values: EncodableLockfile) -> Result<Lockfile>
    ensures { Reads (λ l. l) result (lockfile_of values) }
{
    let found = resolved_values(alloc, &values)?;
    Ok(completed_lockfile(values, found))
}

// The lockfile of these values, with their metadata and patches, and what was resolved of them.
fn completed_lockfile(values: EncodableLockfile, found: Resolved) -> Lockfile
    ensures { result ≡ completed_lockfile values found }
{
    let EncodableLockfile {
        version: _,
        package: _,
        root: _,
        metadata,
        patch,
    } = values;
    let Resolved {
        version,
        packages,
        root,
    } = found;
    Lockfile {
        version,
        packages,
        root,
        metadata,
        patch,
    }
}
