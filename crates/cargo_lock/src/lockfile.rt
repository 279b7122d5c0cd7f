//! Lockfiles.

ghost use Rattle.std.specs.Prelude.{◌≡◌, IfOk};
ghost use Rattle.std.specs.Cmp.Lexicographic.{pointwise};
ghost use Rattle.cargo_lock_references.specs.Records.{texts_of};
ghost use Rattle.cargo_lock.specs.Same.{is_same_metadata, is_same_pair};

pub mod checksums;
pub mod encoding;
mod lossy_sources;
mod reading;
mod serialization;
mod survival;
mod translation;
mod writing;

use crate::metadata::Metadata;
use cargo_lock_parts::package::Package;
use cargo_lock_parts::patch::Patch;
use cargo_lock_references::checksums::keys_ascend;
pub use cargo_lock_references::{ResolveVersion, version};
use std::alloc::AllocError;
use std::marker::Model;

/// A lockfile: the packages of a project, each in the one version that is used. Two are equal if
/// all fields are.
#[derive(Debug, Drop)]
pub struct Lockfile {
    /// The format in which the lockfile is written.
    pub version: ResolveVersion,

    /// The packages, in the lockfile's order.
    pub packages: Vec<Package>,

    /// The root package, if the lockfile has it separate from the others, as old lockfiles do.
    pub root: Option<Package>,

    /// The metadata.
    pub metadata: Metadata,

    /// The patches that no package uses.
    pub patch: Patch,
}

impl Model for Lockfile {
    ghost use Rattle.std.specs.Coded.{codes};
    ghost use Rattle.cargo_lock_encoding.specs.Lockfiles.{LockfileData};
    ghost use Rattle.cargo_lock_references.specs.Records.{texts_code, texts_of};

    ghost Value = { LockfileData };

    ghost coded = { Prim.hlevel (codes, texts_code) };

    ghost view = { λ l. record {
      version = l.version;
      packages = l.packages.items;
      root = l.root;
      metadata = texts_of l.metadata.entries;
      patch = l.patch;
    } };
}

impl Clone for Lockfile {
    ghost use Rattle.std.specs.Prelude.{◌≡◌};

    ghost is_clone = { λ one copy. copy ≡ one };

    fn clone(&self) -> std::result::Result<Lockfile, AllocError> {
        Ok(Lockfile {
            version: self.version,
            packages: clone_packages(&self.packages)?,
            root: clone_root(&self.root)?,
            metadata: clone_metadata(&self.metadata)?,
            patch: self.patch.clone()?,
        })
    }
}

fn clone_packages(packages: &Vec<Package>) -> std::result::Result<Vec<Package>, AllocError>
    ensures { IfOk result (λ copy. copy.items ≡ packages.now.items) }
{
    packages.clone()
}

fn clone_root(root: &Option<Package>) -> std::result::Result<Option<Package>, AllocError>
    ensures { IfOk result (λ copy. copy ≡ root.now) }
{
    match root {
        Some(root) => Ok(Some(root.clone()?)),
        None => Ok(None),
    }
}

fn clone_metadata(metadata: &Metadata) -> std::result::Result<Metadata, AllocError>
    ensures { IfOk result (λ copy. copy.entries ≡ metadata.now.entries) }
{
    metadata.clone()
}

impl PartialEq for Lockfile {
    ghost use Rattle.std.specs.Cmp.{partial_equiv_from_equiv};
    ghost use Rattle.cargo_lock.specs.Same.{is_same_lockfile, lockfile_equivalence};

    ghost eq = { is_same_lockfile };

    ghost laws = { partial_equiv_from_equiv lockfile_equivalence };

    fn eq(&self, other: &Lockfile) -> bool {
        u32::from(self.version) == u32::from(other.version)
            && self.packages == other.packages
            && self.root == other.root
            && same_metadata(&self.metadata, &other.metadata)
            && self.patch == other.patch
    }
}

impl Eq for Lockfile {
    ghost use Rattle.cargo_lock.specs.Same.{lockfile_equivalence};

    ghost laws = { lockfile_equivalence };
}

fn same_metadata(a: &Metadata, b: &Metadata) -> bool
    ensures { result ≡ is_same_metadata (texts_of a.now.entries) (texts_of b.now.entries) }
{
    keys_ascend(a);
    keys_ascend(b);
    same_entries(a, b)
}

fn same_entries(a: &Metadata, b: &Metadata) -> bool
    ensures { result ≡ pointwise is_same_pair a.now.entries b.now.entries }
{
    a == b
}
