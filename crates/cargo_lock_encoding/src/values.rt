//! The values of a lockfile's table, and the parts of a lockfile, in which the crate above passes
//! them.

ghost use Rattle.std.specs.Prelude.{◌≡◌, IfOk, IsOkUnless, option_map};
ghost use Rattle.cargo_lock_parts.specs.declared.error.Error.TheVariants.{Memory};
ghost use Rattle.cargo_lock_parts.specs.Checksum.{digest_of};
ghost use Rattle.cargo_lock_references.specs.LeastKey.{IsFoundAtLeastKey};
ghost use Rattle.cargo_lock_references.specs.Metadata.{checksum_in};

use cargo_lock_parts::error::Result;
use cargo_lock_parts::package::{Checksum, Package};
use cargo_lock_parts::patch::Patch;
use cargo_lock_references::checksums::find_checksum;
use cargo_lock_references::{EncodablePackage, Metadata, ResolveVersion};
use std::alloc::Global;
use std::marker::Model;

/// A lockfile as its table has it: its references are not resolved yet, and its format is a number.
#[derive(Debug, Drop)]
pub struct EncodableLockfile {
    /// The number under `version`, if there is one.
    pub version: Option<i64>,

    /// The packages.
    pub package: Vec<EncodablePackage>,

    /// The root package, if the table has it separate from the others, as old lockfiles do.
    pub root: Option<EncodablePackage>,

    /// The metadata.
    pub metadata: Metadata,

    /// The patches that no package uses.
    pub patch: Patch,
}

impl Model for EncodableLockfile {
    ghost use Rattle.std.specs.Coded.{codes};
    ghost use Rattle.cargo_lock_references.specs.Records.{texts_code, texts_of};
    ghost use Rattle.cargo_lock_encoding.specs.Lockfiles.{EncodedData};

    ghost Value = { EncodedData };

    ghost coded = { Prim.hlevel (codes, texts_code) };

    ghost view = { λ e. record {
      version = e.version;
      packages = e.«package».items;
      root = e.root;
      metadata = texts_of e.metadata.entries;
      patch = e.patch;
    } };
}

impl EncodableLockfile {
    /// The checksum in the metadata for a package: the value at the first key, in byte order, that
    /// reads as the package's name and version. Keys that do not read are ignored, and a value that
    /// is not a checksum counts as no checksum. The one error is `Memory`, which is also the error
    /// for a key with a URL of 4 GB or more.
    pub fn find_checksum(&self, alloc: Global, package: &Package) -> Result<Option<Checksum>>
        ensures ok { IfOk result (λ found. option_map digest_of found
            ≡ checksum_in self.now.metadata «package».now.name «package».now.version) }
        ensures least { IfOk result (λ found. IsFoundAtLeastKey self.now.metadata «package».now.name
            «package».now.version (option_map digest_of found)) }
        ensures err { IsOkUnless result Memory }
    {
        let found = find_checksum(alloc, &self.metadata, &package.name, &package.version)?;
        Ok(found)
    }
}

/// The parts of a lockfile, borrowed; its references are resolved.
#[derive(Drop)]
pub struct LockfileRef<'a> {
    /// The format.
    pub version: ResolveVersion,

    /// The packages.
    pub packages: &'a [Package],

    /// The root package.
    pub root: &'a Option<Package>,

    /// The metadata.
    pub metadata: &'a Metadata,

    /// The patches that no package uses.
    pub patch: &'a Patch,
}

impl<'a> Model for LockfileRef<'a> {
    ghost use Rattle.std.specs.Coded.{codes};
    ghost use Rattle.cargo_lock_references.specs.Records.{texts_code, texts_of};
    ghost use Rattle.cargo_lock_encoding.specs.Lockfiles.{LockfileData};

    ghost Value = { LockfileData };

    ghost coded = { Prim.hlevel (codes, texts_code) };

    ghost view = { λ l. record {
      version = l.version;
      packages = l.packages.now;
      root = l.root.now;
      metadata = texts_of l.metadata.now.entries;
      patch = l.patch.now;
    } };
}
