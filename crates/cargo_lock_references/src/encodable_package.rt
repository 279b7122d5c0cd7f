//! Packages as a table has them.

use crate::reference::EncodableDependency;
use crate::source::EncodableSourceId;
use cargo_lock_parts::package::{Checksum, Name, Version};
use std::marker::Model;

/// A package as its table has it: its references are not resolved yet.
#[derive(Debug, Drop)]
pub struct EncodablePackage {
    /// The name.
    pub name: Name,

    /// The version.
    pub version: Version,

    /// Where the package comes from, with the mark for the source's text.
    pub source: Option<EncodableSourceId>,

    /// The checksum. A lockfile of V1 has it in the metadata.
    pub checksum: Option<Checksum>,

    /// What the package depends on.
    pub dependencies: Vec<EncodableDependency>,

    /// The reference to the package that replaces it.
    pub replace: Option<EncodableDependency>,
}

impl Model for EncodablePackage {
    ghost use Rattle.std.specs.Prelude.{option_map};
    ghost use Rattle.semver.specs.Identifiers.{parts_of};
    ghost use Rattle.cargo_lock_parts.specs.Checksum.{digest_of};
    ghost use Rattle.cargo_lock_references.specs.Records.{EncodedPackage};

    ghost Value = { EncodedPackage };

    ghost view = { λ e. record {
      name = e.name;
      version = parts_of e.version;
      source = e.source;
      checksum = option_map digest_of e.checksum;
      dependencies = e.dependencies.items;
      replace = e.replace;
    } };
}
