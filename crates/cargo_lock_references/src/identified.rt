//! Values with an identity: packages, and packages as a table has them.

ghost use Rattle.std.specs.Prelude.{◌≡◌, IfOk, option_map};

use crate::EncodablePackage;
use cargo_lock_parts::dependency::Dependency;
use cargo_lock_parts::package::{Name, Package, SourceId, Version};
use std::alloc::AllocError;
use std::ops::Deref;

/// A value with a name, a version and optionally a source.
pub trait Identified {
    ghost use Rattle.std.specs.Prelude.{◌≡◌, option_map};
    ghost use Rattle.semver.specs.Identifiers.{parts_of};
    ghost use Rattle.cargo_lock_parts.specs.Identity.{Identity};

    ghost identity: { Self → Identity };

    /// The name.
    fn name(&self) -> &Name
        ensures { result.now ≡ (identity self.now).name };

    /// The version.
    fn version(&self) -> &Version
        ensures { parts_of result.now ≡ (identity self.now).version };

    /// The source.
    fn source(&self) -> Option<&SourceId>
        ensures { option_map (λ s. s.now) result ≡ (identity self.now).source };
}

impl Identified for Package {
    ghost use Rattle.cargo_lock_parts.specs.Identity.{identity_of};

    ghost identity = { identity_of };

    fn name(&self) -> &Name {
        &self.name
    }

    fn version(&self) -> &Version {
        &self.version
    }

    fn source(&self) -> Option<&SourceId> {
        self.source.as_ref()
    }
}

impl Identified for EncodablePackage {
    ghost use Rattle.cargo_lock_references.specs.Records.{encoded_identity};

    ghost identity = { encoded_identity };

    fn name(&self) -> &Name {
        &self.name
    }

    fn version(&self) -> &Version {
        &self.version
    }

    fn source(&self) -> Option<&SourceId> {
        match &self.source {
            Some(source) => Some(source.deref()),
            None => None,
        }
    }
}

/// A copy of the identity of an item. Fails when out of memory.
pub fn identity<T: Identified>(item: &T) -> Result<Dependency, AllocError>
    ensures { IfOk result (λ copy. copy ≡ T.identity item.now) }
{
    Ok(Dependency {
        name: item.name().clone()?,
        version: item.version().clone()?,
        source: copy_source(item.source())?,
    })
}

/// A copy of a source. Fails when out of memory.
pub fn copy_source(source: Option<&SourceId>) -> Result<Option<SourceId>, AllocError>
    ensures { IfOk result (λ copy. copy ≡ option_map (λ s. s.now) source.entry) }
{
    match source {
        Some(source) => Ok(Some(source.clone()?)),
        None => Ok(None),
    }
}
