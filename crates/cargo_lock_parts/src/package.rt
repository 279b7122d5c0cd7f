//! Packages of a lockfile.

ghost use Rattle.std.specs.Prelude.{◌≡◌, IfOk, option_map};
ghost use Rattle.std.specs.Option.{option_cmp};
ghost use Rattle.cargo_lock_parts.specs.Checksum.{digest_of};
ghost use Rattle.cargo_lock_parts.specs.SourceKey.{text_cmp};

pub mod checksum;
pub mod name;
pub mod partial_identity;
pub mod source;

use crate::dependency::Dependency;
pub use crate::package::checksum::Checksum;
pub use crate::package::name::Name;
pub use crate::package::partial_identity::PartialIdentity;
pub use crate::package::source::{GitReference, SourceId, SourceKind, is_of_registry};
pub use semver::Version;
use serde::{Deserialize, Serialize};
use std::alloc::AllocError;
use std::cmp::Ordering;
use std::hash::{Hash, Hasher};
use std::marker::Model;

/// A package of a lockfile. Its name, version and source are its identity. Two packages are equal
/// where all fields are, and they compare field by field in this order.
#[derive(Debug, Drop, Serialize, Deserialize)]
pub struct Package {
    /// The name.
    pub name: Name,

    /// The version.
    #[serde(with = crate::serialization::version)]
    pub version: Version,

    /// Where the package comes from. A package of the workspace itself has no source.
    pub source: Option<SourceId>,

    /// The checksum of the package's archive, which most registries give.
    pub checksum: Option<Checksum>,

    /// What the package depends on, in the lockfile's order.
    #[serde(default, skip_serializing_if = "Vec::is_empty")]
    pub dependencies: Vec<Dependency>,

    /// The dependency that replaces the package, from its `replace` key.
    pub replace: Option<Dependency>,
}

impl Model for Package {
    ghost use Rattle.std.specs.Prelude.{option_map};
    ghost use Rattle.semver.specs.Identifiers.{parts_of};
    ghost use Rattle.cargo_lock_parts.specs.Checksum.{digest_of};
    ghost use Rattle.cargo_lock_parts.specs.Identity.{PackageData};

    ghost Value = { PackageData };

    ghost view = { λ p. record {
      name = p.name;
      version = parts_of p.version;
      source = p.source;
      checksum = option_map digest_of p.checksum;
      dependencies = p.dependencies.items;
      replace = p.replace;
    } };
}

impl Clone for Package {
    ghost is_clone = { λ one copy. copy ≡ one };

    fn clone(&self) -> std::result::Result<Package, AllocError> {
        Ok(Package {
            name: self.name.clone()?,
            version: self.version.clone()?,
            source: self.source.clone()?,
            checksum: self.checksum,
            dependencies: clone_dependencies(&self.dependencies)?,
            replace: clone_replace(&self.replace)?,
        })
    }
}

fn clone_dependencies(
    dependencies: &Vec<Dependency>,
) -> std::result::Result<Vec<Dependency>, AllocError>
    ensures { IfOk result (λ copy. copy.items ≡ dependencies.now.items) }
{
    dependencies.clone()
}

fn clone_replace(
    replace: &Option<Dependency>,
) -> std::result::Result<Option<Dependency>, AllocError>
    ensures { IfOk result (λ copy. copy ≡ replace.now) }
{
    match replace {
        Some(replace) => Ok(Some(replace.clone()?)),
        None => Ok(None),
    }
}

impl PartialEq for Package {
    ghost use Rattle.std.specs.Cmp.{partial_equiv_from_equiv, eq_by_cmp_equiv};
    ghost use Rattle.cargo_lock_parts.specs.IdentityOrder.{is_same_package};
    ghost use Rattle.cargo_lock_parts.specs.IdentityLaws.{package_total};

    ghost eq = { is_same_package };

    ghost laws = { partial_equiv_from_equiv (eq_by_cmp_equiv package_total) };

    fn eq(&self, other: &Package) -> bool {
        self.cmp(other) == Ordering::Equal
    }
}

impl Eq for Package {
    ghost use Rattle.std.specs.Cmp.{eq_by_cmp_equiv};
    ghost use Rattle.cargo_lock_parts.specs.IdentityLaws.{package_total};

    ghost laws = { eq_by_cmp_equiv package_total };
}

impl PartialOrd for Package {
    ghost use Rattle.std.specs.Ordering.{as_partial_cmp};
    ghost use Rattle.std.specs.Cmp.{partial_order_from_total};
    ghost use Rattle.cargo_lock_parts.specs.IdentityOrder.{package_cmp};
    ghost use Rattle.cargo_lock_parts.specs.IdentityLaws.{package_total};

    ghost partial_cmp = { as_partial_cmp package_cmp };

    ghost laws = { partial_order_from_total package_total };

    fn partial_cmp(&self, other: &Package) -> Option<Ordering> {
        Some(self.cmp(other))
    }
}

impl Ord for Package {
    ghost use Rattle.std.specs.Prelude.{refl};
    ghost use Rattle.cargo_lock_parts.specs.IdentityOrder.{package_cmp};
    ghost use Rattle.cargo_lock_parts.specs.IdentityLaws.{package_total};

    ghost cmp = { package_cmp };

    ghost total = { package_total };

    ghost matches_partial_cmp = { λ a b. refl };

    ghost matches_eq = { λ a b. refl };

    fn cmp(&self, other: &Package) -> Ordering {
        self.name
            .cmp(&other.name)
            .then(self.version.cmp(&other.version))
            .then(self.source.cmp(&other.source))
            .then(cmp_checksums(&self.checksum, &other.checksum))
            .then(self.dependencies.cmp(&other.dependencies))
            .then(self.replace.cmp(&other.replace))
    }
}

// An absent checksum is before a present one.
fn cmp_checksums(a: &Option<Checksum>, b: &Option<Checksum>) -> Ordering
    ensures { result
        ≡ option_cmp text_cmp (option_map digest_of a.now) (option_map digest_of b.now) }
{
    match (a, b) {
        (None, None) => Ordering::Equal,
        (None, Some(_)) => Ordering::Less,
        (Some(_), None) => Ordering::Greater,
        (Some(Checksum::Sha256(a)), Some(Checksum::Sha256(b))) => a.cmp(b),
    }
}

impl Hash for Package {
    ghost use Rattle.cargo_lock_parts.specs.IdentityOrder.{package_hash};
    ghost use Rattle.cargo_lock_parts.specs.IdentityLaws.{package_alike};

    ghost hash_input = { package_hash };

    ghost respects_eq = { package_alike };

    fn hash<H: Hasher>(&self, state: &mut H) {
        self.name.hash(state);
        self.version.hash(state);
        self.source.hash(state);
        self.dependencies.hash(state);
    }
}
