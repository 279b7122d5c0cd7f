//! Dependencies of packages.

ghost use Rattle.std.specs.Prelude.{◌≡◌, ◌↔◌, IfOk, IsOkUnless, IsTrue};
ghost use Rattle.cargo_lock_parts.specs.declared.error.Error.TheVariants.{Memory};

use crate::error::Result;
use crate::package::{Name, Package, SourceId};
use semver::Version;
use serde::{Deserialize, Serialize};
use std::alloc::AllocError;
use std::cmp::Ordering;
use std::fmt;
use std::hash::{Hash, Hasher};
use std::marker::Model;

/// A dependency on a package: the name, the version and the source of the package. Two are equal
/// where the three are, and they compare in this order.
#[derive(Debug, Drop, Serialize, Deserialize)]
pub struct Dependency {
    /// The package's name.
    pub name: Name,

    /// The package's version.
    #[serde(with = crate::serialization::version)]
    pub version: Version,

    /// Where the package comes from. A package of the workspace itself has no source.
    pub source: Option<SourceId>,
}

impl Model for Dependency {
    ghost use Rattle.semver.specs.Identifiers.{parts_of};
    ghost use Rattle.cargo_lock_parts.specs.Identity.{Identity};

    ghost Value = { Identity };

    ghost view = { λ d. record { name = d.name; version = parts_of d.version; source = d.source } };
}

impl Dependency {
    ghost use Rattle.cargo_lock_parts.specs.Identity.{HasNameAndVersion, identity_of};

    /// The dependency on a package: its name, version and source. The one error is `Memory`.
    ///
    /// ```
    /// let dependency = Dependency::of(library)?;
    /// application.dependencies.push(dependency)?;
    /// ```
    pub fn of(package: &Package) -> Result<Dependency>
        ensures ok { IfOk result (λ d. d ≡ identity_of «package».now) }
        ensures err { IsOkUnless result Memory }
    {
        Ok(Dependency {
            name: package.name.clone()?,
            version: package.version.clone()?,
            source: package.source.clone()?,
        })
    }

    /// Whether the package has this name and this version. Its source is not compared.
    pub fn matches(&self, package: &Package) -> bool
        ensures { IsTrue result ↔ HasNameAndVersion self.now «package».now }
    {
        self.name == package.name && self.version == package.version
    }
}

impl fmt::Display for Dependency {
    ghost use Rattle.std.specs.Prelude.{Some};
    ghost use Rattle.cargo_lock_parts.specs.Identity.{dependency_text};

    ghost output = { λ d. Some (dependency_text d) };

    fn fmt<W: fmt::Write>(&self, f: &mut fmt::Formatter<W>) -> fmt::Result {
        let name = &self.name;
        let version = &self.version;
        match &self.source {
            Some(source) => write!(f, "{name} {version} ({source})"),
            None => write!(f, "{name} {version}"),
        }
    }
}

impl Clone for Dependency {
    ghost is_clone = { λ one copy. copy ≡ one };

    fn clone(&self) -> std::result::Result<Dependency, AllocError> {
        Ok(Dependency {
            name: self.name.clone()?,
            version: self.version.clone()?,
            source: self.source.clone()?,
        })
    }
}

impl PartialEq for Dependency {
    ghost use Rattle.std.specs.Cmp.{partial_equiv_from_equiv, eq_by_cmp_equiv};
    ghost use Rattle.cargo_lock_parts.specs.IdentityOrder.{is_same_identity};
    ghost use Rattle.cargo_lock_parts.specs.IdentityLaws.{identity_total};

    ghost eq = { is_same_identity };

    ghost laws = { partial_equiv_from_equiv (eq_by_cmp_equiv identity_total) };

    fn eq(&self, other: &Dependency) -> bool {
        self.cmp(other) == Ordering::Equal
    }
}

impl Eq for Dependency {
    ghost use Rattle.std.specs.Cmp.{eq_by_cmp_equiv};
    ghost use Rattle.cargo_lock_parts.specs.IdentityLaws.{identity_total};

    ghost laws = { eq_by_cmp_equiv identity_total };
}

impl PartialOrd for Dependency {
    ghost use Rattle.std.specs.Ordering.{as_partial_cmp};
    ghost use Rattle.std.specs.Cmp.{partial_order_from_total};
    ghost use Rattle.cargo_lock_parts.specs.IdentityOrder.{identity_cmp};
    ghost use Rattle.cargo_lock_parts.specs.IdentityLaws.{identity_total};

    ghost partial_cmp = { as_partial_cmp identity_cmp };

    ghost laws = { partial_order_from_total identity_total };

    fn partial_cmp(&self, other: &Dependency) -> Option<Ordering> {
        Some(self.cmp(other))
    }
}

impl Ord for Dependency {
    ghost use Rattle.std.specs.Prelude.{refl};
    ghost use Rattle.cargo_lock_parts.specs.IdentityOrder.{identity_cmp};
    ghost use Rattle.cargo_lock_parts.specs.IdentityLaws.{identity_total};

    ghost cmp = { identity_cmp };

    ghost total = { identity_total };

    ghost matches_partial_cmp = { λ a b. refl };

    ghost matches_eq = { λ a b. refl };

    fn cmp(&self, other: &Dependency) -> Ordering {
        self.name
            .cmp(&other.name)
            .then_with(|| self.version.cmp(&other.version))
            .then_with(|| self.source.cmp(&other.source))
    }
}

impl Hash for Dependency {
    ghost use Rattle.cargo_lock_parts.specs.IdentityOrder.{identity_hash};
    ghost use Rattle.cargo_lock_parts.specs.IdentityLaws.{identity_alike};

    ghost hash_input = { identity_hash };

    ghost respects_eq = { identity_alike };

    fn hash<H: Hasher>(&self, state: &mut H) {
        self.name.hash(state);
        self.version.hash(state);
        self.source.hash(state);
    }
}
