//! The keys by which packages are looked up.

ghost use Rattle.std.specs.Prelude.{◌≡◌, option_map};
ghost use Rattle.std.specs.Option.{option_cmp};
ghost use Rattle.semver.specs.Identifiers.{parts_of};
ghost use Rattle.cargo_lock_parts.specs.IdentityOrder.{version_cmp};
ghost use Rattle.cargo_lock_parts.specs.SourceKey.{source_cmp};

use crate::package::{Name, SourceId, Version};
use std::cmp::Ordering;
use std::marker::Model;

/// A name and, optionally, a version and a source: a key of maps over packages. It borrows its
/// parts, so a look-up copies none. Keys compare by name, version and source, and an absent part is
/// before a present one.
#[derive(Drop)]
pub struct PartialIdentity<'a> {
    /// The name.
    pub name: &'a Name,

    /// The version, if the key has one.
    pub version: Option<&'a Version>,

    /// The source, if the key has one.
    pub source: Option<&'a SourceId>,
}

impl<'a> Model for PartialIdentity<'a> {
    ghost use Rattle.std.specs.Prelude.{option_map};
    ghost use Rattle.semver.specs.Identifiers.{parts_of};
    ghost use Rattle.cargo_lock_parts.specs.PartialIdentity.{PartialIdentity};

    ghost Value = { PartialIdentity };

    ghost view = { λ i. record {
      name = i.name.now;
      version = option_map (λ v. parts_of v.now) i.version;
      source = option_map (λ s. s.now) i.source;
    } };
}

impl<'a> PartialIdentity<'a> {
    ghost use Rattle.cargo_lock_parts.specs.PartialIdentity.{name_alone, name_and_version};

    /// The key for all packages of this name.
    pub fn name_alone(name: &'a Name) -> PartialIdentity<'a>
        ensures { result ≡ name_alone name.now }
    {
        PartialIdentity {
            name,
            version: None,
            source: None,
        }
    }

    /// The key for all packages of this name and version.
    pub fn name_and_version(name: &'a Name, version: &'a Version) -> PartialIdentity<'a>
        ensures { result ≡ name_and_version name.now (parts_of version.now) }
    {
        PartialIdentity {
            name,
            version: Some(version),
            source: None,
        }
    }
}

impl<'a> PartialEq for PartialIdentity<'a> {
    ghost use Rattle.std.specs.Cmp.{partial_equiv_from_equiv, eq_by_cmp_equiv};
    ghost use Rattle.cargo_lock_parts.specs.PartialIdentity.{is_same_partial_identity};
    ghost use Rattle.cargo_lock_parts.specs.PartialIdentity.{partial_identity_total};

    ghost eq = { is_same_partial_identity };

    ghost laws = { partial_equiv_from_equiv (eq_by_cmp_equiv partial_identity_total) };

    fn eq(&self, other: &PartialIdentity<'a>) -> bool {
        self.cmp(other) == Ordering::Equal
    }
}

impl<'a> Eq for PartialIdentity<'a> {
    ghost use Rattle.std.specs.Cmp.{eq_by_cmp_equiv};
    ghost use Rattle.cargo_lock_parts.specs.PartialIdentity.{partial_identity_total};

    ghost laws = { eq_by_cmp_equiv partial_identity_total };
}

impl<'a> PartialOrd for PartialIdentity<'a> {
    ghost use Rattle.std.specs.Ordering.{as_partial_cmp};
    ghost use Rattle.std.specs.Cmp.{partial_order_from_total};
    ghost use Rattle.cargo_lock_parts.specs.PartialIdentity.{partial_identity_cmp};
    ghost use Rattle.cargo_lock_parts.specs.PartialIdentity.{partial_identity_total};

    ghost partial_cmp = { as_partial_cmp partial_identity_cmp };

    ghost laws = { partial_order_from_total partial_identity_total };

    fn partial_cmp(&self, other: &PartialIdentity<'a>) -> Option<Ordering> {
        Some(self.cmp(other))
    }
}

impl<'a> Ord for PartialIdentity<'a> {
    ghost use Rattle.std.specs.Prelude.{refl};
    ghost use Rattle.cargo_lock_parts.specs.PartialIdentity.{partial_identity_cmp};
    ghost use Rattle.cargo_lock_parts.specs.PartialIdentity.{partial_identity_total};

    ghost cmp = { partial_identity_cmp };

    ghost total = { partial_identity_total };

    ghost matches_partial_cmp = { λ a b. refl };

    ghost matches_eq = { λ a b. refl };

    fn cmp(&self, other: &PartialIdentity<'a>) -> Ordering {
        match self.name.cmp(other.name) {
            Ordering::Less => Ordering::Less,
            Ordering::Equal => {
                let versions = cmp_versions(self.version, other.version);
                versions.then(cmp_sources(self.source, other.source))
            }
            Ordering::Greater => Ordering::Greater,
        }
    }
}

// An absent version is before a present one.
fn cmp_versions(a: Option<&Version>, b: Option<&Version>) -> Ordering
    ensures { result ≡ option_cmp version_cmp
        (option_map (λ v. parts_of v.now) a.entry) (option_map (λ v. parts_of v.now) b.entry) }
{
    a.cmp(&b)
}

// An absent source is before a present one.
fn cmp_sources(a: Option<&SourceId>, b: Option<&SourceId>) -> Ordering
    ensures { result ≡ option_cmp source_cmp
        (option_map (λ s. s.now) a.entry) (option_map (λ s. s.now) b.entry) }
{
    a.cmp(&b)
}
