//! Requirements on versions, as advisories have them, and which versions lie in one.

ghost use Rattle.std.specs.Prelude.{◌≡◌};
ghost use Rattle.semver.specs.Identifiers.{parts_of};
ghost use Rattle.cargo_lock_audit.specs.Requirement.{lies_in, meets};

use semver::Version;
use std::cmp::Ordering;
use std::marker::Model;

/// How a version relates to the version of a bound, by the precedence of SemVer 2.0.
#[derive(Clone, Copy)]
pub enum Relation {
    /// `=`: it is neither before nor after.
    Exact,

    /// `>`: it is after.
    Greater,

    /// `>=`: it is not before.
    GreaterEq,

    /// `<`: it is before.
    Less,

    /// `<=`: it is not after.
    LessEq,
}

/// A bound of a requirement.
#[derive(Drop)]
pub struct Bound {
    /// How versions that meet it relate to its version.
    pub relation: Relation,

    /// Its version, whose build metadata counts for nothing.
    pub version: Version,
}

impl Model for Bound {
    ghost use Rattle.semver.specs.Identifiers.{parts_of};
    ghost use Rattle.cargo_lock_audit.specs.Requirement.{BoundData};

    ghost Value = { BoundData };

    ghost view = { λ b. record { relation = b.relation; version = parts_of b.version } };
}

impl Bound {
    /// Whether the version meets the bound. Pre-releases are versions like others, and build
    /// metadata counts for nothing.
    pub fn is_met_by(&self, version: &Version) -> bool
        ensures { result ≡ meets (parts_of version.now) self.now }
    {
        let ordering = version.cmp_precedence(&self.version);
        match self.relation {
            Relation::Exact => ordering == Ordering::Equal,
            Relation::Greater => ordering == Ordering::Greater,
            Relation::GreaterEq => ordering != Ordering::Less,
            Relation::Less => ordering == Ordering::Less,
            Relation::LessEq => ordering != Ordering::Greater,
        }
    }
}

/// A requirement on versions: the bounds that versions in it meet. Unlike in Cargo, a pre-release
/// is a version like others, and a number that is left out is 0.
#[derive(Drop)]
pub struct Requirement {
    /// Its text.
    pub text: String,

    /// Its bounds.
    pub bounds: Vec<Bound>,
}

impl Model for Requirement {
    ghost use Rattle.std.specs.Prelude.{string_bytes};
    ghost use Rattle.cargo_lock_audit.specs.Requirement.{RequirementData};

    ghost Value = { RequirementData };

    ghost view = { λ r. record { text = string_bytes r.text; bounds = r.bounds.items } };
}

impl Requirement {
    /// Whether the version lies in the requirement, so meets each of its bounds.
    ///
    /// ```
    /// let is_patched = requirement.contains(&package.version);
    /// ```
    pub fn contains(&self, version: &Version) -> bool
        ensures { result ≡ lies_in (parts_of version.now) self.now }
    {
        self.bounds.iter().all(|bound| bound.is_met_by(version))
    }
}
