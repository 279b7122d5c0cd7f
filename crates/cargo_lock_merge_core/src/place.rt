//! The places of packages in lockfiles.

ghost use Rattle.std.specs.Prelude.{◌≡◌, IfOk, IsOkUnless, None, Some, false, option_map};
ghost use Rattle.semver.specs.Identifiers.{parts_of};
ghost use Rattle.cargo_lock_parts.specs.declared.error.Error.TheVariants.{Memory};
ghost use Rattle.cargo_lock_parts.specs.PartialIdentity.{partial_key};
ghost use Rattle.cargo_lock_parts.specs.SourceKey.{key_of};
ghost use Rattle.cargo_lock_edges.specs.Nearest.{key_without_commit};
ghost use Rattle.cargo_lock_merge_core.specs.Commits.{Lockfiles};
ghost use Rattle.cargo_lock_merge_core.specs.Located.{AreMemberCounts, IsLocated};
ghost use Rattle.cargo_lock_merge_core.specs.Places.{least_of_line, version_in};

use crate::member_counts::MemberCounts;
use cargo_lock_edges::words::without_commit;
use cargo_lock_parts::error::Result;
use cargo_lock_parts::package::{Name, Package, PartialIdentity, SourceId, Version};

/// Three lists of packages: the base, ours and theirs.
#[derive(Clone, Copy)]
pub struct Lists<'a> {
    /// The base.
    pub base: &'a [Package],

    /// Ours.
    pub ours: &'a [Package],

    /// Theirs.
    pub theirs: &'a [Package],
}

/// What of the version and of the source of a package its place has.
#[derive(Drop)]
pub struct Located {
    version: Option<Version>,
    source: Option<SourceId>,
}

/// The version and the source of the package's place. It has the version of a package without a
/// source only if one of the lists has several packages of the name. The one error is `Memory`.
pub fn locate<'a>(counts: &MemberCounts<'a>, package: &'a Package) -> Result<Located>
    ensures ok { IfOk result (λ located. (all : Lockfiles) → AreMemberCounts all counts.now
        → IsLocated all «package».now located) }
    ensures err { IsOkUnless result Memory }
{
    match &package.source {
        Some(source) => locate_sourced(source, &package.version),
        None => locate_member(&package.version, counts.has_several(&package.name)),
    }
}

// The same of a package with a source.
fn locate_sourced(source: &SourceId, version: &Version) -> Result<Located>
    ensures ok { IfOk result (λ l.
        (option_map parts_of l.version ≡ version_in false (parts_of version.now) (Some source.now))
        × (option_map key_of l.source ≡ Some (key_without_commit source.now))) }
    ensures err { IsOkUnless result Memory }
{
    let bare = without_commit(source)?;
    let version = if source.is_git() {
        None
    } else {
        Some(line_of(version))
    };
    Ok(Located {
        version,
        source: Some(bare),
    })
}

// The same of a package without a source.
fn locate_member(version: &Version, several: bool) -> Result<Located>
    ensures ok { IfOk result (λ l.
        (option_map parts_of l.version ≡ version_in several (parts_of version.now) None)
        × (option_map key_of l.source ≡ None)) }
    ensures err { IsOkUnless result Memory }
{
    let version = if several {
        Some(version.clone()?)
    } else {
        None
    };
    Ok(Located {
        version,
        source: None,
    })
}

/// The line of a version, as the least version in it: the numbers up to the first that is not zero.
pub fn line_of(version: &Version) -> Version
    ensures { parts_of result ≡ least_of_line (parts_of version.now) }
{
    if version.major != 0 {
        Version::new(version.major, 0, 0)
    } else if version.minor != 0 {
        Version::new(0, version.minor, 0)
    } else {
        Version::new(0, 0, version.patch)
    }
}

impl Located {
    /// The place of a package of this name.
    pub fn place<'a>(&'a self, name: &'a Name) -> PartialIdentity<'a>
        ensures { partial_key result ≡ record {
          name = name.now;
          version = option_map parts_of self.now.version;
          source = option_map key_of self.now.source;
        } }
    {
        PartialIdentity {
            name,
            version: self.version.as_ref(),
            source: self.source.as_ref(),
        }
    }
}
