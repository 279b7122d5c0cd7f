//! Laws of this crate, each the contract of a function without a body, but for the two of the order
//! that a type derives.

ghost use Rattle.std.specs.Prelude.{◌≡◌};
ghost use Rattle.cargo_lock_parts.specs.Checksum.{DigestsReadBack};
ghost use Rattle.cargo_lock_parts.specs.Equality.{EqualDependencies, EqualPackages, EqualPatches};
ghost use Rattle.cargo_lock_parts.specs.Equality.{EqualSources};
ghost use Rattle.cargo_lock_parts.specs.FileUrl.{RootedPathsHaveSources};
ghost use Rattle.cargo_lock_parts.specs.Rank.{RankIsSymmetric, RankOneIsEqualKeys, NoRankIsNoMatch};
ghost use Rattle.cargo_lock_parts.specs.Rank.{RanksImplyLast};
ghost use Rattle.cargo_lock_parts.specs.Source.{git_reference_of, kind_of};
ghost use Rattle.cargo_lock_parts.specs.SourceKey.{git_reference_cmp, kind_cmp};

use crate::package::source::{GitReference, SourceKind};
use std::cmp::Ordering;

/// The rank of two sources is the same in both directions.
pub fn rank_is_symmetric()
    ensures { RankIsSymmetric }
{}

/// The rank is 1 exactly if the sources are equal, which means that their keys are.
pub fn rank_one_is_equal_keys()
    ensures { RankOneIsEqualKeys }
{}

/// There is no rank exactly if the condition of rank 4 does not hold.
pub fn no_rank_is_no_match()
    ensures { NoRankIsNoMatch }
{}

/// The condition of each rank implies that of rank 4, the widest.
pub fn ranks_imply_last()
    ensures { RanksImplyLast }
{}

/// Each absolute path has a source, so the calls that take a path refuse only the others.
pub fn rooted_paths_have_sources()
    ensures { RootedPathsHaveSources }
{}

/// The 32 bytes of every checksum read back from their digits.
pub fn checksums_read_back()
    ensures { DigestsReadBack }
{}

/// Two sources are equal exactly where their keys are: their URL texts, names and kinds with their
/// references, and for git their precise texts.
pub fn sources_are_equal_by_keys()
    ensures { EqualSources }
{}

/// Two dependencies are equal exactly where their names, their versions and the keys of their
/// sources are.
pub fn dependencies_are_equal_by_keys()
    ensures { EqualDependencies }
{}

/// Two packages are equal exactly where their names, versions, keys of sources and checksums are,
/// and the keys of their dependencies, in order, and of their replacements.
pub fn packages_are_equal_by_keys()
    ensures { EqualPackages }
{}

/// Two patches are equal exactly where the keys of their unused patches are, in order.
pub fn patches_are_equal_by_keys()
    ensures { EqualPatches }
{}

/// Kinds have this order: git repositories, paths, registries, sparse registries, local registries,
/// directories. Two git repositories have the order of their references.
pub fn kinds_compare_in_order(one: &SourceKind, other: &SourceKind) -> Ordering
    ensures { result ≡ kind_cmp (kind_of one.now) (kind_of other.now) }
{
    one.cmp(other)
}

/// References have this order: the default branch, tags, branches, commits. Two of one kind have
/// the order of their texts, byte by byte.
pub fn git_references_compare_in_order(one: &GitReference, other: &GitReference) -> Ordering
    ensures { result ≡ git_reference_cmp (git_reference_of one.now) (git_reference_of other.now) }
{
    one.cmp(other)
}
