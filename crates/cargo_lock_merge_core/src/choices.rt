//! Which package a merge has at a place.

ghost use Rattle.std.specs.Prelude.{◌≡◌, ℕ, Bool, IfOk, IsOkUnless, None, Option, Some};
ghost use Rattle.std.specs.Prelude.{if◌then◌else◌};
ghost use Rattle.std.specs.Bool.{Decides};
ghost use Rattle.cargo_lock_parts.specs.declared.error.Error.TheVariants.{Memory};
ghost use Rattle.cargo_lock_merge_core.specs.Agreed.{AreEqual, IsSideAt, IsUsable, IsVersionSide};
ghost use Rattle.cargo_lock_merge_core.specs.Choices.{AreAbove, AreOfGit, AreOfMember, AreUpdated};
ghost use Rattle.cargo_lock_merge_core.specs.Choices.{HasLowerVersion, IsVersionDecisive};
ghost use Rattle.cargo_lock_merge_core.specs.Commits.{Lockfiles};
ghost use Rattle.cargo_lock_merge_core.specs.Numbered.{IsChoice, data_if, placed_data};
ghost use Rattle.cargo_lock_merge_core.specs.Placed.{PlacedData, key, key_if};
ghost use Rattle.cargo_lock_merge_core.specs.Rule3.{IsInConflict};

use crate::commits::Commits;
use crate::placed::{Placed, are_same, cmp_versions, has_no_source, is_of_git, is_of_registry};
use crate::rule3::{Equal, Side, agreed_side};
use cargo_lock_parts::error::Result;
use cargo_lock_parts::package::Package;
use std::cmp::Ordering;

/// The side whose package a merge has at a place where the base and the two sides have these
/// packages. `None` if neither side has one there, or if the sides are in conflict about it. The
/// one error is `Memory`.
pub fn choose<'a, 'd>(
    commits: &Commits<'a, 'd>,
    base: Option<Placed<'a, 'd>>,
    ours: Option<Placed<'a, 'd>>,
    theirs: Option<Placed<'a, 'd>>,
) -> Result<Option<Side>>
    ensures ok { IfOk result (IsChoice commits.now (data_if base.entry) (data_if ours.entry)
        (data_if theirs.entry)) }
    ensures err { IsOkUnless result Memory }
{
    match (ours, theirs) {
        (None, None) => Ok(None),
        (Some(only), None) => choose_only(commits, only, Side::Ours),
        (None, Some(only)) => choose_only(commits, only, Side::Theirs),
        (Some(ours), Some(theirs)) => choose_of_both(commits, base, ours, theirs),
    }
}

// The side, if its package is chosen where the other side has none.
fn choose_only<'a, 'd>(
    commits: &Commits<'a, 'd>,
    only: Placed<'a, 'd>,
    side: Side,
) -> Result<Option<Side>>
    ensures ok { IfOk result (λ chosen. (taken : Bool) × Decides taken
        (IsUsable commits.now only.entry.package.now)
        × (chosen ≡ (if taken then Some side else None))) }
    ensures err { IsOkUnless result Memory }
{
    let taken = is_usable(commits, only.package)?;
    Ok(if taken { Some(side) } else { None })
}

// Whether the only package at a place is chosen.
fn is_usable<'a, 'd>(commits: &Commits<'a, 'd>, package: &Package) -> Result<bool>
    ensures ok { IfOk result (λ usable. Decides usable (IsUsable commits.now «package».now)) }
    ensures err { IsOkUnless result Memory }
{
    if is_of_git(package) {
        commits.has(package)
    } else {
        Ok(true)
    }
}

// The side whose package is chosen where both have one.
fn choose_of_both<'a, 'd>(
    commits: &Commits<'a, 'd>,
    base: Option<Placed<'a, 'd>>,
    ours: Placed<'a, 'd>,
    theirs: Placed<'a, 'd>,
) -> Result<Option<Side>>
    ensures ok { IfOk result (IsChoice commits.now (data_if base.entry)
        (Some (placed_data ours.entry)) (Some (placed_data theirs.entry))) }
    ensures err { IsOkUnless result Memory }
{
    if is_of_git(ours.package) || is_of_git(theirs.package) {
        choose_by_commit(commits, ours, theirs)
    } else {
        Ok(choose_by_rule(base, ours, theirs))
    }
}

// The side whose package is at the merged commit.
fn choose_by_commit<'a, 'd>(
    commits: &Commits<'a, 'd>,
    ours: Placed<'a, 'd>,
    theirs: Placed<'a, 'd>,
) -> Result<Option<Side>>
    requires { AreOfGit (Some (placed_data ours)) (Some (placed_data theirs)) }
    ensures ok { IfOk result (λ side. (b : Option (PlacedData ℕ)) → IsChoice commits.now b
        (Some (placed_data ours.entry)) (Some (placed_data theirs.entry)) side) }
    ensures err { IsOkUnless result Memory }
{
    let ours_at = commits.has(ours.package)?;
    let theirs_at = commits.has(theirs.package)?;
    let same = are_same(ours.package, theirs.package);
    Ok(side_at(ours_at, theirs_at, same))
}

// The side that is at the commit. `None` if neither is, and if both are and differ.
fn side_at(ours: bool, theirs: bool, same: bool) -> Option<Side>
    ensures { IsSideAt ours theirs same result }
{
    match (ours, theirs) {
        (true, false) => Some(Side::Ours),
        (false, true) => Some(Side::Theirs),
        (true, true) => if same { Some(Side::Ours) } else { None },
        (false, false) => None,
    }
}

// The side whose package is agreed on, or else has the greater version where that decides.
fn choose_by_rule<'a, 'd>(
    base: Option<Placed<'a, 'd>>,
    ours: Placed<'a, 'd>,
    theirs: Placed<'a, 'd>,
) -> Option<Side>
    requires { ¬ AreOfGit (Some (placed_data ours)) (Some (placed_data theirs)) }
    ensures { (all : Lockfiles) → IsChoice all (data_if base.entry) (Some (placed_data ours.entry))
        (Some (placed_data theirs.entry)) result }
{
    match agreed_side(equality(base, ours, theirs)) {
        Some(side) => Some(side),
        None => choose_by_version(base, ours, theirs),
    }
}

// Which of the identities are equal.
fn equality<'a, 'd>(
    base: Option<Placed<'a, 'd>>,
    ours: Placed<'a, 'd>,
    theirs: Placed<'a, 'd>,
) -> Equal
    ensures { AreEqual (key_if (data_if base.entry)) (Some (key (placed_data ours.entry)))
        (Some (key (placed_data theirs.entry))) result }
{
    Equal {
        sides: are_same(ours.package, theirs.package),
        ours: is_same_as(base, ours),
        theirs: is_same_as(base, theirs),
    }
}

/// Whether both sides changed the identity of the package, each to another one.
pub fn are_disputed<'a, 'd>(
    base: Option<Placed<'a, 'd>>,
    ours: Placed<'a, 'd>,
    theirs: Placed<'a, 'd>,
) -> bool
    ensures { Decides result (IsInConflict (key_if (data_if base.entry))
        (Some (key (placed_data ours.entry))) (Some (key (placed_data theirs.entry)))) }
{
    agreed_side(equality(base, ours, theirs)).is_none()
}

/// Whether the package has the identity of that of the base, if there is one.
pub fn is_same_as<'a, 'd>(base: Option<Placed<'a, 'd>>, package: Placed<'a, 'd>) -> bool
    ensures { Decides result
        (Some (key (placed_data «package».entry)) ≡ key_if (data_if base.entry)) }
{
    match base {
        Some(base) => are_same(package.package, base.package),
        None => false,
    }
}

// The side with the greater version, where that decides.
fn choose_by_version<'a, 'd>(
    base: Option<Placed<'a, 'd>>,
    ours: Placed<'a, 'd>,
    theirs: Placed<'a, 'd>,
) -> Option<Side>
    ensures { IsVersionSide (data_if base.entry) (placed_data ours.entry) (placed_data theirs.entry)
        result }
{
    if !is_version_decisive(base, ours, theirs) {
        return None;
    }
    match cmp_versions(ours.package, theirs.package) {
        Ordering::Less => Some(Side::Theirs),
        Ordering::Equal => None,
        Ordering::Greater => Some(Side::Ours),
    }
}

// Whether the greater version decides: of a package of a registry, if both versions are above that
// of the base, or of a member of the workspace.
fn is_version_decisive<'a, 'd>(
    base: Option<Placed<'a, 'd>>,
    ours: Placed<'a, 'd>,
    theirs: Placed<'a, 'd>,
) -> bool
    ensures { Decides result (IsVersionDecisive (data_if base.entry) (placed_data ours.entry)
        (placed_data theirs.entry)) }
{
    are_updated(base, ours, theirs) || are_of_member(base, ours, theirs)
}

// Whether both packages are of a registry, with versions above that of the base.
fn are_updated<'a, 'd>(
    base: Option<Placed<'a, 'd>>,
    ours: Placed<'a, 'd>,
    theirs: Placed<'a, 'd>,
) -> bool
    ensures { Decides result (AreUpdated (data_if base.entry) (placed_data ours.entry)
        (placed_data theirs.entry)) }
{
    is_of_registry(ours.package) && is_of_registry(theirs.package) && are_above(base, ours, theirs)
}

/// Whether all three have the package, and none has a source for it.
pub fn are_of_member<'a, 'd>(
    base: Option<Placed<'a, 'd>>,
    ours: Placed<'a, 'd>,
    theirs: Placed<'a, 'd>,
) -> bool
    ensures { Decides result (AreOfMember (data_if base.entry) (placed_data ours.entry)
        (placed_data theirs.entry)) }
{
    match base {
        Some(base) => {
            has_no_source(base.package)
                && has_no_source(ours.package)
                && has_no_source(theirs.package)
        }
        None => false,
    }
}

// Whether both versions are above that of the base, if there is one.
fn are_above<'a, 'd>(
    base: Option<Placed<'a, 'd>>,
    ours: Placed<'a, 'd>,
    theirs: Placed<'a, 'd>,
) -> bool
    ensures { Decides result (AreAbove (data_if base.entry) (placed_data ours.entry)
        (placed_data theirs.entry)) }
{
    match base {
        Some(base) => is_below(base, ours) && is_below(base, theirs),
        None => true,
    }
}

// Whether the version of the other package is above that of this one.
fn is_below<'a, 'd>(one: Placed<'a, 'd>, other: Placed<'a, 'd>) -> bool
    ensures { Decides result (HasLowerVersion (placed_data one.entry) (placed_data other.entry)) }
{
    cmp_versions(one.package, other.package) == Ordering::Less
}
