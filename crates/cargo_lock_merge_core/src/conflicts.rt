//! What the two sides are in conflict about.

ghost use Rattle.std.specs.Prelude.{◌≡◌, ℕ, IfOk, IsOkUnless, OnOk, option_map};
ghost use Rattle.std.specs.Bool.{Decides};
ghost use Rattle.cargo_lock_parts.specs.declared.error.Error.TheVariants.{Memory};
ghost use Rattle.cargo_lock_merge_core.specs.Conflicts.{AreConflicts, HasConflict, HasPutConflict};
ghost use Rattle.cargo_lock_merge_core.specs.Conflicts.{IsConflictOf, IsSourceOfEither, content_if};
ghost use Rattle.cargo_lock_merge_core.specs.Conflicts.{now_if};
ghost use Rattle.cargo_lock_merge_core.specs.Disputes.{HasDispute};
ghost use Rattle.cargo_lock_merge_core.specs.Merge.{Triple, lockfiles_of};
ghost use Rattle.cargo_lock_merge_core.specs.Merged.{HasPlan};
ghost use Rattle.cargo_lock_merge_core.specs.Choices.{HasLostChecksum, HasTwoNewVersions};
ghost use Rattle.cargo_lock_merge_core.specs.Numbered.{data_if, placed_data};

use crate::choices::{are_disputed, are_of_member};
use crate::commits::{Commits, SourceCommits};
use crate::disputes::disputed;
use crate::entry::{Chosen, Entry};
use crate::placed::Placed;
use crate::plan::Plan;
use crate::rows::Row;
use crate::values::{has_checksum, lacks_checksum};
use cargo_lock_parts::error::Result;
use cargo_lock_parts::package::Package;
use lists::marks::is_marked;
use std::alloc::Global;

/// What the sides can be in conflict about at a place.
#[derive(Clone, Copy)]
pub enum Kind {
    /// The package, though not about the commit of its source.
    Package,

    /// Its checksum.
    Checksum,

    /// Its replacement.
    Replacement,

    /// The version of a member of the workspace, which both sides changed. This is no conflict.
    Version,

    /// A checksum that a side lost. This is no conflict.
    LostChecksum,
}

/// A conflict about what is at a place.
#[derive(Clone, Copy)]
pub struct Conflict<'a> {
    /// What it is about.
    pub kind: Kind,

    /// The place.
    pub place: usize,

    /// The package of the base there.
    pub base: Option<&'a Package>,

    /// Ours.
    pub ours: Option<&'a Package>,

    /// Theirs.
    pub theirs: Option<&'a Package>,

    /// The one that is chosen. `None` if the conflict is about the package.
    pub chosen: Option<&'a Package>,

    /// The git source of our package, or of theirs if we have none, with its commits.
    pub source: Option<SourceCommits<'a>>,
}

/// The conflicts about this at the places that are reached, in the order of the places. The commits
/// are those of the three lists of the plan. The one error is `Memory`.
pub fn conflicts<'a, 'd>(
    alloc: Global,
    commits: &Commits<'a, 'd>,
    plan: &Plan<'a, 'd>,
    kind: Kind,
) -> Result<Vec<Conflict<'a>>>
    ensures ok { IfOk result (λ all. (s : Triple ℕ) → HasPlan s plan.now
        → commits.now ≡ lockfiles_of s → AreConflicts s kind all.items) }
    ensures err { IsOkUnless result Memory }
{
    let mut all = Vec::new(alloc);
    for (at, entry) in plan.entries.iter().enumerate() {
        if is_marked(&plan.reached, at) {
            put_conflict(&mut all, commits, entry, kind)?;
        }
    }
    Ok(all)
}

// Adds the conflict about this at the place of the entry, if there is one.
fn put_conflict<'a, 'd>(
    all: &mut Vec<Conflict<'a>>,
    commits: &Commits<'a, 'd>,
    entry: &Entry<'a, 'd>,
    kind: Kind,
) -> Result<()>
    ensures ok { OnOk result
        (HasPutConflict commits.now kind entry.now all.old.items all.new.items) }
    ensures err { IsOkUnless result Memory }
{
    if has_conflict(commits, entry, kind)? {
        all.push(conflict_at(commits, entry, kind)?)?;
    }
    Ok(())
}

// The conflict about this at the place of the entry.
fn conflict_at<'a, 'd>(
    commits: &Commits<'a, 'd>,
    entry: &Entry<'a, 'd>,
    kind: Kind,
) -> Result<Conflict<'a>>
    ensures ok { IfOk result (IsConflictOf commits.now kind entry.now) }
    ensures err { IsOkUnless result Memory }
{
    let row = &entry.row;
    let ours = package_if(row.ours);
    let theirs = package_if(row.theirs);
    let source = source_of_either(commits, ours, theirs)?;
    Ok(Conflict {
        kind,
        place: row.place,
        base: package_if(row.base),
        ours,
        theirs,
        chosen: chosen_if(entry.chosen),
        source,
    })
}

fn package_if<'a>(package: Option<Placed<'a, '_>>) -> Option<&'a Package>
    ensures { now_if result ≡ content_if (data_if «package».entry) }
{
    match package {
        Some(package) => Some(package.package),
        None => None,
    }
}

fn chosen_if<'a>(chosen: Option<Chosen<'a, '_>>) -> Option<&'a Package>
    ensures { now_if result ≡ option_map (λ c. c.«package».«package».now) chosen.entry }
{
    match chosen {
        Some(chosen) => Some(chosen.package.package),
        None => None,
    }
}

// The git source of our package, or of theirs if we have none.
fn source_of_either<'a, 'd>(
    commits: &Commits<'a, 'd>,
    ours: Option<&'a Package>,
    theirs: Option<&'a Package>,
) -> Result<Option<SourceCommits<'a>>>
    ensures ok { IfOk result (IsSourceOfEither commits.now (now_if ours.entry)
        (now_if theirs.entry)) }
    ensures err { IsOkUnless result Memory }
{
    match (ours, theirs) {
        (Some(ours), _) => commits.source_of(ours),
        (None, Some(theirs)) => commits.source_of(theirs),
        (None, None) => Ok(None),
    }
}

// Whether the sides are in conflict about this at the place of the entry.
fn has_conflict<'a, 'd>(
    commits: &Commits<'a, 'd>,
    entry: &Entry<'a, 'd>,
    kind: Kind,
) -> Result<bool>
    ensures ok { IfOk result (λ found. Decides found
        (HasConflict commits.now kind entry.now.row entry.now.chosen)) }
    ensures err { IsOkUnless result Memory }
{
    match (entry.chosen, kind) {
        (None, Kind::Package) => Ok(is_undisputed(commits, &entry.row)?),
        (Some(chosen), Kind::Checksum) => Ok(chosen.checksum.is_none()),
        (Some(chosen), Kind::Replacement) => Ok(chosen.replacement.is_none()),
        (Some(_), Kind::Version) => Ok(have_two_new_versions(&entry.row)),
        (Some(chosen), Kind::LostChecksum) => Ok(is_checksum_lost(&entry.row, chosen.package)),
        _ => Ok(false),
    }
}

// Whether all three have a member of the workspace, in versions that differ.
fn have_two_new_versions(row: &Row) -> bool
    ensures { Decides result (HasTwoNewVersions (data_if row.now.base) (data_if row.now.ours)
        (data_if row.now.theirs)) }
{
    match (row.ours, row.theirs) {
        (Some(ours), Some(theirs)) => {
            are_of_member(row.base, ours, theirs) && are_disputed(row.base, ours, theirs)
        }
        _ => false,
    }
}

// Whether the base has a checksum of the chosen package, and a side has it no more.
fn is_checksum_lost(row: &Row, chosen: Placed) -> bool
    ensures { Decides result (HasLostChecksum (data_if row.now.base) (data_if row.now.ours)
        (data_if row.now.theirs) (placed_data chosen.entry)) }
{
    has_checksum(chosen, row.base)
        && (lacks_checksum(chosen, row.ours) || lacks_checksum(chosen, row.theirs))
}

// Whether the sides are in conflict about the commit of no source of the row.
fn is_undisputed<'a, 'd>(commits: &Commits<'a, 'd>, row: &Row<'a, 'd>) -> Result<bool>
    ensures ok { IfOk result (λ found. Decides found (¬ HasDispute commits.now row.now)) }
    ensures err { IsOkUnless result Memory }
{
    let ours = disputed(commits, row.ours)?;
    let theirs = disputed(commits, row.theirs)?;
    Ok(ours.is_none() && theirs.is_none())
}
