//! The git sources about whose commit the sides are in conflict.

ghost use Rattle.std.specs.Prelude.{◌≡◌, ℕ, IfOk, IsOkUnless, IsTrue, MatchOption, OnOk};
ghost use Rattle.std.specs.Bool.{Decides};
ghost use Rattle.cargo_lock_parts.specs.Source.{is_git};
ghost use Rattle.cargo_lock_parts.specs.declared.error.Error.TheVariants.{Memory};
ghost use Rattle.cargo_lock_merge_core.specs.Commits.{Lockfiles};
ghost use Rattle.cargo_lock_merge_core.specs.Disputes.{AreDisputes, AreInDispute};
ghost use Rattle.cargo_lock_merge_core.specs.Disputes.{AreListedDisputes, HasNoDispute};
ghost use Rattle.cargo_lock_merge_core.specs.Disputes.{HasPutDispute, HasPutNew, IsDisputeOf};
ghost use Rattle.cargo_lock_merge_core.specs.Merge.{Triple, lockfiles_of};
ghost use Rattle.cargo_lock_merge_core.specs.Merged.{HasPlan};
ghost use Rattle.cargo_lock_merge_core.specs.Numbered.{data_if};

use crate::commits::{Commits, SourceCommits, equality};
use crate::placed::Placed;
use crate::plan::Plan;
use crate::rule3::agreed_side;
use cargo_lock_parts::error::Result;
use cargo_lock_parts::package::SourceId;
use lists::marks::is_marked;
use std::alloc::Global;
use std::collections::BTreeMap;

/// The git sources of which a place is reached, and about whose commit the sides are in conflict,
/// each once. The commits are those of the three lists of the plan. The one error is `Memory`.
pub fn disputes<'a, 'd>(
    alloc: Global,
    commits: &Commits<'a, 'd>,
    plan: &Plan<'a, 'd>,
) -> Result<Vec<SourceCommits<'a>>>
    ensures ok { IfOk result (λ all. (s : Triple ℕ) → HasPlan s plan.now
        → commits.now ≡ lockfiles_of s → AreDisputes s all.items) }
    ensures err { IsOkUnless result Memory }
{
    let mut all = Vec::new(alloc);
    let mut seen = BTreeMap::new(alloc);
    for (at, entry) in plan.entries.iter().enumerate() {
        if is_marked(&plan.reached, at) {
            put_dispute(&mut all, &mut seen, commits, entry.row.ours)?;
            put_dispute(&mut all, &mut seen, commits, entry.row.theirs)?;
        }
    }
    Ok(all)
}

// Adds the source of the package, if the sides are in conflict about its commit and it is not there
// yet.
fn put_dispute<'a, 'd>(
    all: &mut Vec<SourceCommits<'a>>,
    seen: &mut BTreeMap<SourceId, &'a SourceId>,
    commits: &Commits<'a, 'd>,
    package: Option<Placed<'a, 'd>>,
) -> Result<()>
    ensures ok { OnOk result (AreListedDisputes commits.now all.old.items seen.old
        → HasPutDispute commits.now (data_if «package».entry) all.old.items all.new.items seen.new) }
    ensures err { IsOkUnless result Memory }
{
    match disputed(commits, package)? {
        Some(found) => Ok(put_new(all, seen, found)?),
        None => Ok(()),
    }
}

// Adds a source, if it is not there yet.
fn put_new<'a>(
    all: &mut Vec<SourceCommits<'a>>,
    seen: &mut BTreeMap<SourceId, &'a SourceId>,
    found: SourceCommits<'a>,
) -> Result<()>
    requires { IsTrue (is_git found.source.now.kind) }
    ensures ok { OnOk result ((commits : Lockfiles)
        → AreListedDisputes commits all.old.items seen.old
        → HasPutNew commits found.entry all.old.items all.new.items seen.new) }
    ensures err { IsOkUnless result Memory }
{
    let bare = found.source.with_precise(None)?;
    match seen.insert(bare, found.source)? {
        Some(_) => Ok(()),
        None => Ok(all.push(found)?),
    }
}

/// The source of the package, if the sides are in conflict about its commit. The one error is
/// `Memory`.
pub(crate) fn disputed<'a, 'd>(
    commits: &Commits<'a, 'd>,
    package: Option<Placed<'a, 'd>>,
) -> Result<Option<SourceCommits<'a>>>
    ensures ok { IfOk result (λ found. MatchOption found
        (HasNoDispute commits.now (data_if «package».entry))
        (IsDisputeOf commits.now (data_if «package».entry))) }
    ensures err { IsOkUnless result Memory }
{
    let package = match package {
        Some(package) => package,
        None => return Ok(None),
    };
    let found = match commits.source_of(package.package)? {
        Some(found) => found,
        None => return Ok(None),
    };
    if is_disputed(found) {
        Ok(Some(found))
    } else {
        Ok(None)
    }
}

// Whether the sides are in conflict about these commits.
fn is_disputed(found: SourceCommits) -> bool
    ensures { Decides result (AreInDispute found.entry) }
{
    match (found.ours, found.theirs) {
        (Some(ours), Some(theirs)) => agreed_side(equality(found.base, ours, theirs)).is_none(),
        _ => false,
    }
}
