//! What a merge has at each place, and which places are reached.

ghost use Rattle.std.specs.Prelude.{◌≡◌, ◌↔◌, ℕ, All, IfOk, IsOkUnless, Some, length};
ghost use Rattle.std.specs.Prelude.{slice_get};
ghost use Rattle.std.specs.Bool.{Decides};
ghost use Rattle.std.specs.List.{AllZip};
ghost use Rattle.std.specs.List.Sorted.{IsStrictlyIncreasing};
ghost use Rattle.cargo_lock_parts.specs.declared.error.Error.TheVariants.{Memory};
ghost use Rattle.cargo_lock_merge_core.specs.Entries.{IsRowInOrder};
ghost use Rattle.cargo_lock_merge_core.specs.Numbered.{all_data, data_if};
ghost use Rattle.cargo_lock_merge_core.specs.Plans.{AreMergeEntries, HasEntries, IsMemberIf};
ghost use Rattle.cargo_lock_merge_core.specs.Plans.{IsNodeOf, IsNumbered, IsPlan, IsRootEntry};
ghost use Rattle.cargo_lock_merge_core.specs.Plans.{IsRootRow, LeadsToEntry, entry_places};
ghost use Rattle.cargo_lock_merge_core.specs.Plans.{numbered_triple};
ghost use Rattle.lists.specs.Chains.{IsReachedFrom};
ghost use Rattle.lists.specs.Marks.{IsMarked};

use crate::commits::Commits;
use crate::entry::{Entry, entry_at};
use crate::placed::{Placed, has_no_source};
use crate::reach::{Node, reached};
use crate::rows::{Row, rows};
use crate::rule3::keeps;
use cargo_lock_parts::error::Result;
use std::alloc::{AllocError, Global};

/// What a merge has at each place, in the order of the places, and which of them are reached.
#[derive(Drop)]
pub struct Plan<'a, 'd> {
    /// What it has at each place of a side.
    pub entries: Vec<Entry<'a, 'd>>,

    /// For each of these places, whether it is reached.
    pub reached: Vec<bool>,
}

impl<'a, 'd> Plan<'a, 'd> {
    /// The plan of a merge of these packages, which are in the order of their places. The one error
    /// is `Memory`.
    pub fn of(
        alloc: Global,
        base: &'d [Placed<'a, 'd>],
        ours: &'d [Placed<'a, 'd>],
        theirs: &'d [Placed<'a, 'd>],
    ) -> Result<Plan<'a, 'd>>
        requires base { IsNumbered (all_data base.now) }
        requires ours { IsNumbered (all_data ours.now) }
        requires theirs { IsNumbered (all_data theirs.now) }
        ensures ok { IfOk result (IsPlan (numbered_triple base.now ours.now theirs.now)) }
        ensures err { IsOkUnless result Memory }
    {
        let entries = entries(alloc, base, ours, theirs)?;
        let reached = reached_entries(alloc, &entries)?;
        Ok(Plan { entries, reached })
    }
}

// What a merge has at each place.
fn entries<'a, 'd>(
    alloc: Global,
    base: &'d [Placed<'a, 'd>],
    ours: &'d [Placed<'a, 'd>],
    theirs: &'d [Placed<'a, 'd>],
) -> Result<Vec<Entry<'a, 'd>>>
    requires base { IsNumbered (all_data base.now) }
    requires ours { IsNumbered (all_data ours.now) }
    requires theirs { IsNumbered (all_data theirs.now) }
    ensures ok { IfOk result
        (λ all. AreMergeEntries (numbered_triple base.now ours.now theirs.now) all.items) }
    ensures err { IsOkUnless result Memory }
{
    let commits = Commits::of(alloc, base, ours, theirs)?;
    let rows = rows(alloc, base, ours, theirs)?;
    entries_of(alloc, &commits, &rows)
}

// What a merge has at the place of each row.
fn entries_of<'a, 'd>(
    alloc: Global,
    commits: &Commits<'a, 'd>,
    rows: &[Row<'a, 'd>],
) -> Result<Vec<Entry<'a, 'd>>>
    requires { All IsRowInOrder rows.now }
    ensures ok { IfOk result (λ all. HasEntries commits.now rows.now all.items) }
    ensures err { IsOkUnless result Memory }
{
    let mut all = Vec::with_capacity(alloc, rows.len())?;
    for row in rows {
        let entry = entry_at(alloc, commits, row)?;
        all.push(entry)?;
    }
    Ok(all)
}

// For each entry, whether its place is reached from a root.
fn reached_entries(alloc: Global, entries: &[Entry]) -> std::result::Result<Vec<bool>, AllocError>
    requires { IsStrictlyIncreasing (entry_places entries.now) }
    ensures count { IfOk result (λ marks. length marks.items ≡ length entries.now) }
    ensures marks { IfOk result (λ marks. (k n : ℕ)
        → slice_get (entry_places entries.now) k ≡ Some n → IsMarked marks.items k
        ↔ IsReachedFrom (IsRootEntry entries.now) (LeadsToEntry entries.now) n) }
{
    let nodes = nodes(alloc, entries)?;
    reached(alloc, &nodes)
}

// The nodes of entries.
fn nodes<'a>(alloc: Global, entries: &'a [Entry]) -> std::result::Result<Vec<Node<'a>>, AllocError>
    ensures { IfOk result (λ nodes. AllZip IsNodeOf entries.now nodes.items) }
{
    let mut nodes = Vec::with_capacity(alloc, entries.len())?;
    for entry in entries {
        nodes.push(Node {
            place: entry.row.place,
            is_root: is_root(&entry.row),
            targets: &entry.targets,
        })?;
    }
    Ok(nodes)
}

// Whether a member of the workspace is kept at the place of the row.
fn is_root(row: &Row) -> bool
    ensures { Decides result (IsRootRow row.now) }
{
    keeps(
        is_member(row.base),
        is_member(row.ours),
        is_member(row.theirs),
    )
}

// Whether the package, if there is one, is a member of the workspace.
fn is_member(package: Option<Placed>) -> bool
    ensures { Decides result (IsMemberIf (data_if «package».entry)) }
{
    match package {
        Some(package) => has_no_source(package.package),
        None => false,
    }
}
