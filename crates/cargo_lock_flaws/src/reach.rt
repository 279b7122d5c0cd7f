//! The packages that no package of the workspace leads to.

ghost use Rattle.std.specs.Prelude.{◌≡◌, ◌<◌, ◌↔◌, ◌⊎◌, ℕ, false, true, IfOk, IsTrue, OnOk, Some};
ghost use Rattle.std.specs.Prelude.{length, slice_get};
ghost use Rattle.cargo_lock_graph.specs.Targets.{MatchesAt};
ghost use Rattle.cargo_lock_edges.specs.Groups.{HasMatches, IsBest, group_places};
ghost use Rattle.cargo_lock_edges.specs.Best.{IsOneOfBest};
ghost use Rattle.cargo_lock_flaws.specs.Reach.{AsksFor, IsOrphan};
ghost use Rattle.cargo_lock_flaws.specs.Reach.{IsReachedFromWorkspace, IsStart, IsWorkspacePackage};
ghost use Rattle.cargo_lock_flaws.specs.Search.{AreGroupsAsked, AreReached};
ghost use Rattle.lists.specs.Chains.{OneLeadsTo};
ghost use Rattle.lists.specs.Marks.{IsMarked};
ghost use Rattle.lists.specs.Places.{IsPlaces};
ghost use Rattle.lists.specs.Reach.{HasReached, fresh};

use cargo_lock_edges::groups::{BestGroup, BestMatch, Groups};
use cargo_lock_parts::dependency::Dependency;
use cargo_lock_parts::package::Package;
use lists::marks::is_marked;
use lists::reach::Reach;
use std::alloc::{AllocError, Global};

/// The places of the packages that neither a package without a source nor the root leads to, by
/// dependencies and replacements. The packages without a source are those of the workspace, and a
/// separate root, which a lockfile of V1 may have, is one of them too. A dependency without a
/// package leads nowhere. Fails when out of memory.
///
/// ```
/// for place in orphans(rt.alloc(), &lockfile.packages, &lockfile.root)?.as_slice() {
///     println!(rt; "package {place} is not needed")?;
/// }
/// ```
pub fn orphans(
    alloc: Global,
    packages: &[Package],
    root: &Option<Package>,
) -> Result<Vec<usize>, AllocError>
    ensures { IfOk result (λ places.
        IsPlaces (IsOrphan packages.now root.now) (length packages.now) places.items) }
{
    let groups = Groups::of(alloc, packages)?;
    let orphans = orphans_among(alloc, &groups, packages, root)?;
    Ok(orphans)
}

/// The places of the packages that neither a package without a source nor the root leads to, by the
/// groups of the packages. Fails when out of memory.
pub(crate) fn orphans_among<'a>(
    alloc: Global,
    groups: &Groups<'a>,
    packages: &'a [Package],
    root: &'a Option<Package>,
) -> Result<Vec<usize>, AllocError>
    requires { groups.now.packages ≡ packages.now }
    ensures { IfOk result (λ places.
        IsPlaces (IsOrphan packages.now root.now) (length packages.now) places.items) }
{
    let reached = reached(alloc, groups, packages, root)?;
    let orphans = unmarked(alloc, &reached)?;
    Ok(orphans)
}

// The places without a mark.
fn unmarked(alloc: Global, marks: &[bool]) -> Result<Vec<usize>, AllocError>
    ensures { IfOk result (λ places.
        IsPlaces (λ k. slice_get marks.now k ≡ Some false) (length marks.now) places.items) }
{
    let mut places = Vec::new(alloc);
    for (place, mark) in marks.iter().enumerate() {
        if !*mark {
            places.push(place)?;
        }
    }
    Ok(places)
}

// For each group, whether all its packages were reached.
#[derive(Drop)]
struct Asked {
    groups: Vec<bool>,
}

impl Asked {
    fn has(&self, number: usize) -> bool
        ensures { IsTrue result ↔ (IsMarked self.now.groups.items number) }
    {
        is_marked(&self.groups, number)
    }

    // Records that all packages of a group were reached.
    fn put(&mut self, number: usize)
        ensures { (n : ℕ) → IsMarked self.new.groups.items n
            → IsMarked self.old.groups.items n ⊎ (n ≡ number) }
    {
        if number < self.groups.len() {
            self.groups[number] = true;
        }
    }
}

// For each package, whether the workspace leads to it.
fn reached<'a>(
    alloc: Global,
    groups: &Groups<'a>,
    packages: &'a [Package],
    root: &'a Option<Package>,
) -> Result<Vec<bool>, AllocError>
    requires { groups.now.packages ≡ packages.now }
    ensures count { IfOk result (λ marks. length marks.items ≡ length packages.now) }
    ensures marks { IfOk result (λ marks.
        (k : ℕ) → IsMarked marks.items k ↔ IsReachedFromWorkspace packages.now root.now k) }
{
    let mut asked = Asked {
        groups: vec![in alloc; false; groups.count()]?,
    };
    let mut search = begin(alloc, groups, &mut asked, packages, root)?;
    while let Some(place) = search.next() {
        follow(&mut search, groups, &mut asked, &packages[place])?;
    }
    Ok(search.into_marks())
}

// A search that has reached each place at which a chain begins.
fn begin<'a>(
    alloc: Global,
    groups: &Groups<'a>,
    asked: &mut Asked,
    packages: &'a [Package],
    root: &'a Option<Package>,
) -> Result<Reach, AllocError>
    requires packages { groups.now.packages ≡ packages.now }
    requires none { (n : ℕ) → ¬ IsMarked asked.old.groups.items n }
    ensures search { IfOk result
        (HasReached (IsStart packages.now root.now) (fresh (length packages.now))) }
    ensures asked { IfOk result
        (λ search. AreGroupsAsked groups.now search asked.new.groups.items) }
{
    let mut search = from_workspace(alloc, packages)?;
    if let Some(root) = root {
        follow(&mut search, groups, asked, root)?;
    }
    Ok(search)
}

// A search that has reached the packages without a source.
fn from_workspace(alloc: Global, packages: &[Package]) -> Result<Reach, AllocError>
    ensures { IfOk result
        (HasReached (IsWorkspacePackage packages.now) (fresh (length packages.now))) }
{
    let mut search = Reach::new(alloc, packages.len())?;
    for (place, package) in packages.iter().enumerate() {
        if package.source.is_none() {
            search.reach(place)?;
        }
    }
    Ok(search)
}

// Reaches what a package leads to.
fn follow<'a>(
    search: &mut Reach,
    groups: &Groups<'a>,
    asked: &mut Asked,
    package: &'a Package,
) -> Result<(), AllocError>
    requires count { length search.old.marks ≡ length groups.now.packages }
    requires asked { AreGroupsAsked groups.now search.old asked.old.groups.items }
    ensures reached { OnOk result
        (HasReached (AsksFor groups.now.packages «package».now) search.old search.new) }
    ensures asked { OnOk result (AreGroupsAsked groups.now search.new asked.new.groups.items) }
{
    ask_all(search, groups, asked, &package.dependencies)?;
    if let Some(replace) = &package.replace {
        ask(search, groups, asked, replace)?;
    }
    Ok(())
}

// Reaches the packages that match some dependencies best.
fn ask_all<'a>(
    search: &mut Reach,
    groups: &Groups<'a>,
    asked: &mut Asked,
    dependencies: &'a [Dependency],
) -> Result<(), AllocError>
    requires count { length search.old.marks ≡ length groups.now.packages }
    requires asked { AreGroupsAsked groups.now search.old asked.old.groups.items }
    ensures reached { OnOk result (HasReached
        (OneLeadsTo (IsOneOfBest groups.now.packages) dependencies.now) search.old search.new) }
    ensures asked { OnOk result (AreGroupsAsked groups.now search.new asked.new.groups.items) }
{
    for dependency in dependencies {
        ask(search, groups, asked, dependency)?;
    }
    Ok(())
}

// Reaches the packages that match a dependency best.
fn ask<'a>(
    search: &mut Reach,
    groups: &Groups<'a>,
    asked: &mut Asked,
    dependency: &'a Dependency,
) -> Result<(), AllocError>
    requires count { length search.old.marks ≡ length groups.now.packages }
    requires asked { AreGroupsAsked groups.now search.old asked.old.groups.items }
    ensures reached { OnOk result
        (HasReached (IsOneOfBest groups.now.packages dependency.now) search.old search.new) }
    ensures asked { OnOk result (AreGroupsAsked groups.now search.new asked.new.groups.items) }
{
    if let Some(best) = groups.best(dependency) {
        ask_best(search, groups, asked, best, dependency)?;
    }
    Ok(())
}

// Reaches the packages that match a dependency best, which are these.
fn ask_best(
    search: &mut Reach,
    groups: &Groups<'_>,
    asked: &mut Asked,
    best: BestMatch,
    dependency: &Dependency,
) -> Result<(), AllocError>
    requires count { length search.old.marks ≡ length groups.now.packages }
    requires asked { AreGroupsAsked groups.now search.old asked.old.groups.items }
    requires best { IsBest groups.now dependency.now best }
    ensures reached { OnOk result
        (HasReached (IsOneOfBest groups.now.packages dependency.now) search.old search.new) }
    ensures asked { OnOk result (AreGroupsAsked groups.now search.new asked.new.groups.items) }
{
    match best {
        BestMatch::One(place) => search.reach(place)?,
        BestMatch::Many(best) => ask_group(search, groups, asked, best, dependency)?,
    }
    Ok(())
}

// Reaches the packages of a group that match a dependency best, unless all packages of the group
// were reached before.
fn ask_group(
    search: &mut Reach,
    groups: &Groups<'_>,
    asked: &mut Asked,
    best: BestGroup,
    dependency: &Dependency,
) -> Result<(), AllocError>
    requires count { length search.old.marks ≡ length groups.now.packages }
    requires asked { AreGroupsAsked groups.now search.old asked.old.groups.items }
    requires all { HasMatches groups.now dependency.now best.rank best.number }
    ensures reached { OnOk result (HasReached
        (λ k. MatchesAt groups.now.packages dependency.now k best.rank) search.old search.new) }
    ensures asked { OnOk result (AreGroupsAsked groups.now search.new asked.new.groups.items) }
{
    if asked.has(best.number) {
        return Ok(());
    }
    let is_whole = reach_matches(search, groups, best, dependency)?;
    if is_whole {
        asked.put(best.number);
    }
    Ok(())
}

// Reaches the packages of a group that match a dependency best. Returns whether these are all
// packages of the group.
fn reach_matches(
    search: &mut Reach,
    groups: &Groups<'_>,
    best: BestGroup,
    dependency: &Dependency,
) -> Result<bool, AllocError>
    requires count { length search.old.marks ≡ length groups.now.packages }
    requires all { HasMatches groups.now dependency.now best.rank best.number }
    ensures reached { OnOk result (HasReached
        (λ k. MatchesAt groups.now.packages dependency.now k best.rank) search.old search.new) }
    ensures whole { IfOk result (λ is_whole. is_whole ≡ true
        → AreReached (group_places groups.now best.number) search.new) }
{
    let mut is_whole = true;
    for place in groups.places(best.number) {
        if groups.is_match(best.rank, dependency, *place) {
            search.reach(*place)?;
        } else {
            is_whole = false;
        }
    }
    Ok(is_whole)
}
