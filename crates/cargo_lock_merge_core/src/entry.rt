//! What a merge has at a place.

ghost use Rattle.std.specs.Prelude.{◌≡◌, ◌⊎◌, ◌↔◌, ℕ, IfOk, IsOkUnless, MatchOption, Some};
ghost use Rattle.std.specs.List.{Contains};
ghost use Rattle.std.specs.List.Sorted.{IsStrictlyIncreasing};
ghost use Rattle.cargo_lock_parts.specs.declared.error.Error.TheVariants.{Memory};
ghost use Rattle.cargo_lock_merge_core.specs.Choices.{IsOfSide};
ghost use Rattle.cargo_lock_merge_core.specs.Commits.{Lockfiles};
ghost use Rattle.cargo_lock_merge_core.specs.Entries.{HasValues, IsChoiceOf, IsDependencyIf};
ghost use Rattle.cargo_lock_merge_core.specs.Entries.{IsMergeEntry, IsReplacementIf, IsRowInOrder};
ghost use Rattle.cargo_lock_merge_core.specs.Entries.{IsSettled};
ghost use Rattle.cargo_lock_merge_core.specs.Numbered.{data_if, placed_data, side_of};

use crate::choices::choose;
use crate::commits::Commits;
use crate::placed::Placed;
use crate::references::{dependencies_of_chosen, dependencies_of_either};
use crate::rows::Row;
use crate::rule3::Side;
use crate::values::{choose_checksum, choose_replacement};
use cargo_lock_parts::error::Result;
use cargo_lock_parts::package::Checksum;
use std::alloc::{AllocError, Global};

/// The package that is chosen at a place.
#[derive(Clone, Copy)]
pub struct Chosen<'a, 'd> {
    /// The package of a side.
    pub package: Placed<'a, 'd>,

    /// Its checksum, if it has one. `None` if the sides are in conflict about it.
    pub checksum: Option<Option<Checksum>>,

    /// The side whose replacement it has. `None` if the sides are in conflict about it.
    pub replacement: Option<Side>,
}

/// What a merge has at a place.
#[derive(Drop)]
pub struct Entry<'a, 'd> {
    /// What the base and the two sides have there.
    pub row: Row<'a, 'd>,

    /// The chosen package. `None` if the sides are in conflict about it.
    pub chosen: Option<Chosen<'a, 'd>>,

    /// The places that are depended on, in ascending order.
    pub dependencies: Vec<usize>,

    /// The same, and the place of the replacement.
    pub targets: Vec<usize>,
}

/// What a merge has at the place of the row. The one error is `Memory`.
pub fn entry_at<'a, 'd>(
    alloc: Global,
    commits: &Commits<'a, 'd>,
    row: &Row<'a, 'd>,
) -> Result<Entry<'a, 'd>>
    requires { IsRowInOrder row.now }
    ensures row { IfOk result (λ e. e.row ≡ row.now) }
    ensures ok { IfOk result (IsMergeEntry commits.now) }
    ensures err { IsOkUnless result Memory }
{
    let side = choose(commits, row.base, row.ours, row.theirs)?;
    let chosen = settle(row, side);
    Ok(entry_of(alloc, row, chosen)?)
}

// What is chosen where the package of this side is.
fn settle<'a, 'd>(row: &Row<'a, 'd>, side: Option<Side>) -> Option<Chosen<'a, 'd>>
    ensures { (all : Lockfiles) → IsChoiceOf all row.now side → IsSettled all row.now result }
{
    let package = package_of(row, side?)?;
    Some(chosen_of(row, package))
}

// The package of a side.
pub(crate) fn package_of<'a, 'd>(row: &Row<'a, 'd>, side: Side) -> Option<Placed<'a, 'd>>
    ensures { data_if result ≡ side_of (data_if row.now.ours) (data_if row.now.theirs) side }
{
    match side {
        Side::Ours => row.ours,
        Side::Theirs => row.theirs,
    }
}

// The chosen package with its checksum and its replacement.
fn chosen_of<'a, 'd>(row: &Row<'a, 'd>, package: Placed<'a, 'd>) -> Chosen<'a, 'd>
    requires { IsOfSide (data_if row.now.ours) (data_if row.now.theirs) (placed_data «package») }
    ensures package { placed_data result.package ≡ placed_data «package».entry }
    ensures values { HasValues row.now result }
{
    Chosen {
        package,
        checksum: choose_checksum(row.base, row.ours, row.theirs, package),
        replacement: choose_replacement(row.base, row.ours, row.theirs, package),
    }
}

// The entry of what is chosen.
fn entry_of<'a, 'd>(
    alloc: Global,
    row: &Row<'a, 'd>,
    chosen: Option<Chosen<'a, 'd>>,
) -> std::result::Result<Entry<'a, 'd>, AllocError>
    requires row { IsRowInOrder row.now }
    requires chosen { MatchOption chosen (Unit {0}) (λ c. HasValues row.now c
        × IsOfSide (data_if row.now.ours) (data_if row.now.theirs) (placed_data c.package)) }
    ensures { IfOk result (λ e. (e.row ≡ row.now)
        × ((all : Lockfiles) → IsSettled all row.now chosen.entry → IsMergeEntry all e)) }
{
    let dependencies = dependencies_if(alloc, row, chosen)?;
    let targets = targets(alloc, &dependencies, replacement_if(row, chosen))?;
    Ok(Entry {
        row: *row,
        chosen,
        dependencies,
        targets,
    })
}

// The places that are depended on.
fn dependencies_if<'a, 'd>(
    alloc: Global,
    row: &Row<'a, 'd>,
    chosen: Option<Chosen<'a, 'd>>,
) -> std::result::Result<Vec<usize>, AllocError>
    requires row { IsRowInOrder row.now }
    requires chosen { MatchOption chosen (Unit {0}) (λ c.
        IsOfSide (data_if row.now.ours) (data_if row.now.theirs) (placed_data c.package)) }
    ensures ascending { IfOk result (λ all. IsStrictlyIncreasing all.items) }
    ensures holds { IfOk result (λ all. (d : ℕ) → Contains all.items d
        ↔ IsDependencyIf row.now chosen.entry d) }
{
    match chosen {
        Some(chosen) => dependencies_of_chosen(
            alloc,
            row.base,
            row.ours,
            row.theirs,
            chosen.package,
        ),
        None => dependencies_of_either(alloc, row.ours, row.theirs),
    }
}

// The place of the replacement of what is chosen.
fn replacement_if<'a, 'd>(row: &Row<'a, 'd>, chosen: Option<Chosen<'a, 'd>>) -> Option<usize>
    requires { MatchOption chosen (Unit {0}) (λ c. HasValues row.now c) }
    ensures { (d : ℕ) → (result ≡ Some d) ↔ IsReplacementIf row.now chosen.entry d }
{
    match chosen {
        Some(chosen) => replacement_of(row, chosen),
        None => None,
    }
}

// The place of the replacement of the chosen package.
fn replacement_of<'a, 'd>(row: &Row<'a, 'd>, chosen: Chosen<'a, 'd>) -> Option<usize>
    requires { HasValues row.now chosen }
    ensures { (d : ℕ) → (result ≡ Some d) ↔ IsReplacementIf row.now (Some chosen.entry) d }
{
    match chosen.replacement {
        Some(side) => match package_of(row, side) {
            Some(package) => package.replacement,
            None => None,
        },
        None => None,
    }
}

// The places of dependencies and of a replacement.
fn targets(
    alloc: Global,
    dependencies: &[usize],
    replacement: Option<usize>,
) -> std::result::Result<Vec<usize>, AllocError>
    ensures { IfOk result (λ all. (d : ℕ) → Contains all.items d
        ↔ (Contains dependencies.now d ⊎ (replacement ≡ Some d))) }
{
    let mut all = dependencies.to_vec(alloc)?;
    if let Some(place) = replacement {
        all.push(place)?;
    }
    Ok(all)
}
