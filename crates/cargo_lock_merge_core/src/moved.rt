//! The references that a merge moved: neither side has them.

ghost use Rattle.std.specs.Prelude.{◌≡◌, ◌≢◌, ◌⊎◌, IfOk, MatchOption, None, map};
ghost use Rattle.std.specs.Bool.{Decides};
ghost use Rattle.std.specs.List.{Contains};
ghost use Rattle.std.specs.List.Sorted.{IsStrictlyIncreasing};
ghost use Rattle.cargo_lock_parts.specs.Identity.{identity_key, identity_of};
ghost use Rattle.cargo_lock_merge_core.specs.Kept.{AreInPlace, merged_places};
ghost use Rattle.cargo_lock_merge_core.specs.Merged.{merged_data};
ghost use Rattle.cargo_lock_merge_core.specs.Moved.{AreListedPackages, AreMoved, AreMovedFrom};
ghost use Rattle.cargo_lock_merge_core.specs.Moved.{IsMovedBeside, IsMovedFrom, IsMovedTo};
ghost use Rattle.cargo_lock_merge_core.specs.Moved.{IsPackageAt, IsReferenceAt, IsReferenceOf};
ghost use Rattle.cargo_lock_merge_core.specs.Moved.{IsSameReference};
ghost use Rattle.cargo_lock_merge_core.specs.Numbered.{HasAscending, all_data, data_if};
ghost use Rattle.cargo_lock_merge_core.specs.Placed.{IsAt};

use crate::merged::Merged;
use crate::placed::{Placed, are_same};
use crate::reach::index_of;
use crate::rows::places;
use cargo_lock_parts::package::Package;
use std::alloc::{AllocError, Global};
use std::marker::Model;

/// A dependency of a package on another.
#[derive(Clone, Copy)]
pub struct Reference<'a> {
    /// The package that depends on the other.
    pub from: &'a Package,

    /// The other package.
    pub to: &'a Package,
}

/// A reference that a merge moved.
#[derive(Clone, Copy)]
pub struct Moved<'a> {
    /// The place of the merged package that depends on the other.
    pub from: usize,

    /// The place of the other one.
    pub to: usize,

    /// The reference between two packages of sides with the identities of the merged ones.
    pub merged: Reference<'a>,

    /// The reference that ours has between the two places.
    pub ours: Option<Reference<'a>>,

    /// The one that theirs has.
    pub theirs: Option<Reference<'a>>,
}

/// The references that a merge moved, by the places of their packages in order: a merged package
/// depends on one with a source, and neither side has this dependency between these identities, or
/// for a member of the workspace from its place. Fails when out of memory.
pub fn moved_references<'a>(
    alloc: Global,
    merged: &[Merged<'a>],
    ours: &[Placed<'a, '_>],
    theirs: &[Placed<'a, '_>],
) -> Result<Vec<Moved<'a>>, AllocError>
    requires merged { AreInPlace merged.now }
    requires ours { AreListedPackages (all_data ours.now) }
    requires theirs { AreListedPackages (all_data theirs.now) }
    ensures { IfOk result (λ all. AreMoved (all_data ours.now) (all_data theirs.now)
        (map merged_data merged.now) all.items) }
{
    let places = places_of_merged(alloc, merged)?;
    let ours = Finder::of(alloc, ours)?;
    let theirs = Finder::of(alloc, theirs)?;
    let mut all = Vec::new(alloc);
    for one in merged {
        let some = moved_from(alloc, merged, &places, one, &ours, &theirs)?;
        all.extend_from_slice(&some)?;
    }
    Ok(all)
}

/// The places of merged packages. Fails when out of memory.
pub fn places_of_merged(alloc: Global, merged: &[Merged<'_>]) -> Result<Vec<usize>, AllocError>
    ensures { IfOk result (λ places. places.items ≡ merged_places merged.now) }
{
    let mut places = Vec::with_capacity(alloc, merged.len())?;
    for one in merged {
        places.push(one.place)?;
    }
    Ok(places)
}

// The moved references of a merged package.
fn moved_from<'a>(
    alloc: Global,
    merged: &[Merged<'a>],
    places: &[usize],
    one: &Merged<'a>,
    ours: &Finder<'a, '_>,
    theirs: &Finder<'a, '_>,
) -> Result<Vec<Moved<'a>>, AllocError>
    requires places { places.now ≡ merged_places merged.now }
    requires merged { AreInPlace merged.now }
    requires one { Contains merged.now one.now }
    requires ours { AreListedPackages ours.now }
    requires theirs { AreListedPackages theirs.now }
    ensures { IfOk result (λ all. AreMovedFrom ours.now theirs.now merged.now one.now all.items) }
{
    let mut all = Vec::new(alloc);
    for to in &one.dependencies {
        if let Some(moved) = moved_to(merged, places, one, *to, ours, theirs) {
            all.push(moved)?;
        }
    }
    Ok(all)
}

// The reference of a merged package to that at a place, if it is moved.
fn moved_to<'a>(
    merged: &[Merged<'a>],
    places: &[usize],
    one: &Merged<'a>,
    to: usize,
    ours: &Finder<'a, '_>,
    theirs: &Finder<'a, '_>,
) -> Option<Moved<'a>>
    requires places { places.now ≡ merged_places merged.now }
    requires merged { AreInPlace merged.now }
    requires one { Contains merged.now one.now }
    requires ours { AreListedPackages ours.now }
    requires theirs { AreListedPackages theirs.now }
    ensures { Contains one.now.dependencies.items to → MatchOption result
        (¬ IsMovedTo ours.now theirs.now (map merged_data merged.now) (merged_data one.now) to)
        (IsMovedFrom ours.now theirs.now (map merged_data merged.now) (merged_data one.now) to) }
{
    let target = match package_at(merged, places, to) {
        Some(target) => target,
        None => return None,
    };
    let reference = Reference {
        from: one.package,
        to: target,
    };
    let ours = ours.reference(one.place, to);
    let theirs = theirs.reference(one.place, to);
    if is_moved(reference, ours, theirs) {
        Some(Moved {
            from: one.place,
            to,
            merged: reference,
            ours,
            theirs,
        })
    } else {
        None
    }
}

/// The package of a side with the identity of the merged one at a place. The places are those of
/// the merged packages, in order.
pub fn package_at<'a>(merged: &[Merged<'a>], places: &[usize], place: usize) -> Option<&'a Package>
    requires places { places.now ≡ merged_places merged.now }
    requires ascending { IsStrictlyIncreasing (merged_places merged.now) }
    ensures { MatchOption result (¬ Contains (merged_places merged.now) place)
        (λ p. IsPackageAt merged.now place p.now) }
{
    match index_of(places, place) {
        Some(at) => Some(merged[at].package),
        None => None,
    }
}

// Whether the merged reference is moved, where the sides have these between its places.
fn is_moved<'a>(
    merged: Reference<'a>,
    ours: Option<Reference<'a>>,
    theirs: Option<Reference<'a>>,
) -> bool
    ensures { Decides result (IsMovedBeside merged.entry ours.entry theirs.entry) }
{
    has_source(merged.to) && !is_same(merged, ours) && !is_same(merged, theirs)
}

fn has_source(package: &Package) -> bool
    ensures { Decides result («package».now.source ≢ None) }
{
    package.source.is_some()
}

// Whether a side's reference is the merged one: the packages have the same identities, or the first
// is a member of the workspace and the others have.
fn is_same<'a>(merged: Reference<'a>, side: Option<Reference<'a>>) -> bool
    ensures { Decides result (IsSameReference merged.entry side.entry) }
{
    match side {
        Some(side) => {
            is_same_start(merged.from, side.from) && have_one_identity(merged.to, side.to)
        }
        None => false,
    }
}

// Whether the package of a side has the identity of the merged one, or that is a member of the
// workspace.
fn is_same_start(merged: &Package, side: &Package) -> bool
    ensures { Decides result ((merged.now.source ≡ None)
        ⊎ (identity_key (identity_of side.now) ≡ identity_key (identity_of merged.now))) }
{
    has_no_source(merged) || have_one_identity(merged, side)
}

fn have_one_identity(merged: &Package, side: &Package) -> bool
    ensures { Decides result
        (identity_key (identity_of side.now) ≡ identity_key (identity_of merged.now)) }
{
    are_same(side, merged)
}

fn has_no_source(package: &Package) -> bool
    ensures { Decides result («package».now.source ≡ None) }
{
    package.source.is_none()
}

// Packages in the order of their places, with these places.
#[derive(Drop)]
struct Finder<'a, 'd> {
    packages: &'d [Placed<'a, 'd>],
    places: Vec<usize>,
}

impl<'a, 'd> Model for Finder<'a, 'd> {
    ghost use Rattle.std.specs.Prelude.{◌≡◌, ℕ, List};
    ghost use Rattle.cargo_lock_merge_core.specs.Numbered.{all_data, place_numbers};
    ghost use Rattle.cargo_lock_merge_core.specs.Placed.{PlacedData};

    ghost Value = { List (PlacedData ℕ) };

    ghost view = { λ f. all_data f.packages.now };

    ghost invariant = { λ f. f.places.items ≡ place_numbers (all_data f.packages.now) };
}

impl<'a, 'd> Finder<'a, 'd> {
    fn of(alloc: Global, packages: &'d [Placed<'a, 'd>]) -> Result<Finder<'a, 'd>, AllocError>
        ensures { IfOk result (λ finder. finder ≡ all_data packages.now) }
    {
        let places = places(alloc, packages)?;
        Ok(Finder { packages, places })
    }

    // The package at a place, if there is one.
    fn at(&self, place: usize) -> Option<Placed<'a, 'd>>
        requires { AreListedPackages self.now }
        ensures { IsAt self.now place (data_if result) }
    {
        match index_of(&self.places, place) {
            Some(at) => Some(self.packages[at]),
            None => None,
        }
    }

    // The reference between two places, if there is one.
    fn reference(&self, from: usize, to: usize) -> Option<Reference<'a>>
        requires { AreListedPackages self.now }
        ensures { IsReferenceAt self.now from to result }
    {
        reference_of(self.at(from), self.at(to), to)
    }
}

// The reference between two packages, if the first depends on the place of the other.
fn reference_of<'a>(
    from: Option<Placed<'a, '_>>,
    to: Option<Placed<'a, '_>>,
    place: usize,
) -> Option<Reference<'a>>
    requires { HasAscending (data_if from) }
    ensures { IsReferenceOf (data_if from.entry) (data_if to.entry) place result }
{
    let (from, to) = (from?, to?);
    match index_of(from.dependencies, place) {
        Some(_) => Some(Reference {
            from: from.package,
            to: to.package,
        }),
        None => None,
    }
}
