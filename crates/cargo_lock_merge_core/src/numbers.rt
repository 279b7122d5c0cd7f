//! The numbers of places: a place has the number of the last package at it.

ghost use Rattle.std.specs.Prelude.{◌≡◌, ◌++◌, ◌<◌, IfOk, IsOkUnless, OnOk, Some};
ghost use Rattle.std.specs.Prelude.{length, map, slice_get};
ghost use Rattle.cargo_lock_parts.specs.declared.error.Error.TheVariants.{Memory};
ghost use Rattle.cargo_lock_parts.specs.PartialIdentity.{partial_key};
ghost use Rattle.cargo_lock_graph.specs.Targets.{IsLastBelow};
ghost use Rattle.cargo_lock_merge_core.specs.Commits.{Lockfiles};
ghost use Rattle.cargo_lock_merge_core.specs.Located.{AreMemberCounts, lists_of};
ghost use Rattle.cargo_lock_merge_core.specs.Numbers.{all_of, spot_packages, spot_places};
ghost use Rattle.cargo_lock_merge_core.specs.Numbers.{spot_place};
ghost use Rattle.cargo_lock_merge_core.specs.Places.{Place, merge_place};

use crate::member_counts::MemberCounts;
use crate::place::{Lists, Located, locate};
use cargo_lock_parts::error::Result;
use cargo_lock_parts::package::{Package, PartialIdentity};
use std::alloc::{AllocError, Global};
use std::collections::BTreeMap;
use std::marker::Model;

/// A package and the parts of its place.
#[derive(Drop)]
pub struct Spot<'a> {
    /// The package.
    pub package: &'a Package,

    /// The parts of its place.
    pub located: Located,
}

/// The packages of the base, of ours and of theirs, in this order, with their places. The one error
/// is `Memory`.
pub fn spots<'a>(alloc: Global, lists: &Lists<'a>) -> Result<Vec<Spot<'a>>>
    ensures packages { IfOk result
        (λ spots. spot_packages spots.items ≡ all_of (lists_of lists.now)) }
    ensures places { IfOk result (λ spots. spot_places spots.items
        ≡ map (merge_place (lists_of lists.now)) (all_of (lists_of lists.now))) }
    ensures err { IsOkUnless result Memory }
{
    let counts = MemberCounts::of(alloc, lists)?;
    let mut spots = Vec::new(alloc);
    put_spots(&mut spots, &counts, lists.base)?;
    put_spots(&mut spots, &counts, lists.ours)?;
    put_spots(&mut spots, &counts, lists.theirs)?;
    Ok(spots)
}

// Adds the packages of a list with their places.
fn put_spots<'a>(
    spots: &mut Vec<Spot<'a>>,
    counts: &MemberCounts<'a>,
    packages: &'a [Package],
) -> Result<()>
    ensures packages { OnOk result (spot_packages spots.new.items
        ≡ spot_packages spots.old.items ++ packages.now) }
    ensures places { OnOk result ((all : Lockfiles) → AreMemberCounts all counts.now
        → spot_places spots.new.items
        ≡ spot_places spots.old.items ++ map (merge_place all) packages.now) }
    ensures err { IsOkUnless result Memory }
{
    for package in packages {
        spots.push(spot_of(counts, package)?)?;
    }
    Ok(())
}

// The package with its place.
fn spot_of<'a>(counts: &MemberCounts<'a>, package: &'a Package) -> Result<Spot<'a>>
    ensures package { IfOk result (λ spot. spot.package.now ≡ «package».now) }
    ensures place { IfOk result (λ spot. (all : Lockfiles) → AreMemberCounts all counts.now
        → spot_place spot ≡ merge_place all «package».now) }
    ensures err { IsOkUnless result Memory }
{
    let located = locate(counts, package)?;
    Ok(Spot { package, located })
}

/// The numbers of places.
#[derive(Drop)]
pub struct Numbers<'a> {
    spots: &'a [Spot<'a>],
    last: BTreeMap<PartialIdentity<'a>, usize>,
}

impl<'a> Model for Numbers<'a> {
    ghost use Rattle.std.specs.Prelude.{List, length};
    ghost use Rattle.cargo_lock_parts.specs.PartialIdentity.{PartialKey};
    ghost use Rattle.cargo_lock_merge_core.specs.Numbers.{AreLast, spot_places};

    ghost Value = { List PartialKey };

    ghost view = { λ n. spot_places n.spots.now };

    ghost invariant = { λ n. AreLast (spot_places n.spots.now) (length n.spots.now) n.last };
}

impl<'a> Numbers<'a> {
    /// The numbers of the places of these packages. Fails when out of memory.
    pub fn of(alloc: Global, spots: &'a [Spot<'a>]) -> std::result::Result<Numbers<'a>, AllocError>
        ensures { IfOk result (λ numbers. numbers ≡ spot_places spots.now) }
    {
        let mut last = BTreeMap::new(alloc);
        for (at, spot) in spots.iter().enumerate() {
            last.insert(place_at(spot), at)?;
        }
        Ok(Numbers { spots, last })
    }

    /// How many packages there are.
    pub fn len(&self) -> usize
        ensures { result ≡ length self.now }
    {
        self.spots.len()
    }

    /// The number of the place of the package at an index: the index of the last package there.
    pub fn number(&self, at: usize) -> usize
        requires { at < length self.now }
        ensures { (p : Place) → slice_get self.now at ≡ Some p
            → IsLastBelow (λ k. slice_get self.now k ≡ Some p) (length self.now) (Some result) }
    {
        self.last[&place_at(&self.spots[at])]
    }
}

// The place of the package.
fn place_at<'a>(spot: &'a Spot<'a>) -> PartialIdentity<'a>
    ensures { partial_key result ≡ spot_place spot.now }
{
    let package = spot.package;
    spot.located.place(&package.name)
}
