//! Places of packages that are wrong.

ghost use Rattle.std.specs.Prelude.{◌≡◌, ◌↔◌, ◌<◌, if◌then◌else◌, true, IfOk, IsTrue, OnOk, length, option_copied};
ghost use Rattle.cargo_lock_flaws.specs.Packages.{IsMisplaced, IsTwice, IsUnchecked};
ghost use Rattle.cargo_lock_flaws.specs.Packages.{IsWithoutChecksum, source_unless_replaced};
ghost use Rattle.lists.specs.Places.{IsPlaces};
ghost use Rattle.cargo_lock_flaws.specs.Seen.{AreChecked, LacksChecksumAmong, is_new};
ghost use Rattle.cargo_lock_flaws.specs.Seen.{is_source_among};
ghost use Rattle.cargo_lock_parts.specs.Source.{Source};
ghost use Rattle.cargo_lock_parts.specs.SourceKey.{is_same_source};

use crate::index::places_of;
use cargo_lock_edges::index::package_key;
use cargo_lock_order::package_order;
use cargo_lock_parts::package::{Package, SourceId};
use std::alloc::{AllocError, Global};
use std::cmp::Ordering;
use std::collections::BTreeSet;

/// The places of packages for which an earlier one has the same name, version and source. So for
/// equal packages the first place is not in the list, and all others are. Fails when out of memory.
///
/// ```
/// if !packages_twice(rt.alloc(), &lockfile.packages)?.is_empty() {
///     println!(rt; "both sides of a merge were kept")?;
/// }
/// ```
pub fn packages_twice(alloc: Global, packages: &[Package]) -> Result<Vec<usize>, AllocError>
    ensures { IfOk result
        (λ places. IsPlaces (IsTwice packages.now) (length packages.now) places.items) }
{
    let index = places_of(alloc, packages)?;
    let mut places = Vec::new(alloc);
    for (place, package) in packages.iter().enumerate() {
        let before = index.before(package_key(package), place);
        if before.is_some() {
            places.push(place)?;
        }
    }
    Ok(places)
}

/// The places of packages from a registry on the network that have no checksum and no replacement,
/// though some package of that registry has a checksum. Fails when out of memory.
///
/// ```
/// for place in packages_without_checksum(rt.alloc(), &lockfile.packages)?.as_slice() {
///     println!(rt; "package {place} has no checksum")?;
/// }
/// ```
pub fn packages_without_checksum(
    alloc: Global,
    packages: &[Package],
) -> Result<Vec<usize>, AllocError>
    ensures { IfOk result
        (λ places. IsPlaces (IsWithoutChecksum packages.now) (length packages.now) places.items) }
{
    let sources = checked_sources(alloc, packages)?;
    let mut places = Vec::new(alloc);
    for (place, package) in packages.iter().enumerate() {
        if lacks_checksum(&sources, package) {
            places.push(place)?;
        }
    }
    Ok(places)
}

// The sources of packages that have a checksum.
fn checked_sources<'a>(
    alloc: Global,
    packages: &'a [Package],
) -> Result<BTreeSet<&'a SourceId>, AllocError>
    ensures { IfOk result (λ sources. AreChecked packages.now (length packages.now) sources) }
{
    let mut sources = BTreeSet::new(alloc);
    for package in packages {
        if package.checksum.is_some() {
            if let Some(source) = &package.source {
                add(&mut sources, source)?;
            }
        }
    }
    Ok(sources)
}

fn add<'a>(sources: &mut BTreeSet<&'a SourceId>, source: &'a SourceId) -> Result<(), AllocError>
    ensures { OnOk result ((s : Source) → is_source_among sources.new s
        ≡ (if is_same_source source.now s then true else is_source_among sources.old s)) }
{
    sources.insert(source)?;
    Ok(())
}

// Whether a package has no checksum, though its source is among these.
fn lacks_checksum<'a>(sources: &BTreeSet<&'a SourceId>, package: &'a Package) -> bool
    ensures { IsTrue result ↔ LacksChecksumAmong sources.now «package».now }
{
    if package.checksum.is_some() || package.replace.is_some() {
        return false;
    }
    match &package.source {
        Some(source) => source.is_remote_registry() && sources.contains(&source),
        None => false,
    }
}

/// For each registry on the network of which no package has a checksum, the place of its first
/// package. Packages that are replaced do not count. Fails when out of memory.
///
/// ```
/// let has_lost_all = !unchecked_registries(rt.alloc(), &lockfile.packages)?.is_empty();
/// ```
pub fn unchecked_registries(alloc: Global, packages: &[Package]) -> Result<Vec<usize>, AllocError>
    ensures { IfOk result
        (λ places. IsPlaces (IsUnchecked packages.now) (length packages.now) places.items) }
{
    let checked = checked_sources(alloc, packages)?;
    let mut seen = BTreeSet::new(alloc);
    let mut places = Vec::new(alloc);
    for (place, package) in packages.iter().enumerate() {
        if let Some(source) = own_source(package) {
            if see(&checked, &mut seen, source)? {
                places.push(place)?;
            }
        }
    }
    Ok(places)
}

// The source of a package, unless the package is replaced.
fn own_source<'a>(package: &'a Package) -> Option<&'a SourceId>
    ensures { option_copied result ≡ source_unless_replaced «package».now }
{
    if package.replace.is_some() {
        return None;
    }
    package.source.as_ref()
}

// Adds a source, and returns whether it is a registry on the network that is new.
fn see<'a>(
    checked: &BTreeSet<&'a SourceId>,
    seen: &mut BTreeSet<&'a SourceId>,
    source: &'a SourceId,
) -> Result<bool, AllocError>
    ensures is_new { IfOk result (λ found. found ≡ is_new checked.now seen.old source.now) }
    ensures added { OnOk result ((s : Source) → is_source_among seen.new s
        ≡ (if is_same_source source.now s then true else is_source_among seen.old s)) }
{
    let found = source.is_remote_registry()
        && !checked.contains(&source)
        && !seen.contains(&source);
    add(seen, source)?;
    Ok(found)
}

/// The places of packages that come after the next one in Cargo's order (see `package_order`).
/// There are none exactly if the list ascends. Fails when out of memory.
///
/// ```
/// let is_in_order = misplaced_packages(rt.alloc(), &lockfile.packages)?.is_empty();
/// ```
pub fn misplaced_packages(alloc: Global, packages: &[Package]) -> Result<Vec<usize>, AllocError>
    ensures { IfOk result
        (λ places. IsPlaces (IsMisplaced packages.now) (length packages.now) places.items) }
{
    let mut places = Vec::new(alloc);
    for place in 0..packages.len() {
        if is_misplaced(alloc, packages, place)? {
            places.push(place)?;
        }
    }
    Ok(places)
}

// Whether the package at a place comes after the next one.
fn is_misplaced(alloc: Global, packages: &[Package], place: usize) -> Result<bool, AllocError>
    requires { place < length packages.now }
    ensures { IfOk result (λ found. IsTrue found ↔ IsMisplaced packages.now place) }
{
    match packages.get(place + 1) {
        Some(next) => {
            let order = package_order(alloc, &packages[place], next)?;
            Ok(order == Ordering::Greater)
        }
        None => Ok(false),
    }
}
