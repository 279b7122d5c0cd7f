//! The homes of packages: their sources, whatever is asked of a repository and whatever its commit
//! is.
//!
//! Cargo's order of packages compares sources as homes do, but for the references of repositories.
//! So a home is compared by a package that stands for it: one without a reference, and without
//! anything else.

ghost use Rattle.std.specs.Prelude.{◌≡◌, [], IfOk, IsPermutation, IsSorted, MatchOption, None};
ghost use Rattle.std.specs.Prelude.{OnOk, false, true};
ghost use Rattle.std.specs.List.{AllZip, list_any};
ghost use Rattle.std.specs.Ordering.{eq_by_cmp};
ghost use Rattle.semver.specs.Identifiers.{parts_of};
ghost use Rattle.cargo_lock_parts.specs.Source.{DefaultBranch, Git, kind_of};
ghost use Rattle.cargo_lock_parts.specs.SourceKey.{text_cmp};
ghost use Rattle.cargo_lock_parts.specs.SourceReading.{plain_source};
ghost use Rattle.cargo_lock_order.specs.Canonical.{canonical};
ghost use Rattle.cargo_lock_order.specs.Order as order;
ghost use Rattle.cargo_lock_diff.specs.Accepted.{are_one_url};
ghost use Rattle.cargo_lock_diff.specs.Difference.{referred_packages};
ghost use Rattle.cargo_lock_diff.specs.Home.{bare_kind, have_one_home};
ghost use Rattle.cargo_lock_diff.specs.Likeness.{is_alike};
ghost use Rattle.cargo_lock_diff.specs.StandIn.{IsBare, StandsFor, version_of_names};
ghost use Rattle.cargo_lock_diff.specs.StandIn.{version_of_sources};
ghost use Rattle.cargo_lock_diff.specs.Stranger.{IsNamesake};

use crate::alarm::{find, sorted};
use crate::likeness::Likeness;
use cargo_lock_order::{is_canonically_crates_io, package_order};
use cargo_lock_parts::package::{GitReference, Name, Package, SourceId, SourceKind, Version};
use std::alloc::{AllocError, Global};
use std::cmp::Ordering;
use std::marker::Model;
use url::Url;

// Old packages in the order of their names, and what stands for their homes, in order, so that one
// of a name and one of a home are found by binary search.
#[derive(Drop)]
pub(crate) struct Residents<'a> {
    by_name: Vec<&'a Package>,
    homes: Vec<Package>,
}

impl<'a> Model for Residents<'a> {
    ghost use Rattle.std.specs.Prelude.{List};
    ghost use Rattle.cargo_lock_parts.specs.Identity.{PackageData};
    ghost use Rattle.cargo_lock_diff.specs.Difference.{referred_packages};
    ghost use Rattle.cargo_lock_diff.specs.StandIn.{AreResidents};

    ghost Value = { List PackageData };

    ghost view = { λ r. referred_packages r.by_name.items };

    ghost invariant = { λ r. AreResidents r.by_name.items r.homes.items };
}

impl<'a> Residents<'a> {
    // These packages.
    pub(crate) fn of(alloc: Global, olds: &Vec<&'a Package>) -> Result<Residents<'a>, AllocError>
        ensures { IfOk result (λ r. IsPermutation (referred_packages olds.now.items) r) }
    {
        let by_name = sorted(alloc, Likeness::Name, olds)?;
        let homes = homes_of(alloc, &by_name)?;
        Ok(Residents { by_name, homes })
    }

    // One of these that has the name of a package, if there is one.
    pub(crate) fn namesake(&self, new: &Package) -> Option<&'a Package>
        ensures { MatchOption result (list_any (is_alike Likeness.Name new.now) self.now ≡ false)
            (λ old. (list_any (is_alike Likeness.Name new.now) self.now ≡ true)
            × IsNamesake self.now (old.now, new.now)) }
    {
        find(Likeness::Name, &self.by_name, new)
    }

    // Whether one of these comes from the home of a package.
    pub(crate) fn has_home_of(&self, alloc: Global, new: &Package) -> Result<bool, AllocError>
        ensures { IfOk result (λ has. has ≡ list_any (have_one_home new.now) self.now) }
    {
        let home = stand_in(alloc, new)?;
        let has = is_among(alloc, self.homes.as_slice(), &home)?;
        Ok(has)
    }
}

// What stands for the homes of packages, in order.
fn homes_of(alloc: Global, packages: &Vec<&Package>) -> Result<Vec<Package>, AllocError>
    ensures sorted { IfOk result (λ homes. IsSorted order.package_order homes.items) }
    ensures known { IfOk result (λ homes. (p home : _) → StandsFor p home
        → list_any (eq_by_cmp order.package_order home) homes.items
        ≡ list_any (have_one_home p) (referred_packages packages.now.items)) }
{
    let mut homes = stand_ins(alloc, packages)?;
    homes.sort_by(|one, other| order_or_equal(alloc, one, other))?;
    confirm_order(alloc, homes.as_slice())?;
    Ok(homes)
}

// The order of two packages, or `Equal` where memory ran out. A sort by it may then leave another
// order.
fn order_or_equal(alloc: Global, one: &Package, other: &Package) -> Ordering {
    package_order(alloc, one, other).unwrap_or(Ordering::Equal)
}

// Fails where memory ran out while the packages were sorted: then one of them may come before the
// one that it follows.
fn confirm_order(alloc: Global, packages: &[Package]) -> Result<(), AllocError>
    ensures { OnOk result (IsSorted order.package_order packages.now) }
{
    for place in 1..packages.len() {
        if package_order(alloc, &packages[place], &packages[place - 1])?.is_lt() {
            return Err(AllocError);
        }
    }
    Ok(())
}

// Whether one of some packages that are in order ties with a package.
fn is_among(alloc: Global, sorted: &[Package], one: &Package) -> Result<bool, AllocError>
    requires { IsSorted order.package_order sorted.now }
    ensures { IfOk result (λ is. is ≡ list_any (eq_by_cmp order.package_order one.now) sorted.now) }
{
    let mut low = 0;
    let mut high = sorted.len();
    while low < high {
        let middle = low + (high - low) / 2;
        match package_order(alloc, &sorted[middle], one)? {
            Ordering::Less => low = middle + 1,
            Ordering::Equal => return Ok(true),
            Ordering::Greater => high = middle,
        }
    }
    Ok(false)
}

// What stands for the homes of packages, in their order.
fn stand_ins(alloc: Global, packages: &Vec<&Package>) -> Result<Vec<Package>, AllocError>
    ensures { IfOk result
        (λ all. AllZip StandsFor (referred_packages packages.now.items) all.items) }
{
    let mut all = Vec::with_capacity(alloc, packages.len())?;
    for package in packages {
        all.push(stand_in(alloc, package)?)?;
    }
    Ok(all)
}

// What stands for the home of a package.
fn stand_in(alloc: Global, package: &Package) -> Result<Package, AllocError>
    ensures { IfOk result (StandsFor «package».now) }
{
    match &package.source {
        Some(source) => source_stand_in(alloc, source),
        None => name_stand_in(alloc, &package.name),
    }
}

// What stands for the home of packages with a source.
fn source_stand_in(alloc: Global, source: &SourceId) -> Result<Package, AllocError>
    ensures name { IfOk result (λ home. home.name ≡ []) }
    ensures version { IfOk result (λ home. home.version ≡ version_of_sources) }
    ensures source { IfOk result (λ home. IsBare source.now home.source) }
{
    let bare = bare(alloc, source)?;
    from_source(alloc, bare)
}

// What stands for the home of a package of this name without a source.
fn name_stand_in(alloc: Global, name: &Name) -> Result<Package, AllocError>
    ensures name { IfOk result (λ home. home.name ≡ name.now) }
    ensures version { IfOk result (λ home. home.version ≡ version_of_names) }
    ensures source { IfOk result (λ home. home.source ≡ None) }
{
    let name = name.clone()?;
    Ok(package_of(alloc, name, Version::new(0, 0, 0), None))
}

// A package with this source, and with nothing else.
fn from_source(alloc: Global, source: Option<SourceId>) -> Result<Package, AllocError>
    ensures name { IfOk result (λ home. home.name ≡ []) }
    ensures version { IfOk result (λ home. home.version ≡ version_of_sources) }
    ensures source { IfOk result (λ home. home.source ≡ source) }
{
    match Name::from_str(alloc, "") {
        Ok(name) => Ok(package_of(alloc, name, Version::new(1, 0, 0), source)),
        Err(_) => Err(AllocError),
    }
}

// A package of this identity, with nothing else.
fn package_of(alloc: Global, name: Name, version: Version, source: Option<SourceId>) -> Package
    ensures name { «result».name ≡ name }
    ensures version { «result».version ≡ parts_of version }
    ensures source { «result».source ≡ source }
{
    Package {
        name,
        version,
        source,
        checksum: None,
        dependencies: Vec::new(alloc),
        replace: None,
    }
}

// The source of what stands for a source.
fn bare(alloc: Global, source: &SourceId) -> Result<Option<SourceId>, AllocError>
    ensures { IfOk result (IsBare source.now) }
{
    if is_canonically_crates_io(alloc, source)? {
        return Ok(None);
    }
    let bare = without_reference(source)?;
    Ok(Some(bare))
}

// A source of the same kind and URL, which asks nothing of a repository.
fn without_reference(source: &SourceId) -> Result<SourceId, AllocError>
    ensures kind { IfOk result (λ bare. bare.kind ≡ bare_kind source.now.kind) }
    ensures url { IfOk result (λ bare. bare.url ≡ source.now.url) }
{
    match source.kind() {
        SourceKind::Git(_) => repository(source.url()),
        _ => source.clone(),
    }
}

// The repository at a URL.
fn repository(url: &Url) -> Result<SourceId, AllocError>
    ensures { IfOk result (λ source. source ≡ plain_source (Git DefaultBranch) None url.now) }
{
    match SourceId::for_git(url, GitReference::DefaultBranch) {
        Ok(source) => Ok(source),
        Err(_) => Err(AllocError),
    }
}

/// Whether two URLs are one, as Cargo compares the URLs of packages. Fails when out of memory.
pub(crate) fn is_one_url(alloc: Global, one: &Url, other: &Url) -> Result<bool, AllocError>
    ensures { IfOk result (λ is. is ≡ are_one_url one.now other.now) }
{
    let order = cmp_urls(alloc, one, other)?;
    Ok(order.is_eq())
}

// The order of two URLs, as Cargo compares those of packages: that of two packages from repositories
// there.
fn cmp_urls(alloc: Global, one: &Url, other: &Url) -> Result<Ordering, AllocError>
    ensures { IfOk result
        (λ order. order ≡ text_cmp (canonical one.now) (canonical other.now)) }
{
    let one = from_source(alloc, Some(repository(one)?))?;
    let other = from_source(alloc, Some(repository(other)?))?;
    package_order(alloc, &one, &other)
}
