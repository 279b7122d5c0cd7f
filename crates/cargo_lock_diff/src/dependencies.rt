//! The dependencies that only one of the two packages of a pair has.

ghost use Rattle.std.specs.Prelude.{◌≡◌, ◌++◌, ◌&&◌, IfOk, IsPermutation, IsSorted, map};
ghost use Rattle.std.specs.List.{list_any, take_while};
ghost use Rattle.std.specs.List.Sorted.{IsStrictlySortedBy};
ghost use Rattle.cargo_lock_parts.specs.Identity.{identity_of};
ghost use Rattle.cargo_lock_diff.specs.Dependencies.{are_one, is_carried, is_carried_either};
ghost use Rattle.cargo_lock_diff.specs.Dependencies.{is_met, is_target, only_in};
ghost use Rattle.cargo_lock_diff.specs.Difference.{dependencies_at, referred_pairs};
ghost use Rattle.cargo_lock_diff.specs.Pairing.{exchanged_pair};
ghost use Rattle.cargo_lock_diff.specs.Place.{target_cmp};
ghost use Rattle.cargo_lock_diff.specs.Targets.{dependencies_cmp, pairs_cmp};

use crate::place::cmp_named;
use cargo_lock_parts::dependency::Dependency;
use cargo_lock_parts::package::{Name, Package, SourceId, Version};
use std::alloc::{AllocError, Global};
use std::cmp::Ordering;
use std::marker::Model;

// The pairs of a difference, by which an old and a new dependency are the same: if they are one, or
// if their packages are a pair. A dependency is of the package that has its name, its version and its origin; the
// commit is ignored, since a reference may have none, and the branch `master` is the default
// branch, as which it was written before V3.
//
// The pairs are also in the order of their old packages, and exchanged in the order of their new
// ones. Of pairs that dependencies do not distinguish, these two lists have one.
#[derive(Drop)]
pub(crate) struct Targets<'a> {
    pairs: Vec<(&'a Package, &'a Package)>,
    by_old: Vec<(&'a Package, &'a Package)>,
    by_new: Vec<(&'a Package, &'a Package)>,
}

impl<'a> Model for Targets<'a> {
    ghost use Rattle.std.specs.Prelude.{List};
    ghost use Rattle.cargo_lock_parts.specs.Identity.{PackageData};
    ghost use Rattle.cargo_lock_diff.specs.Difference.{referred_pairs};
    ghost use Rattle.cargo_lock_diff.specs.Targets.{AreIndices};

    ghost Value = { List (PackageData × PackageData) };

    ghost view = { λ t. referred_pairs t.pairs.items };

    ghost invariant = { λ t. AreIndices t.pairs.items t.by_old.items t.by_new.items };
}

impl<'a> Targets<'a> {
    // The pairs of two lists.
    pub(crate) fn of(
        alloc: Global,
        kept: &Vec<(&'a Package, &'a Package)>,
        others: &Vec<(&'a Package, &'a Package)>,
    ) -> Result<Targets<'a>, AllocError>
        ensures { IfOk result (λ t. t ≡ referred_pairs kept.now.items ++ referred_pairs others.now.items) }
    {
        let pairs = joined(alloc, kept, others)?;
        let by_old = in_order(joined(alloc, kept, others)?)?;
        let by_new = in_order(exchanged_pairs(alloc, &pairs)?)?;
        Ok(Targets {
            pairs,
            by_old,
            by_new,
        })
    }

    // The dependencies of the first list that meet none of the second.
    pub(crate) fn only_in<'d>(
        &self,
        alloc: Global,
        forward: bool,
        these: &'d Vec<Dependency>,
        others: &Vec<Dependency>,
    ) -> Result<Vec<&'d Dependency>, AllocError>
        ensures { IfOk result (λ only. dependencies_at only.items
            ≡ only_in forward self.now these.now.items others.now.items) }
    {
        let others = dependencies_in_order(alloc, others)?;
        let only = self.only_beside(alloc, forward, these, &others)?;
        Ok(only)
    }

    // The same, for dependencies that are in order.
    fn only_beside<'d>(
        &self,
        alloc: Global,
        forward: bool,
        these: &'d Vec<Dependency>,
        others: &Vec<&Dependency>,
    ) -> Result<Vec<&'d Dependency>, AllocError>
        requires { IsSorted dependencies_cmp others.now.items }
        ensures { IfOk result (λ only. dependencies_at only.items
            ≡ only_in forward self.now these.now.items (dependencies_at others.now.items)) }
    {
        let mut only = Vec::new(alloc);
        for dependency in these {
            if !self.meets(forward, dependency, others) {
                only.push(dependency)?;
            }
        }
        Ok(only)
    }

    // Whether a dependency is one of some that are in order, or meets one of them.
    fn meets(&self, forward: bool, one: &Dependency, others: &Vec<&Dependency>) -> bool
        requires { IsSorted dependencies_cmp others.now.items }
        ensures { result ≡ is_met forward self.now (dependencies_at others.now.items) one.now }
    {
        is_listed(one, others) || self.is_carried(forward, one, others)
    }

    // Whether a dependency is carried onto one of some that are in order, or one of them onto it.
    fn is_carried(&self, forward: bool, one: &Dependency, others: &Vec<&Dependency>) -> bool
        requires { IsSorted dependencies_cmp others.now.items }
        ensures { result ≡ list_any (is_carried_either forward self.now one.now)
            (dependencies_at others.now.items) }
    {
        if forward {
            leads(&self.by_old, one, others)
        } else {
            leads(&self.by_new, one, others)
        }
    }
}

// Whether a dependency is one of some that are in order.
fn is_listed(one: &Dependency, others: &Vec<&Dependency>) -> bool
    requires { IsSorted dependencies_cmp others.now.items }
    ensures { result ≡ list_any (are_one one.now) (dependencies_at others.now.items) }
{
    match others.binary_search_by(|other| cmp_dependencies(other, one)) {
        Ok(_) => true,
        Err(_) => false,
    }
}

// Whether some of the pairs, which are in order, carries a dependency onto one of some that are in
// order.
fn leads(pairs: &Vec<(&Package, &Package)>, one: &Dependency, others: &Vec<&Dependency>) -> bool
    requires pairs { IsStrictlySortedBy pairs_cmp pairs.now.items }
    requires others { IsSorted dependencies_cmp others.now.items }
    ensures { result ≡ list_any (is_carried (referred_pairs pairs.now.items) one.now)
        (dependencies_at others.now.items) }
{
    let from = pairs.partition_point(|pair| cmp_target(pair.0, one).is_lt());
    first_lead(&pairs[from..], one, others)
}

// The same, if the pairs of the dependency are the first ones.
fn first_lead(pairs: &[(&Package, &Package)], one: &Dependency, others: &Vec<&Dependency>) -> bool
    requires { IsSorted dependencies_cmp others.now.items }
    ensures { result ≡ list_any
        (λ p. list_any (is_target p.1.now) (dependencies_at others.now.items))
        (take_while (λ p. is_target p.0.now one.now) pairs.now) }
{
    pairs
        .iter()
        .take_while(|pair| cmp_target(pair.0, one).is_eq())
        .any(|pair| is_among(pair.1, others))
}

// Whether one of some dependencies that are in order is of a package.
fn is_among(package: &Package, others: &Vec<&Dependency>) -> bool
    requires { IsSorted dependencies_cmp others.now.items }
    ensures { result ≡ list_any (is_target «package».now) (dependencies_at others.now.items) }
{
    match others.binary_search_by(|other| cmp_turned(other, package)) {
        Ok(_) => true,
        Err(_) => false,
    }
}

// What a dependency and the package to which it leads have in common.
#[derive(Drop)]
struct Target<'a> {
    name: &'a Name,
    version: &'a Version,
    source: &'a Option<SourceId>,
}

impl<'a> Model for Target<'a> {
    ghost use Rattle.semver.specs.Identifiers.{parts_of};
    ghost use Rattle.cargo_lock_parts.specs.Identity.{Identity};

    ghost Value = { Identity };

    ghost view = { λ t. record { name = t.name.now; version = parts_of t.version.now; source = t.source.now } };
}

fn target_of<'a>(package: &'a Package) -> Target<'a>
    ensures { result ≡ identity_of «package».now }
{
    Target {
        name: &package.name,
        version: &package.version,
        source: &package.source,
    }
}

fn target_in<'a>(dependency: &'a Dependency) -> Target<'a>
    ensures { result ≡ dependency.now }
{
    Target {
        name: &dependency.name,
        version: &dependency.version,
        source: &dependency.source,
    }
}

// The order of two targets by name, version and named source.
fn cmp_targets(one: Target<'_>, other: Target<'_>) -> Ordering
    ensures { result ≡ target_cmp one.entry other.entry }
{
    one.name
        .cmp(other.name)
        .then(one.version.cmp(other.version))
        .then(cmp_named(one.source, other.source))
}

// The order of a package and a dependency by name, version and named source.
fn cmp_target(package: &Package, dependency: &Dependency) -> Ordering
    ensures { result ≡ target_cmp (identity_of «package».now) dependency.now }
{
    cmp_targets(target_of(package), target_in(dependency))
}

// The order of a dependency and a package.
fn cmp_turned(dependency: &Dependency, package: &Package) -> Ordering
    ensures { result ≡ target_cmp dependency.now (identity_of «package».now) }
{
    cmp_targets(target_in(dependency), target_of(package))
}

// The order of two packages by name, version and named source.
fn cmp_packages(one: &Package, other: &Package) -> Ordering
    ensures { result ≡ target_cmp (identity_of one.now) (identity_of other.now) }
{
    cmp_targets(target_of(one), target_of(other))
}

// The order of two dependencies by name, version and named source.
fn cmp_dependencies(one: &Dependency, other: &Dependency) -> Ordering
    ensures { result ≡ target_cmp one.now other.now }
{
    cmp_targets(target_in(one), target_in(other))
}

// The order of two pairs by the names, versions and named sources of their packages.
fn cmp_pairs(one: &(&Package, &Package), other: &(&Package, &Package)) -> Ordering
    ensures { result ≡ pairs_cmp one.now other.now }
{
    cmp_packages(one.0, other.0).then(cmp_packages(one.1, other.1))
}

// The pairs of two lists.
fn joined<'a>(
    alloc: Global,
    kept: &Vec<(&'a Package, &'a Package)>,
    others: &Vec<(&'a Package, &'a Package)>,
) -> Result<Vec<(&'a Package, &'a Package)>, AllocError>
    ensures { IfOk result (λ all. all.items ≡ kept.now.items ++ others.now.items) }
{
    let mut all = Vec::new(alloc);
    all.extend_from_slice(kept.as_slice())?;
    all.extend_from_slice(others.as_slice())?;
    Ok(all)
}

// The pairs, with the new package of each before the old one.
fn exchanged_pairs<'a>(
    alloc: Global,
    pairs: &Vec<(&'a Package, &'a Package)>,
) -> Result<Vec<(&'a Package, &'a Package)>, AllocError>
    ensures { IfOk result (λ all. referred_pairs all.items
        ≡ map exchanged_pair (referred_pairs pairs.now.items)) }
{
    let mut all = Vec::with_capacity(alloc, pairs.len())?;
    for pair in pairs {
        all.push((pair.1, pair.0))?;
    }
    Ok(all)
}

// The pairs in order, with only one of those that dependencies do not distinguish.
fn in_order<'a>(
    pairs: Vec<(&'a Package, &'a Package)>,
) -> Result<Vec<(&'a Package, &'a Package)>, AllocError>
    ensures sorted { IfOk result (λ all. IsStrictlySortedBy pairs_cmp all.items) }
    ensures carries { IfOk result (λ all. (d e : _)
        → is_carried (referred_pairs all.items) d e ≡ is_carried (referred_pairs pairs.entry.items) d e) }
{
    let mut all = pairs;
    all.sort_by(|one, other| cmp_pairs(one, other))?;
    all.dedup_by(|one, other| cmp_pairs(one, other).is_eq());
    Ok(all)
}

fn dependencies_in_order<'d>(
    alloc: Global,
    dependencies: &'d Vec<Dependency>,
) -> Result<Vec<&'d Dependency>, AllocError>
    ensures items { IfOk result
        (λ all. IsPermutation dependencies.now.items (dependencies_at all.items)) }
    ensures sorted { IfOk result (λ all. IsSorted dependencies_cmp all.items) }
{
    let mut all = references_to(alloc, dependencies)?;
    all.sort_by(|one, other| cmp_dependencies(one, other))?;
    Ok(all)
}

// References to the dependencies, in order.
fn references_to<'d>(
    alloc: Global,
    dependencies: &'d Vec<Dependency>,
) -> Result<Vec<&'d Dependency>, AllocError>
    ensures { IfOk result (λ all. dependencies_at all.items ≡ dependencies.now.items) }
{
    let mut all = Vec::with_capacity(alloc, dependencies.len())?;
    for dependency in dependencies {
        all.push(dependency)?;
    }
    Ok(all)
}
