//! Which new packages are alarms.

ghost use Rattle.std.specs.Prelude.{◌≡◌, All, IfOk, IsPermutation, IsSorted, MatchOption};
ghost use Rattle.std.specs.Prelude.{false, filter, true};
ghost use Rattle.std.specs.List.{Contains, list_any};
ghost use Rattle.cargo_lock_diff.specs.Alarm.{AreAlarms, IsFounded, is_alarm, is_altered};
ghost use Rattle.cargo_lock_diff.specs.Alarm.{is_checksummed, is_suspect};
ghost use Rattle.cargo_lock_diff.specs.Alarm as spec;
ghost use Rattle.cargo_lock_diff.specs.Difference.{referred_packages, referred_pairs};
ghost use Rattle.cargo_lock_diff.specs.Likeness.{is_alike, likeness_cmp};
ghost use Rattle.cargo_lock_diff.specs.Matching.{seconds};
ghost use Rattle.cargo_lock_diff.specs.Vouchers.{cmp_at};

use crate::likeness::Likeness;
use crate::same::{have_one_checksum, have_one_place, have_one_version};
use cargo_lock_parts::package::Package;
use std::alloc::{AllocError, Global};
use std::marker::Model;

// The old packages that have a checksum, in three orders, so that one that is like a package is
// found by binary search.
#[derive(Drop)]
pub(crate) struct Vouchers<'a> {
    by_version: Vec<&'a Package>,
    by_archive: Vec<&'a Package>,
    by_place: Vec<&'a Package>,
}

impl<'a> Model for Vouchers<'a> {
    ghost use Rattle.std.specs.Prelude.{List};
    ghost use Rattle.cargo_lock_parts.specs.Identity.{PackageData};
    ghost use Rattle.cargo_lock_diff.specs.Difference.{referred_packages};
    ghost use Rattle.cargo_lock_diff.specs.Vouchers.{AreVouchers};

    ghost Value = { List PackageData };

    ghost view = { λ v. referred_packages v.by_version.items };

    ghost invariant = { λ v. AreVouchers v.by_version.items v.by_archive.items v.by_place.items };
}

impl<'a> Vouchers<'a> {
    // Those of these packages that have a checksum.
    pub(crate) fn of(alloc: Global, olds: &Vec<&'a Package>) -> Result<Vouchers<'a>, AllocError>
        ensures { IfOk result (λ v. IsPermutation
            (filter is_checksummed (referred_packages olds.now.items)) v) }
    {
        let all = with_checksum(alloc, olds)?;
        let by_version = sorted(alloc, Likeness::Version, &all)?;
        let by_archive = sorted(alloc, Likeness::Archive, &all)?;
        let by_place = sorted(alloc, Likeness::Place, &all)?;
        Ok(Vouchers {
            by_version,
            by_archive,
            by_place,
        })
    }

    // If a package is suspect, one of these that has its name and version.
    fn against(&self, new: &Package) -> Option<&'a Package>
        ensures { MatchOption result (is_suspect self.now new.now ≡ false)
            (λ old. (is_suspect self.now new.now ≡ true) × IsFounded old.now new.now
            × Contains self.now old.now) }
    {
        if new.checksum.is_none() {
            return find(Likeness::Place, &self.by_place, new);
        }
        match find(Likeness::Archive, &self.by_archive, new) {
            Some(_) => None,
            None => find(Likeness::Version, &self.by_version, new),
        }
    }

    // If a pair is an alarm, its old package if the pair is altered, and otherwise one of these
    // that has the name and the version of the new one.
    fn against_pair(&self, old: &'a Package, new: &Package) -> Option<&'a Package>
        ensures { MatchOption result (is_alarm self.now (old.now, new.now) ≡ false)
            (λ o. (is_alarm self.now (old.now, new.now) ≡ true)
            × (is_alike Likeness.Name old.now new.now ≡ true → IsFounded o.now new.now)
            × (is_altered old.now new.now ≡ true → o.now ≡ old.now)
            × ((is_checksummed old.now ≡ true → Contains self.now old.now)
            → Contains self.now o.now)) }
    {
        if is_altered(old, new) {
            Some(old)
        } else {
            self.against(new)
        }
    }
}

// The packages that have a checksum.
fn with_checksum<'a>(
    alloc: Global,
    packages: &Vec<&'a Package>,
) -> Result<Vec<&'a Package>, AllocError>
    ensures { IfOk result
        (λ all. referred_packages all.items
        ≡ filter is_checksummed (referred_packages packages.now.items)) }
{
    let mut all = Vec::new(alloc);
    for package in packages {
        if package.checksum.is_some() {
            all.push(*package)?;
        }
    }
    Ok(all)
}

/// The packages, sorted by what the likeness compares. Fails when out of memory.
pub(crate) fn sorted<'a>(
    alloc: Global,
    likeness: Likeness,
    packages: &Vec<&'a Package>,
) -> Result<Vec<&'a Package>, AllocError>
    ensures items { IfOk result (λ all. IsPermutation packages.now.items all.items) }
    ensures sorted { IfOk result (λ all. IsSorted (cmp_at likeness) all.items) }
{
    let mut all = Vec::with_capacity(alloc, packages.len())?;
    all.extend_from_slice(packages.as_slice())?;
    all.sort_by(|one, other| likeness.compare(one, other))?;
    Ok(all)
}

/// A package that is like another one, if there is one, among packages in that order.
pub(crate) fn find<'a>(
    likeness: Likeness,
    sorted: &Vec<&'a Package>,
    one: &Package,
) -> Option<&'a Package>
    requires { IsSorted (cmp_at likeness) sorted.now.items }
    ensures { MatchOption result
        (list_any (is_alike likeness one.now) (referred_packages sorted.now.items) ≡ false)
        (λ found. Contains (referred_packages sorted.now.items) found.now
        × (is_alike likeness one.now found.now ≡ true)) }
{
    match sorted.binary_search_by(|other| likeness.compare(other, one)) {
        Ok(place) => Some(sorted[place]),
        Err(_) => None,
    }
}

// Whether the packages of a pair have the same version, the old one has a checksum, and the new one
// has a different one, or none at the same place.
fn is_altered(old: &Package, new: &Package) -> bool
    ensures { result ≡ spec.is_altered old.now new.now }
{
    if !have_one_version(old, new) || old.checksum.is_none() {
        return false;
    }
    if new.checksum.is_some() {
        !have_one_checksum(old, new)
    } else {
        have_one_place(old, new)
    }
}

// The alarms of pairs and of added packages.
pub(crate) fn alarms<'a>(
    alloc: Global,
    vouchers: &Vouchers<'a>,
    pairs: &Vec<(&'a Package, &'a Package)>,
    added: &Vec<&'a Package>,
) -> Result<Vec<(&'a Package, &'a Package)>, AllocError>
    requires named { All (λ p. is_alike Likeness.Name p.0 p.1 ≡ true) (referred_pairs pairs.now.items) }
    requires vouched { All (λ p. is_checksummed p.0 ≡ true → Contains vouchers.now p.0)
        (referred_pairs pairs.now.items) }
    ensures { IfOk result (λ all. AreAlarms vouchers.now
        (referred_pairs pairs.now.items) (referred_packages added.now.items)
        (referred_pairs all.items)) }
{
    let mut all = alarms_of_pairs(alloc, vouchers, pairs)?;
    let others = alarms_of_added(alloc, vouchers, added)?;
    all.extend_from_slice(others.as_slice())?;
    Ok(all)
}

fn alarms_of_pairs<'a>(
    alloc: Global,
    vouchers: &Vouchers<'a>,
    pairs: &Vec<(&'a Package, &'a Package)>,
) -> Result<Vec<(&'a Package, &'a Package)>, AllocError>
    requires named { All (λ p. is_alike Likeness.Name p.0 p.1 ≡ true) (referred_pairs pairs.now.items) }
    requires vouched { All (λ p. is_checksummed p.0 ≡ true → Contains vouchers.now p.0)
        (referred_pairs pairs.now.items) }
    ensures founded { IfOk result (λ all. All (λ a. IsFounded a.0 a.1) (referred_pairs all.items)) }
    ensures among { IfOk result
        (λ all. All (λ a. Contains vouchers.now a.0) (referred_pairs all.items)) }
    ensures own { IfOk result (λ all. All
        (λ p. is_altered p.0 p.1 ≡ true → Contains (referred_pairs all.items) p)
        (referred_pairs pairs.now.items)) }
    ensures told { IfOk result (λ all. seconds (referred_pairs all.items)
        ≡ seconds (filter (is_alarm vouchers.now) (referred_pairs pairs.now.items))) }
{
    let mut all = Vec::new(alloc);
    for pair in pairs {
        if let Some(old) = vouchers.against_pair(pair.0, pair.1) {
            all.push((old, pair.1))?;
        }
    }
    Ok(all)
}

fn alarms_of_added<'a>(
    alloc: Global,
    vouchers: &Vouchers<'a>,
    added: &Vec<&'a Package>,
) -> Result<Vec<(&'a Package, &'a Package)>, AllocError>
    ensures founded { IfOk result (λ all. All (λ a. IsFounded a.0 a.1) (referred_pairs all.items)) }
    ensures among { IfOk result
        (λ all. All (λ a. Contains vouchers.now a.0) (referred_pairs all.items)) }
    ensures told { IfOk result (λ all. seconds (referred_pairs all.items)
        ≡ filter (is_suspect vouchers.now) (referred_packages added.now.items)) }
{
    let mut all = Vec::new(alloc);
    for new in added {
        if let Some(old) = vouchers.against(new) {
            all.push((old, *new))?;
        }
    }
    Ok(all)
}
