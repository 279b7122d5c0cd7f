//! The difference of two lists of packages.

ghost use Rattle.std.specs.Prelude.{◌≡◌, ◌++◌, All, IfOk, map, true};
ghost use Rattle.std.specs.List.{Contains};
ghost use Rattle.cargo_lock_diff.specs.Alarm.{AreAlarms};
ghost use Rattle.cargo_lock_diff.specs.Difference.{IsDifference, IsDifferenceBut};
ghost use Rattle.cargo_lock_diff.specs.Difference.{referred_packages, referred_pairs};
ghost use Rattle.cargo_lock_diff.specs.Likeness.{is_alike};
ghost use Rattle.cargo_lock_diff.specs.Stranger.{AreStrangers};

use crate::accepted::Accepted;
use crate::alarm::{Vouchers, alarms};
use crate::change::{self, Aspect, Change};
use crate::dependencies::Targets;
use crate::home::Residents;
use crate::likeness::Likeness;
use crate::pairing::{Pairing, pair};
use crate::stranger::Strangers;
use cargo_lock_parts::package::Package;
use std::alloc::{AllocError, Global};
use std::marker::Model;

/// What differs between an old and a new list of packages.
///
/// Packages are paired. First come those that have the same name, version, place, checksum and
/// replacement, as often as both lists have them. The others are paired in turn by name, version
/// and place; by name, origin and release line; by name and version; by name and origin; and by
/// name: each time if exactly one old and one new package that are left have the same ones.
/// `Likeness` defines these terms.
///
/// ```
/// let difference = Difference::of(rt.alloc(), &old.packages, &new.packages)?;
/// for change in difference.changes(rt.alloc())?.as_slice() {
///     println!(rt; "{change}")?;
/// }
/// ```
#[derive(Drop)]
pub struct Difference<'a> {
    /// Pairs of an old and a new package that have all of these in common, in the order of the old
    /// ones. These are not reported.
    pub kept: Vec<(&'a Package, &'a Package)>,

    /// Pairs of an old and a new package of one name that differ, sorted by the old one as
    /// `Likeness::Whole` compares.
    pub pairs: Vec<(&'a Package, &'a Package)>,

    /// The old packages that are in no pair, in their order.
    pub removed: Vec<&'a Package>,

    /// The new packages that are in no pair, in their order.
    pub added: Vec<&'a Package>,

    /// The new packages that are alarms, each with an old one of its name and version that has a
    /// checksum. Pairs do not hide them. A package with a checksum is an alarm if some old package
    /// of its name and version has a checksum, and none of those has this one. A package without a
    /// checksum is an alarm if an old package of its name, version and place has one and the
    /// package is not kept. The new package of a pair with the same version and two checksums is an
    /// alarm too.
    pub alarms: Vec<(&'a Package, &'a Package)>,

    /// Those of `pairs` whose new package comes from a new source: no old package comes from its
    /// home, and the caller does not accept its source. The home of a package is its source, in the
    /// spelling by which Cargo compares URLs, whatever branch, tag, revision and commit it has;
    /// crates.io is one home by either of its two indexes. Of packages without a source each name
    /// has a home of its own.
    pub strange: Vec<(&'a Package, &'a Package)>,

    /// The others of `pairs`.
    pub usual: Vec<(&'a Package, &'a Package)>,

    /// Those of `added` that come from a new source, although the old list has their name, each with
    /// an old package of that name.
    pub came: Vec<(&'a Package, &'a Package)>,
}

impl<'a> Model for Difference<'a> {
    ghost use Rattle.cargo_lock_diff.specs.Difference.{DifferenceData, referred_packages};
    ghost use Rattle.cargo_lock_diff.specs.Difference.{referred_pairs};

    ghost Value = { DifferenceData };

    ghost view = { λ d. record {
      kept = referred_pairs d.kept.items;
      pairs = referred_pairs d.pairs.items;
      removed = referred_packages d.removed.items;
      added = referred_packages d.added.items;
      alarms = referred_pairs d.alarms.items;
      strange = referred_pairs d.strange.items;
      usual = referred_pairs d.usual.items;
      came = referred_pairs d.came.items;
    } };
}

impl<'a> Difference<'a> {
    ghost use Rattle.std.specs.Prelude.{◌↔◌, IsTrue, false};
    ghost use Rattle.cargo_lock_diff.specs.Change.{change_of, changes_of, dependency_changes_of};
    ghost use Rattle.cargo_lock_diff.specs.Change.{alarms_of, all_changes_of};
    ghost use Rattle.cargo_lock_diff.specs.Difference.{HasNoAlarms, HasNoChanges};

    /// What differs between an old and a new list of packages. No source is accepted. Fails when
    /// out of memory.
    pub fn of(
        alloc: Global,
        old: &'a [Package],
        new: &'a [Package],
    ) -> Result<Difference<'a>, AllocError>
        ensures { IfOk result (λ d. IsDifference old.now new.now d) }
    {
        Difference::accepting(alloc, &[], old, new)
    }

    /// The same, where packages may come from some new sources without an alarm. Fails when out of
    /// memory.
    ///
    /// ```
    /// let accepted = [Accepted::Path];
    /// let difference = Difference::accepting(rt.alloc(), &accepted, &old.packages, &new.packages)?;
    /// ```
    pub fn accepting(
        alloc: Global,
        accepted: &[Accepted],
        old: &'a [Package],
        new: &'a [Package],
    ) -> Result<Difference<'a>, AllocError>
        ensures { IfOk result (λ d. IsDifferenceBut accepted.now old.now new.now d) }
    {
        let old = references_to(alloc, old)?;
        let new = references_to(alloc, new)?;
        let pairing = pair(alloc, &old, &new)?;
        let alarms = checksum_alarms(alloc, &old, &pairing)?;
        let strangers = strangers(alloc, accepted, &old, &pairing)?;
        Ok(Difference {
            kept: pairing.kept,
            pairs: pairing.pairs,
            removed: pairing.removed,
            added: pairing.added,
            alarms,
            strange: strangers.strange,
            usual: strangers.usual,
            came: strangers.came,
        })
    }

    /// Whether nothing is reported: both lists have the same packages, each as often.
    pub fn is_empty(&self) -> bool
        ensures { IsTrue result ↔ HasNoChanges self.now }
    {
        self.pairs.is_empty() && self.removed.is_empty() && self.added.is_empty()
    }

    /// Whether there is an alarm: of a checksum, or of a new source.
    pub fn has_alarm(&self) -> bool
        ensures { (result ≡ false) ↔ HasNoAlarms self.now }
    {
        !self.alarms.is_empty() || !self.strange.is_empty() || !self.came.is_empty()
    }

    /// The changes, in their order: alarms first, then other sources, new checksums, other
    /// replacements, other versions, packages that were removed and packages that were added. The
    /// alarm of a pair from a new source is in the place of its other source or other version. Fails
    /// when out of memory.
    pub fn changes(&self, alloc: Global) -> Result<Vec<Change<'a>>, AllocError>
        ensures { IfOk result (λ all. map change_of all.items ≡ changes_of self.now) }
    {
        let mut all = self.alarm_changes(alloc)?;
        change::add_pairs(&mut all, Aspect::Source, &self.usual)?;
        change::add_pairs(&mut all, Aspect::Checksum, &self.pairs)?;
        change::add_pairs(&mut all, Aspect::Replacement, &self.pairs)?;
        change::add_pairs(&mut all, Aspect::Version, &self.usual)?;
        change::add_removed(&mut all, &self.removed)?;
        change::add_added(&mut all, &self.added)?;
        Ok(all)
    }

    // The alarms, in their order.
    fn alarm_changes(&self, alloc: Global) -> Result<Vec<Change<'a>>, AllocError>
        ensures { IfOk result (λ all. map change_of all.items ≡ alarms_of self.now) }
    {
        let mut all = Vec::new(alloc);
        change::add_alarms(&mut all, &self.alarms)?;
        change::add_strange(&mut all, &self.strange)?;
        change::add_came(&mut all, &self.came)?;
        Ok(all)
    }

    /// The pairs of which one package has a dependency that the other does not have, each as
    /// `Change::OtherDependencies`: first of the pairs that are kept, then of the others. An old
    /// and a new dependency are the same if they have one name, version and origin, or if their
    /// packages are a pair. Fails when out of memory.
    pub fn dependency_changes(&self, alloc: Global) -> Result<Vec<Change<'a>>, AllocError>
        ensures { IfOk result (λ all. map change_of all.items ≡ dependency_changes_of self.now) }
    {
        let targets = Targets::of(alloc, &self.kept, &self.pairs)?;
        let kept = change::other_dependencies(alloc, &targets, &self.kept)?;
        let others = change::other_dependencies(alloc, &targets, &self.pairs)?;
        let all = joined(kept, others)?;
        Ok(all)
    }

    /// The changes, followed by the dependency changes if `dependencies` is true. Fails when out of
    /// memory.
    pub fn all_changes(
        &self,
        alloc: Global,
        dependencies: bool,
    ) -> Result<Vec<Change<'a>>, AllocError>
        ensures { IfOk result
            (λ all. map change_of all.items ≡ all_changes_of dependencies self.now) }
    {
        let changes = self.changes(alloc)?;
        if dependencies {
            let others = self.dependency_changes(alloc)?;
            let all = joined(changes, others)?;
            Ok(all)
        } else {
            Ok(changes)
        }
    }
}

// The alarms of checksums of a pairing, for these old packages.
fn checksum_alarms<'a>(
    alloc: Global,
    old: &Vec<&'a Package>,
    pairing: &Pairing<'a>,
) -> Result<Vec<(&'a Package, &'a Package)>, AllocError>
    requires named { All (λ p. is_alike Likeness.Name p.0 p.1 ≡ true)
        (referred_pairs pairing.now.pairs.items) }
    requires among { All (λ p. Contains (referred_packages old.now.items) p.0)
        (referred_pairs pairing.now.pairs.items) }
    ensures { IfOk result (λ all. AreAlarms (referred_packages old.now.items)
        (referred_pairs pairing.now.pairs.items) (referred_packages pairing.now.added.items)
        (referred_pairs all.items)) }
{
    let vouchers = Vouchers::of(alloc, old)?;
    let alarms = alarms(alloc, &vouchers, &pairing.pairs, &pairing.added)?;
    Ok(alarms)
}

// The strangers of a pairing, for these old packages.
fn strangers<'a>(
    alloc: Global,
    accepted: &[Accepted],
    old: &Vec<&'a Package>,
    pairing: &Pairing<'a>,
) -> Result<Strangers<'a>, AllocError>
    ensures { IfOk result (λ s. AreStrangers accepted.now (referred_packages old.now.items)
        (referred_pairs pairing.now.pairs.items) (referred_packages pairing.now.added.items)
        (referred_pairs s.strange.items) (referred_pairs s.usual.items)
        (referred_pairs s.came.items)) }
{
    let residents = Residents::of(alloc, old)?;
    let strangers = Strangers::of(alloc, accepted, &residents, &pairing.pairs, &pairing.added)?;
    Ok(strangers)
}

// One list after another.
fn joined<'a>(one: Vec<Change<'a>>, other: Vec<Change<'a>>) -> Result<Vec<Change<'a>>, AllocError>
    ensures { IfOk result (λ all. all.items ≡ one.entry.items ++ other.entry.items) }
{
    let mut all = one;
    let mut other = other;
    all.append(&mut other)?;
    Ok(all)
}

// References to the packages, in order.
fn references_to<'a>(alloc: Global, packages: &'a [Package]) -> Result<Vec<&'a Package>, AllocError>
    ensures { IfOk result (λ all. referred_packages all.items ≡ packages.now) }
{
    let mut all = Vec::with_capacity(alloc, packages.len())?;
    for package in packages {
        all.push(package)?;
    }
    Ok(all)
}
