//! Which packages come from a new source.

ghost use Rattle.std.specs.Prelude.{◌≡◌, All, IfOk, MatchOption, false, filter, not, true};
ghost use Rattle.cargo_lock_diff.specs.Difference.{referred_packages, referred_pairs};
ghost use Rattle.cargo_lock_diff.specs.Matching.{seconds};
ghost use Rattle.cargo_lock_diff.specs.Stranger.{AreStrangers, IsNamesake, is_strange_pair};
ghost use Rattle.cargo_lock_diff.specs.Stranger.{is_known, is_stranger};

use crate::accepted::{Accepted, is_accepted};
use crate::home::Residents;
use crate::same::have_one_place;
use cargo_lock_parts::package::Package;
use std::alloc::{AllocError, Global};

// The pairs whose new package comes from a new source, the other pairs, and the added packages that
// come from a new source, each with an old one of its name.
#[derive(Drop)]
pub(crate) struct Strangers<'a> {
    pub(crate) strange: Vec<(&'a Package, &'a Package)>,
    pub(crate) usual: Vec<(&'a Package, &'a Package)>,
    pub(crate) came: Vec<(&'a Package, &'a Package)>,
}

// The pairs of a difference, by whether the new package comes from a new source.
#[derive(Drop)]
struct Parted<'a> {
    strange: Vec<(&'a Package, &'a Package)>,
    usual: Vec<(&'a Package, &'a Package)>,
}

impl<'a> Strangers<'a> {
    // The strangers among pairs and among added packages, for these old packages.
    pub(crate) fn of(
        alloc: Global,
        accepted: &[Accepted],
        residents: &Residents<'a>,
        pairs: &Vec<(&'a Package, &'a Package)>,
        added: &Vec<&'a Package>,
    ) -> Result<Strangers<'a>, AllocError>
        ensures { IfOk result (λ s. AreStrangers accepted.now residents.now
            (referred_pairs pairs.now.items) (referred_packages added.now.items)
            (referred_pairs s.strange.items) (referred_pairs s.usual.items)
            (referred_pairs s.came.items)) }
    {
        let parted = part(alloc, accepted, residents, pairs)?;
        let came = came(alloc, accepted, residents, added)?;
        Ok(Strangers {
            strange: parted.strange,
            usual: parted.usual,
            came,
        })
    }
}

// Separates the pairs whose new package comes from a new source from the others.
fn part<'a>(
    alloc: Global,
    accepted: &[Accepted],
    residents: &Residents<'a>,
    pairs: &Vec<(&'a Package, &'a Package)>,
) -> Result<Parted<'a>, AllocError>
    ensures strange { IfOk result (λ p. referred_pairs p.strange.items
        ≡ filter (is_strange_pair accepted.now residents.now) (referred_pairs pairs.now.items)) }
    ensures usual { IfOk result (λ p. referred_pairs p.usual.items
        ≡ filter (λ q. not (is_strange_pair accepted.now residents.now q))
        (referred_pairs pairs.now.items)) }
{
    let mut strange = Vec::new(alloc);
    let mut usual = Vec::new(alloc);
    for pair in pairs {
        if is_strange(alloc, accepted, residents, pair.0, pair.1)? {
            strange.push(*pair)?;
        } else {
            usual.push(*pair)?;
        }
    }
    Ok(Parted { strange, usual })
}

// Whether the packages of a pair have other places, and the new one comes from a new source.
fn is_strange(
    alloc: Global,
    accepted: &[Accepted],
    residents: &Residents<'_>,
    old: &Package,
    new: &Package,
) -> Result<bool, AllocError>
    ensures { IfOk result
        (λ is. is ≡ is_strange_pair accepted.now residents.now (old.now, new.now)) }
{
    if have_one_place(old, new) {
        return Ok(false);
    }
    let namesake = elsewhere(alloc, accepted, residents, new)?;
    Ok(namesake.is_some())
}

// The added packages that come from a new source, each with an old one of its name.
fn came<'a>(
    alloc: Global,
    accepted: &[Accepted],
    residents: &Residents<'a>,
    added: &Vec<&'a Package>,
) -> Result<Vec<(&'a Package, &'a Package)>, AllocError>
    ensures told { IfOk result (λ all. seconds (referred_pairs all.items)
        ≡ filter (is_stranger accepted.now residents.now) (referred_packages added.now.items)) }
    ensures named { IfOk result
        (λ all. All (IsNamesake residents.now) (referred_pairs all.items)) }
{
    let mut all = Vec::new(alloc);
    for new in added {
        if let Some(old) = elsewhere(alloc, accepted, residents, new)? {
            all.push((old, *new))?;
        }
    }
    Ok(all)
}

// If a package comes from a new source, an old one of its name, which comes from elsewhere.
fn elsewhere<'a>(
    alloc: Global,
    accepted: &[Accepted],
    residents: &Residents<'a>,
    new: &Package,
) -> Result<Option<&'a Package>, AllocError>
    ensures { IfOk result (λ found. MatchOption found
        (is_stranger accepted.now residents.now new.now ≡ false)
        (λ old. (is_stranger accepted.now residents.now new.now ≡ true)
        × IsNamesake residents.now (old.now, new.now))) }
{
    match residents.namesake(new) {
        Some(old) => unless_known(alloc, accepted, residents, old, new),
        None => Ok(None),
    }
}

// The old package, unless the new one comes from a home that is known or accepted.
fn unless_known<'a>(
    alloc: Global,
    accepted: &[Accepted],
    residents: &Residents<'_>,
    old: &'a Package,
    new: &Package,
) -> Result<Option<&'a Package>, AllocError>
    ensures { IfOk result (λ found. MatchOption found
        (is_known accepted.now residents.now new.now ≡ true)
        (λ one. (is_known accepted.now residents.now new.now ≡ false) × (one.now ≡ old.now))) }
{
    if residents.has_home_of(alloc, new)? {
        return Ok(None);
    }
    if is_accepted(alloc, accepted, &new.source)? {
        return Ok(None);
    }
    Ok(Some(old))
}
