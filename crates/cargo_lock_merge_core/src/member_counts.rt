//! Which names several packages without a source have.

ghost use Rattle.std.specs.Prelude.{◌≡◌, ◌≢◌, ◌+◌, ◌<◌, ◌^◌, ◌⊎◌, ℕ, IfOk, List, OnOk};
ghost use Rattle.cargo_lock_merge_core.specs.Commits.{Lockfiles};
ghost use Rattle.cargo_lock_merge_core.specs.Located.{AreCounts, AreMemberCounts, lists_of};
ghost use Rattle.cargo_lock_merge_core.specs.Located.{member_count};
ghost use Rattle.cargo_lock_merge_core.specs.Places.{has_several};

use crate::place::Lists;
use cargo_lock_parts::package::{Name, Package};
use std::alloc::{AllocError, Global};
use std::collections::BTreeMap;

/// How many packages without a source have each name, in each of three lists.
#[derive(Drop)]
pub struct MemberCounts<'a> {
    base: BTreeMap<&'a Name, usize>,
    ours: BTreeMap<&'a Name, usize>,
    theirs: BTreeMap<&'a Name, usize>,
}

impl<'a> MemberCounts<'a> {
    /// Those of these lists. Fails when out of memory.
    pub fn of(alloc: Global, lists: &Lists<'a>) -> Result<MemberCounts<'a>, AllocError>
        ensures { IfOk result (AreMemberCounts (lists_of lists.now)) }
    {
        let base = counts(alloc, lists.base)?;
        let ours = counts(alloc, lists.ours)?;
        let theirs = counts(alloc, lists.theirs)?;
        Ok(MemberCounts { base, ours, theirs })
    }

    /// Whether one of the lists has several packages of this name without a source.
    pub fn has_several(&self, name: &'a Name) -> bool
        ensures { (all : Lockfiles) → AreMemberCounts all self.now
            → result ≡ has_several all name.now }
    {
        count_of(&self.base, name) > 1
            || count_of(&self.ours, name) > 1
            || count_of(&self.theirs, name) > 1
    }
}

// How many packages without a source have the name.
fn count_of<'a>(counts: &BTreeMap<&'a Name, usize>, name: &'a Name) -> usize
    ensures { result ≡ member_count counts.now name.now }
{
    counts.get(&name).copied().unwrap_or(0)
}

// How many packages of a list without a source have each name.
fn counts<'a>(
    alloc: Global,
    packages: &'a [Package],
) -> Result<BTreeMap<&'a Name, usize>, AllocError>
    ensures { IfOk result (AreCounts packages.now) }
{
    let mut counts = BTreeMap::new(alloc);
    for package in packages {
        if package.source.is_none() {
            count(&mut counts, &package.name)?;
        }
    }
    Ok(counts)
}

// Counts a name once more.
fn count<'a>(counts: &mut BTreeMap<&'a Name, usize>, name: &'a Name) -> Result<(), AllocError>
    requires { member_count counts.old name.now + 1 < 2 ^ 64 }
    ensures { OnOk result ((other : List ℕ) →
        ((other ≡ name.now)
        × (member_count counts.new other ≡ member_count counts.old name.now + 1))
        ⊎ ((other ≢ name.now) × (member_count counts.new other ≡ member_count counts.old other))) }
{
    let before = count_of(counts, name);
    counts.insert(name, before + 1)?;
    Ok(())
}
