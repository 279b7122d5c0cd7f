//! The unused patches of a merge.

ghost use Rattle.std.specs.Prelude.{◌≡◌, ◌⊎◌, ◌↔◌, ◌||◌, IfOk, IsOkUnless, IsTrue, OnOk, map};
ghost use Rattle.std.specs.BTreeSet.{keys};
ghost use Rattle.std.specs.Bool.{Decides};
ghost use Rattle.std.specs.List.{IsDistinct};
ghost use Rattle.std.specs.List.Sorted.{IsPermutation, IsSorted};
ghost use Rattle.cargo_lock_merge.specs.Order.{patch_order};
ghost use Rattle.cargo_lock_merge.specs.Patches.{AreKept, ArePatchesOf, IsIn, IsKeptOf};
ghost use Rattle.cargo_lock_merge.specs.Patches.{has_identity};
ghost use Rattle.cargo_lock_parts.specs.Identity.{Identity, identity_of};
ghost use Rattle.cargo_lock_parts.specs.IdentityOrder.{is_same_identity};
ghost use Rattle.cargo_lock_parts.specs.declared.error.Error.TheVariants.{Memory};

use crate::order::put_in_order;
use cargo_lock_merge_core::rule3::keeps;
use cargo_lock_parts::dependency::Dependency;
use cargo_lock_parts::error::Result;
use cargo_lock_parts::package::Package;
use cargo_lock_parts::patch::Patch;
use std::alloc::Global;
use std::collections::BTreeSet;

/// The unused patches of a merge: those that both sides have, and those that one side has and the
/// base has not. Each is there once, and they are in the order in which Cargo writes them. The one
/// error is `Memory`.
pub(crate) fn merge_patches(
    alloc: Global,
    base: &Patch,
    ours: &Patch,
    theirs: &Patch,
) -> Result<Patch>
    ensures ok { IfOk result (ArePatchesOf base.now ours.now theirs.now) }
    ensures err { IsOkUnless result Memory }
{
    let kept = kept_patches(alloc, &base.unused, &ours.unused, &theirs.unused)?;
    let unused = in_order(alloc, &kept)?;
    Ok(Patch { unused })
}

// The unused patches of the base and of both sides.
#[derive(Drop)]
struct PatchSets {
    base: BTreeSet<Dependency>,
    ours: BTreeSet<Dependency>,
    theirs: BTreeSet<Dependency>,
}

// The patches that are kept, each once.
fn kept_patches(
    alloc: Global,
    base: &[Dependency],
    ours: &[Dependency],
    theirs: &[Dependency],
) -> Result<Vec<Dependency>>
    ensures ok { IfOk result (λ kept. AreKept base.now ours.now theirs.now kept.items) }
    ensures err { IsOkUnless result Memory }
{
    let sets = PatchSets {
        base: set_of(alloc, base)?,
        ours: set_of(alloc, ours)?,
        theirs: set_of(alloc, theirs)?,
    };
    let mut kept = BTreeSet::new(alloc);
    sets.put_kept(&mut kept, ours)?;
    sets.put_kept(&mut kept, theirs)?;
    list_of(alloc, &kept)
}

impl PatchSets {
    // Puts those of the patches into the set that are kept.
    fn put_kept(&self, kept: &mut BTreeSet<Dependency>, patches: &[Dependency]) -> Result<()>
        ensures ok { OnOk result ((d : Identity) → IsIn (keys kept.new) d
            ↔ (IsIn (keys kept.old) d ⊎ (IsIn patches.now d × IsKeptOf self.now d))) }
        ensures err { IsOkUnless result Memory }
    {
        for patch in patches {
            self.put_if_kept(kept, patch)?;
        }
        Ok(())
    }

    // Puts the patch into the set if it is kept.
    fn put_if_kept(&self, kept: &mut BTreeSet<Dependency>, patch: &Dependency) -> Result<()>
        ensures ok { OnOk result ((d : Identity) → IsIn (keys kept.new) d
            ↔ (IsIn (keys kept.old) d ⊎ (IsTrue (is_same_identity d patch.now)
            × IsKeptOf self.now d))) }
        ensures err { IsOkUnless result Memory }
    {
        if self.keeps(patch) {
            put(kept, patch)?;
        }
        Ok(())
    }

    // Whether the patch is kept.
    fn keeps(&self, patch: &Dependency) -> bool
        ensures { Decides result (IsKeptOf self.now patch.now) }
    {
        keeps(
            self.base.contains(patch),
            self.ours.contains(patch),
            self.theirs.contains(patch),
        )
    }
}

// The set of the patches.
fn set_of(alloc: Global, patches: &[Dependency]) -> Result<BTreeSet<Dependency>>
    ensures ok { IfOk result
        (λ set. (d : Identity) → has_identity (keys set) d ≡ has_identity patches.now d) }
    ensures err { IsOkUnless result Memory }
{
    let mut set = BTreeSet::new(alloc);
    for patch in patches {
        put(&mut set, patch)?;
    }
    Ok(set)
}

// Puts the patch into the set.
fn put(set: &mut BTreeSet<Dependency>, patch: &Dependency) -> Result<()>
    ensures ok { OnOk result ((d : Identity) → has_identity (keys set.new) d
        ≡ (has_identity (keys set.old) d || is_same_identity d patch.now)) }
    ensures err { IsOkUnless result Memory }
{
    set.insert(patch.clone()?)?;
    Ok(())
}

// The patches of a set.
fn list_of(alloc: Global, set: &BTreeSet<Dependency>) -> Result<Vec<Dependency>>
    ensures ok { IfOk result (λ list. (list.items ≡ keys set.now)
        × IsDistinct is_same_identity (keys set.now)) }
    ensures err { IsOkUnless result Memory }
{
    let mut list = Vec::with_capacity(alloc, set.len())?;
    for patch in set {
        list.push(patch.clone()?)?;
    }
    Ok(list)
}

// The patches in the order in which Cargo writes them, which is that of packages.
fn in_order(alloc: Global, patches: &[Dependency]) -> Result<Vec<Dependency>>
    ensures ok { IfOk result (λ ordered. IsPermutation patches.now ordered.items) }
    ensures order { IfOk result (λ ordered. IsSorted patch_order ordered.items) }
    ensures err { IsOkUnless result Memory }
{
    let mut packages = packages_of(alloc, patches)?;
    put_in_order(alloc, &mut packages)?;
    identities(alloc, &packages)
}

// Packages of these identities, with nothing else.
fn packages_of(alloc: Global, patches: &[Dependency]) -> Result<Vec<Package>>
    ensures ok { IfOk result (λ packages. map identity_of packages.items ≡ patches.now) }
    ensures err { IsOkUnless result Memory }
{
    let mut packages = Vec::with_capacity(alloc, patches.len())?;
    for patch in patches {
        packages.push(package_of(alloc, patch)?)?;
    }
    Ok(packages)
}

// A package of this identity, with nothing else.
fn package_of(alloc: Global, patch: &Dependency) -> Result<Package>
    ensures ok { IfOk result (λ p. identity_of p ≡ patch.now) }
    ensures err { IsOkUnless result Memory }
{
    let Dependency {
        name,
        version,
        source,
    } = patch.clone()?;
    Ok(Package {
        name,
        version,
        source,
        checksum: None,
        dependencies: Vec::new(alloc),
        replace: None,
    })
}

// The identities of the packages.
fn identities(alloc: Global, packages: &[Package]) -> Result<Vec<Dependency>>
    ensures ok { IfOk result (λ all. all.items ≡ map identity_of packages.now) }
    ensures err { IsOkUnless result Memory }
{
    let mut all = Vec::with_capacity(alloc, packages.len())?;
    for package in packages {
        all.push(Dependency::of(package)?)?;
    }
    Ok(all)
}
