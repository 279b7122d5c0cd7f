//! The packages of a list at places that are numbers.

ghost use Rattle.std.specs.Prelude.{◌≡◌, ◌≢◌, ◌+◌, ◌<◌, ◌≤◌, ◌^◌, ◌↔◌, ℕ, All, IfErr, IfOk};
ghost use Rattle.std.specs.Prelude.{IsOkUnless};
ghost use Rattle.std.specs.Prelude.{length};
ghost use Rattle.std.specs.List.{Contains};
ghost use Rattle.std.specs.List.Sorted.{IsStrictlyIncreasing};
ghost use Rattle.cargo_lock_parts.specs.declared.error.Error.TheVariants.{Memory};
ghost use Rattle.cargo_lock_merge_core.specs.Lists.{AreNumberedFrom, AreSlots, IsNumberAt};
ghost use Rattle.cargo_lock_merge_core.specs.Lists.{IsNumberedAt, IsReplaced, all_numbered};
ghost use Rattle.cargo_lock_merge_core.specs.Lists.{numbered_data, replaced_place};
ghost use Rattle.cargo_lock_merge_core.specs.Numbered.{all_data};
ghost use Rattle.cargo_lock_merge_core.specs.Refusals.{IsFaultFrom};
ghost use Rattle.cargo_lock_merge_core.specs.declared.numbered.Replaced.TheVariants.{Lost};
ghost use Rattle.cargo_lock_merge_core.specs.declared.refusal.Fault.TheVariants.{Refused};
ghost use Rattle.cargo_lock_merge_core.specs.declared.refusal.Refusal.TheVariants.{Unreplaced};

use crate::linked::Linked;
use crate::numbers::Numbers;
use crate::placed::Placed;
use crate::refusal::{Fault, Refusal, Result};
use cargo_lock_parts::error;
use cargo_lock_parts::package::Package;
use std::alloc::{AllocError, Global};

/// A package at its place, which is a number, with the places of its dependencies and of its
/// replacement.
#[derive(Drop)]
pub struct Numbered<'a> {
    /// The place.
    pub place: usize,

    /// The package.
    pub package: &'a Package,

    /// The places of the dependencies, in ascending order.
    pub dependencies: Vec<usize>,

    /// The place of the replacement.
    pub replacement: Option<usize>,
}

/// The packages of a list in the order of their places, whose numbers begin at an index. Refuses two
/// packages at one place, a dependency that resolves to no package, and a replacement that
/// states none.
pub(crate) fn numbered_list<'a>(
    alloc: Global,
    numbers: &Numbers<'_>,
    offset: usize,
    packages: &'a Vec<Package>,
) -> Result<'a, Vec<Numbered<'a>>>
    requires fits { offset + length packages.now.items ≤ length numbers.now }
    requires small { length numbers.now < 2 ^ 64 }
    ensures ok { IfOk result (λ all.
        AreNumberedFrom numbers.now offset packages.now.items (all_numbered all.items)) }
    ensures err { IfErr result (IsFaultFrom numbers.now offset packages.now.items) }
{
    let slots = slots(alloc, numbers, offset, packages)?;
    let linked = Linked::of(alloc, packages)?;
    numbered_slots(alloc, numbers, offset, packages, &linked, &slots)
}

// For each number of a place the index of the package there. Refuses two packages at one place.
fn slots<'a>(
    alloc: Global,
    numbers: &Numbers<'_>,
    offset: usize,
    packages: &'a [Package],
) -> Result<'a, Vec<Option<usize>>>
    requires fits { offset + length packages.now ≤ length numbers.now }
    requires small { length numbers.now < 2 ^ 64 }
    ensures ok { IfOk result
        (λ slots. AreSlots numbers.now offset (length packages.now) slots.items) }
    ensures err { IfErr result (IsFaultFrom numbers.now offset packages.now) }
{
    let mut slots = vec![in alloc; None; numbers.len()]?;
    for (at, package) in packages.iter().enumerate() {
        let number = numbers.number(offset + at);
        if let Some(other) = slots[number] {
            return Err(Fault::Refused(Refusal::OnePlace(&packages[other], package)));
        }
        slots[number] = Some(at);
    }
    Ok(slots)
}

// The packages in the order of their places.
fn numbered_slots<'a>(
    alloc: Global,
    numbers: &Numbers<'_>,
    offset: usize,
    packages: &'a [Package],
    linked: &Linked<'_>,
    slots: &[Option<usize>],
) -> Result<'a, Vec<Numbered<'a>>>
    requires fits { offset + length linked.now ≤ length numbers.now }
    requires small { length numbers.now < 2 ^ 64 }
    requires same { linked.now ≡ packages.now }
    requires slots { AreSlots numbers.now offset (length linked.now) slots.now }
    ensures ok { IfOk result (λ all.
        AreNumberedFrom numbers.now offset linked.now (all_numbered all.items)) }
    ensures err { IfErr result (IsFaultFrom numbers.now offset linked.now) }
{
    let mut all = Vec::with_capacity(alloc, packages.len())?;
    for slot in slots {
        if let Some(at) = slot {
            let numbered = numbered_at(alloc, numbers, offset, packages, linked, *at)?;
            all.push(numbered)?;
        }
    }
    Ok(all)
}

// The package at an index.
fn numbered_at<'a>(
    alloc: Global,
    numbers: &Numbers<'_>,
    offset: usize,
    packages: &'a [Package],
    linked: &Linked<'_>,
    at: usize,
) -> Result<'a, Numbered<'a>>
    requires fits { offset + length linked.now ≤ length numbers.now }
    requires small { length numbers.now < 2 ^ 64 }
    requires same { linked.now ≡ packages.now }
    requires at { at < length packages.now }
    ensures ok { IfOk result
        (λ one. IsNumberedAt numbers.now offset linked.now at (numbered_data one)) }
    ensures err { IfErr result (IsFaultFrom numbers.now offset linked.now) }
{
    let package = &packages[at];
    let replaced = replaced_of(numbers, offset, linked, linked.package(at))?;
    let replacement = place_of_replaced(replaced, package)?;
    let targets = linked.targets(alloc, at)?;
    let dependencies = places(alloc, numbers, offset, &targets)?;
    Ok(Numbered {
        place: numbers.number(offset + at),
        package,
        dependencies,
        replacement,
    })
}

// What replaces a package.
#[derive(Clone, Copy)]
enum Replaced {
    // Nothing.
    Not,

    // The package at this place.
    At(usize),

    // A package that is not in the list.
    Lost,
}

// What replaces the package at an index.
fn replaced_of<'a>(
    numbers: &Numbers<'_>,
    offset: usize,
    linked: &Linked<'a>,
    package: &'a Package,
) -> error::Result<Replaced>
    requires fits { offset + length linked.now ≤ length numbers.now }
    requires small { length numbers.now < 2 ^ 64 }
    ensures ok { IfOk result (IsReplaced numbers.now offset linked.now «package».now.replace) }
    ensures err { IsOkUnless result Memory }
{
    let identity = match &package.replace {
        Some(identity) => identity,
        None => return Ok(Replaced::Not),
    };
    match linked.stated(identity)? {
        Some(at) => Ok(Replaced::At(numbers.number(offset + at))),
        None => Ok(Replaced::Lost),
    }
}

// The place of what replaces the package. Refuses one that is not in the list.
fn place_of_replaced<'a>(replaced: Replaced, package: &'a Package) -> Result<'a, Option<usize>>
    ensures ok { IfOk result (λ place. (place ≡ replaced_place replaced) × (replaced ≢ Lost)) }
    ensures err { IfErr result (λ fault. (replaced ≡ Lost)
        × (fault ≡ Refused (Unreplaced «package».entry))) }
{
    match replaced {
        Replaced::Not => Ok(None),
        Replaced::At(place) => Ok(Some(place)),
        Replaced::Lost => Err(Fault::Refused(Refusal::Unreplaced(package))),
    }
}

// The numbers of the places of packages, in ascending order.
fn places(
    alloc: Global,
    numbers: &Numbers<'_>,
    offset: usize,
    packages: &[usize],
) -> std::result::Result<Vec<usize>, AllocError>
    requires fits { All (λ k. offset + k < length numbers.now) packages.now }
    requires small { length numbers.now < 2 ^ 64 }
    ensures ascending { IfOk result (λ places. IsStrictlyIncreasing places.items) }
    ensures are { IfOk result (λ places. (n : ℕ) → Contains places.items n
        ↔ ((k : ℕ) × Contains packages.now k × IsNumberAt numbers.now (offset + k) n)) }
{
    let mut places = Vec::with_capacity(alloc, packages.len())?;
    for at in packages {
        places.push(numbers.number(offset + *at))?;
    }
    places.sort_unstable();
    places.dedup();
    Ok(places)
}

/// The packages at their places, borrowed. Fails when out of memory.
pub fn placed<'a, 'd>(
    alloc: Global,
    list: &'d [Numbered<'a>],
) -> std::result::Result<Vec<Placed<'a, 'd>>, AllocError>
    ensures { IfOk result (λ all. all_data all.items ≡ all_numbered list.now) }
{
    let mut all = Vec::with_capacity(alloc, list.len())?;
    for one in list {
        all.push(Placed {
            place: one.place,
            package: one.package,
            dependencies: &one.dependencies,
            replacement: one.replacement,
        })?;
    }
    Ok(all)
}
