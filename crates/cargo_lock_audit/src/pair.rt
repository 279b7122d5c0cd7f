//! Packages and the advisories that concern them.

ghost use Rattle.std.specs.Prelude.{◌≡◌, ◌++◌, IfOk, OnOk, map};
ghost use Rattle.cargo_lock_audit.specs.Pairs.{advisory_pair_of, advisory_pairs_of, pair_if};
ghost use Rattle.cargo_lock_audit.specs.Pairs as spec;

use crate::advisory::Advisory;
use cargo_lock_parts::package::{Package, SourceId};
use std::alloc::{AllocError, Global};

/// A package, and an advisory that concerns it.
#[derive(Clone, Copy)]
pub struct Pair<'p, 'a> {
    /// The package.
    pub package: &'p Package,

    /// The advisory.
    pub advisory: &'a Advisory,
}

/// Each package with each advisory that concerns it, in the order of the packages and then of the
/// advisories. The packages of these registries count as those of crates.io. Fails when out of
/// memory.
///
/// ```
/// let pairs = pairs(alloc, &lockfile.packages, &advisories, registries)?;
/// ```
pub fn pairs<'p, 'a>(
    alloc: Global,
    packages: &'p [Package],
    advisories: &'a [Advisory],
    registries: &[SourceId],
) -> Result<Vec<Pair<'p, 'a>>, AllocError>
    ensures { IfOk result (λ v. map advisory_pair_of v.items
        ≡ spec.pairs registries.now packages.now advisories.now) }
{
    let mut pairs = Vec::new(alloc);
    for package in packages {
        put_pairs(alloc, &mut pairs, package, advisories, registries)?;
    }
    Ok(pairs)
}

// Adds the package with each advisory that concerns it.
fn put_pairs<'p, 'a>(
    alloc: Global,
    pairs: &mut Vec<Pair<'p, 'a>>,
    package: &'p Package,
    advisories: &'a [Advisory],
    registries: &[SourceId],
) -> Result<(), AllocError>
    ensures { OnOk result (map advisory_pair_of pairs.new.items
        ≡ map advisory_pair_of pairs.old.items
        ++ advisory_pairs_of registries.now advisories.now «package».now) }
{
    for advisory in advisories {
        put_pair(alloc, pairs, package, advisory, registries)?;
    }
    Ok(())
}

// Adds the package with the advisory if it concerns it.
fn put_pair<'p, 'a>(
    alloc: Global,
    pairs: &mut Vec<Pair<'p, 'a>>,
    package: &'p Package,
    advisory: &'a Advisory,
    registries: &[SourceId],
) -> Result<(), AllocError>
    ensures { OnOk result (map advisory_pair_of pairs.new.items
        ≡ map advisory_pair_of pairs.old.items
        ++ pair_if registries.now «package».now advisory.now) }
{
    if advisory.concerns(alloc, package, registries)? {
        pairs.push(Pair { package, advisory })?;
    }
    Ok(())
}
