//! The package to which a dependency resolves.

ghost use Rattle.std.specs.Prelude.{◌≡◌, ◌<◌, IfOk, IfSome, MatchOption, Some, length};
ghost use Rattle.std.specs.Prelude.{option_map, slice_get};
ghost use Rattle.std.specs.List.{All};
ghost use Rattle.semver.specs.Identifiers.{parts_of};
ghost use Rattle.cargo_lock_index.specs.Near.{IsIndexOf};
ghost use Rattle.cargo_lock_parts.specs.Identity.{HasNameAndVersion, identity_of};
ghost use Rattle.cargo_lock_graph.specs.Candidates.{IsBestAmong, keys_of};
ghost use Rattle.cargo_lock_graph.specs.Candidates as spec;
ghost use Rattle.cargo_lock_graph.specs.Targets.{HoldsOf, IsLastWith, IsLost, IsTarget};

use crate::graph::NodeIndex;
use crate::versions::rank_at;
use cargo_lock_index::places::{Entry, Keys, Places};
use cargo_lock_parts::dependency::Dependency;
use cargo_lock_parts::package::{Name, Package, PartialIdentity, SourceId, Version};
use std::alloc::{AllocError, Global};
use std::marker::Model;

/// A list of packages, with an index of their identities. So the package to which a dependency
/// resolves is found without a look at packages of other names, versions and URLs.
///
/// ```
/// match candidates.find(dependency) {
///     Some(place) => println!(rt; "it resolves to package {place}")?,
///     None => println!(rt; "no package matches it")?,
/// }
/// ```
#[derive(Drop)]
pub struct Candidates<'a> {
    packages: &'a [Package],
    places: Places<'a>,
}

impl<'a> Model for Candidates<'a> {
    ghost use Rattle.std.specs.Prelude.{List};
    ghost use Rattle.cargo_lock_index.specs.Near.{IsIndexOf};
    ghost use Rattle.cargo_lock_parts.specs.Identity.{PackageData};
    ghost use Rattle.cargo_lock_graph.specs.Candidates.{keys_of};

    ghost Value = { List PackageData };

    ghost view = { λ c. c.packages.now };

    ghost invariant = { λ c. IsIndexOf (keys_of c.packages.now) c.places };
}

// The best package so far: how well its source matches, and its place.
#[derive(Clone, Copy)]
struct Best {
    rank: u8,
    place: usize,
}

impl<'a> Candidates<'a> {
    /// These packages, with their index. Fails when out of memory.
    pub fn of(alloc: Global, packages: &'a [Package]) -> Result<Candidates<'a>, AllocError>
        ensures { IfOk result (λ candidates. candidates ≡ packages.now) }
    {
        let places = places_of(alloc, packages)?;
        Ok(Candidates { packages, places })
    }

    /// The place of the package to which a dependency resolves: the last of those that match best.
    /// `None` if no package matches. A package with the dependency's identity matches best, so if
    /// there is one, no other is compared.
    pub fn find(&self, dependency: &'a Dependency) -> Option<usize>
        ensures { MatchOption result
            (IsLost self.now dependency.now)
            (λ place. IsTarget self.now dependency.now place) }
    {
        match self.last_like(dependency) {
            Some(place) => Some(place),
            None => self.best_place(dependency),
        }
    }

    // The last place of the packages with the identity of a dependency.
    fn last_like(&self, dependency: &'a Dependency) -> Option<usize>
        ensures { IsLastWith self.now dependency.now result }
    {
        let Dependency {
            name,
            version,
            source,
        } = dependency;
        self.last_with(name, version, source)
    }

    /// The last place of the packages with an identity. `None` if no package has it.
    pub fn last_with(
        &self,
        name: &'a Name,
        version: &'a Version,
        source: &'a Option<SourceId>,
    ) -> Option<usize>
        ensures { IsLastWith self.now
            (record { name = name.now; version = parts_of version.now; source = source.now })
            result }
    {
        self.places.last(identity(name, version, source))
    }

    // The place of the package to which a dependency resolves, by ranks. Packages with another
    // name, version or URL match it with none.
    fn best_place(&self, dependency: &'a Dependency) -> Option<usize>
        ensures { MatchOption result
            (IsLost self.now dependency.now)
            (λ place. IsTarget self.now dependency.now place) }
    {
        let Dependency {
            name,
            version,
            source,
        } = dependency;
        let alike = self.places.alike(identity(name, version, source));
        place_of(best_among(self.packages, dependency, alike))
    }

    // The node of the package at a place: that of the last package with its identity.
    pub(crate) fn node_of(&self, place: usize) -> NodeIndex
        requires { place < length self.now }
        ensures { IfSome (slice_get self.now place)
            (λ p. IsLastWith self.now (identity_of p) (Some result)) }
    {
        let packages = self.packages;
        let package = &packages[place];
        let last = self.last_with(&package.name, &package.version, &package.source);
        NodeIndex::new(last.unwrap_or(place))
    }
}

// The best match for a dependency among packages with its name and version.
fn best_among(packages: &[Package], dependency: &Dependency, entries: &[Entry<'_>]) -> Option<Best>
    requires { All (λ e. HoldsOf (HasNameAndVersion dependency.now) packages.now e.place)
        entries.now }
    ensures { IsBestAmong packages.now dependency.now entries.now result }
{
    let mut best = None;
    for entry in entries {
        let place = entry.place();
        let rank = rank_at(packages, dependency, place);
        best = better_candidate(best, rank, place);
    }
    best
}

// The places of each identity.
fn places_of<'a>(alloc: Global, packages: &'a [Package]) -> Result<Places<'a>, AllocError>
    ensures { IfOk result (λ places. IsIndexOf (keys_of packages.now) places) }
{
    let mut keys = Keys::with_capacity(alloc, packages.len())?;
    for place in 0..packages.len() {
        let package = &packages[place];
        keys.add(identity(&package.name, &package.version, &package.source))?;
    }
    keys.into_places()
}

// The key of an identity.
fn identity<'a>(
    name: &'a Name,
    version: &'a Version,
    source: &'a Option<SourceId>,
) -> PartialIdentity<'a>
    ensures { result ≡ spec.identity_as_key
        (record { name = name.now; version = parts_of version.now; source = source.now }) }
{
    PartialIdentity {
        name,
        version: Some(version),
        source: source.as_ref(),
    }
}

fn place_of(best: Option<Best>) -> Option<usize>
    ensures { result ≡ option_map (λ b. b.place) best }
{
    best.map(|best| best.place)
}

// The better match: the best so far, or that of a package with this rank. Of two with the same
// rank, the one at the later place is better.
fn better_candidate(best: Option<Best>, rank: Option<u8>, place: usize) -> Option<Best>
    ensures { result ≡ spec.better_candidate best rank place }
{
    match (best, rank) {
        (best, None) => best,
        (None, Some(rank)) => Some(Best { rank, place }),
        (Some(best), Some(rank)) => if best.is_worse(rank, place) {
            Some(Best { rank, place })
        } else {
            Some(best)
        },
    }
}

impl Best {
    // Whether a match with this rank at this place is better.
    fn is_worse(&self, rank: u8, place: usize) -> bool
        ensures { result ≡ spec.is_worse self.now rank place }
    {
        rank < self.rank || (rank == self.rank && self.place < place)
    }
}
