//! To which packages of a list dependencies and replacements refer.

ghost use Rattle.std.specs.Prelude.{◌≡◌, ◌<◌, ℕ, All, IfErr, IfOk, IsOkUnless, MatchOption, Some};
ghost use Rattle.std.specs.Prelude.{length, slice_get, true};
ghost use Rattle.std.specs.List.{AllZip};
ghost use Rattle.cargo_lock_parts.specs.declared.error.Error.TheVariants.{Memory};
ghost use Rattle.cargo_lock_graph.specs.Targets.{HasTarget, IsLost, IsUnresolved, links};
ghost use Rattle.cargo_lock_merge_core.specs.Linked.{AreTargetsAt, IsResolved, IsStatedAt, RefersTo};

use cargo_lock_edges::{Groups, own_graph};
use cargo_lock_parts::dependency::Dependency;
use cargo_lock_parts::error::Result;
use cargo_lock_parts::package::Package;
use std::alloc::Global;
use std::marker::Model;

// The packages of a list in their groups. Each dependency of each package resolves to one of them.
#[derive(Drop)]
pub(crate) struct Linked<'a> {
    groups: Groups<'a>,
}

impl<'a> Model for Linked<'a> {
    ghost use Rattle.std.specs.Prelude.{All, List};
    ghost use Rattle.cargo_lock_parts.specs.Identity.{PackageData};
    ghost use Rattle.cargo_lock_graph.specs.Targets.{HasTarget, links};

    ghost Value = { List PackageData };

    ghost view = { λ l. l.groups.packages };

    ghost invariant = { λ l. All (HasTarget l.groups.packages) (links l.groups.packages) };
}

impl<'a> Linked<'a> {
    // These packages in their groups. `Resolution` names the first dependency that resolves to no
    // package. The other error is `Memory`.
    pub(crate) fn of(alloc: Global, packages: &'a [Package]) -> Result<Linked<'a>>
        ensures ok { IfOk result (λ linked. linked ≡ packages.now) }
        ensures err { IfErr result (IsUnresolved packages.now (links packages.now)) }
    {
        let groups = Groups::of(alloc, packages)?;
        if are_resolved(&groups, packages) {
            return Ok(Linked { groups });
        }
        own_graph(alloc, packages)?;
        Ok(Linked { groups })
    }

    // The package at an index.
    pub(crate) fn package(&self, at: usize) -> &'a Package
        requires { at < length self.now }
        ensures { slice_get self.now at ≡ Some result.now }
    {
        self.groups.package(at)
    }

    // The indices of the packages to which the dependencies of the package at an index refer. The one
    // error is `Memory`.
    pub(crate) fn targets(&self, alloc: Global, at: usize) -> Result<Vec<usize>>
        requires { at < length self.now }
        ensures are { IfOk result (λ targets. AreTargetsAt self.now at targets.items) }
        ensures within { IfOk result (λ targets. All (λ k. k < length self.now) targets.items) }
        ensures err { IsOkUnless result Memory }
    {
        let _ = &self.groups;
        let package = self.package(at);
        self.targets_of(alloc, &package.dependencies)
    }

    // The indices of the packages to which these dependencies refer, each of which resolves to a
    // package.
    fn targets_of(&self, alloc: Global, dependencies: &'a [Dependency]) -> Result<Vec<usize>>
        requires { All (IsResolved self.now) dependencies.now }
        ensures are { IfOk result (λ targets.
            AllZip (RefersTo self.now) dependencies.now targets.items) }
        ensures within { IfOk result (λ targets. All (λ k. k < length self.now) targets.items) }
        ensures err { IsOkUnless result Memory }
    {
        let mut targets = Vec::with_capacity(alloc, dependencies.len())?;
        for dependency in dependencies {
            match self.referred(dependency)? {
                Some(at) => targets.push(at)?,
                None => unreachable!(),
            }
        }
        Ok(targets)
    }

    // The index of the package to which an identity refers: the stated one, or else the one to which
    // it resolves. `None` if no package matches it.
    fn referred(&self, identity: &'a Dependency) -> Result<Option<usize>>
        ensures ok { IfOk result (λ found. MatchOption found
            (IsLost self.now identity.now)
            (RefersTo self.now identity.now)) }
        ensures err { IsOkUnless result Memory }
    {
        match self.stated(identity)? {
            Some(at) => Ok(Some(at)),
            None => Ok(self.groups.target(identity)),
        }
    }

    // The index of the package that an identity states. The one error is `Memory`.
    pub(crate) fn stated(&self, identity: &'a Dependency) -> Result<Option<usize>>
        ensures ok { IfOk result (λ found. MatchOption found
            ((k : ℕ) → ¬ IsStatedAt self.now identity.now k)
            (IsStatedAt self.now identity.now)) }
        ensures err { IsOkUnless result Memory }
    {
        self.groups.of_own_words(identity)
    }
}

// Whether each dependency of each of these packages resolves to one. If not, their graph names the
// first that does not.
fn are_resolved<'a>(groups: &Groups<'a>, packages: &'a [Package]) -> bool
    requires { groups.now.packages ≡ packages.now }
    ensures { result ≡ true → All (HasTarget packages.now) (links packages.now) }
{
    for package in packages {
        if !each_resolves(groups, &package.dependencies) {
            return false;
        }
    }
    true
}

// Whether each of these dependencies resolves to a package.
fn each_resolves<'a>(groups: &Groups<'a>, dependencies: &'a [Dependency]) -> bool
    ensures { result ≡ true → All (IsResolved groups.now.packages) dependencies.now }
{
    for dependency in dependencies {
        if groups.target(dependency).is_none() {
            return false;
        }
    }
    true
}
