//! The three lists of a merge at places that are numbers.

ghost use Rattle.std.specs.Prelude.{◌≡◌, ◌+◌, ◌<◌, ◌≤◌, ◌^◌, IfErr, IfOk, OnOk, length};
ghost use Rattle.cargo_lock_merge_core.specs.Assembled.{AreSides};
ghost use Rattle.cargo_lock_merge_core.specs.Commits.{HasOneCommitEach};
ghost use Rattle.cargo_lock_merge_core.specs.Lists.{AreNumberedFrom, all_numbered};
ghost use Rattle.cargo_lock_merge_core.specs.Triples.{AreSidesOf, BeginAt, IsSideStop, IsStop};
ghost use Rattle.cargo_lock_merge_core.specs.Refusals.{IsFaultFrom};
ghost use Rattle.cargo_lock_merge_core.specs.Triples.{triple_in};

use crate::numbered::{Numbered, numbered_list};
use crate::numbers::{Numbers, spots};
use crate::place::Lists;
use crate::refusal::{Fault, Refusal};
use crate::repositories::check_commits;
use cargo_lock_parts::error::Error;
use cargo_lock_parts::package::Package;
use std::alloc::{AllocError, Global};

/// The part of a lockfile in a merge.
#[derive(Clone, Copy)]
pub enum Role {
    /// The common ancestor.
    Base,

    /// Our side.
    Ours,

    /// Their side.
    Theirs,
}

/// Why there is no merge.
#[derive(Drop)]
pub enum Stop<'a> {
    /// Memory ran out.
    Memory,

    /// The lockfile with this part cannot be merged.
    Refused(Role, Refusal<'a>),
}

impl<'a> From<AllocError> for Stop<'a> {
    ghost use Rattle.std.specs.Prelude.{◌≡◌};
    ghost use Rattle.cargo_lock_merge_core.specs.declared.triple.Stop.TheVariants.{Memory};

    ghost from_gives = { λ _ stop. stop ≡ Memory };

    fn from(_: AllocError) -> Stop<'a> {
        Stop::Memory
    }
}

impl<'a> From<Error> for Stop<'a> {
    ghost use Rattle.std.specs.Prelude.{◌≡◌};
    ghost use Rattle.cargo_lock_merge_core.specs.declared.triple.Stop.TheVariants.{Memory};

    ghost from_gives = { λ _ stop. stop ≡ Memory };

    fn from(_: Error) -> Stop<'a> {
        Stop::Memory
    }
}

/// The packages of the base and of the two sides, each in the order of their places.
#[derive(Drop)]
pub struct Sides<'a> {
    /// Those of the base.
    pub base: Vec<Numbered<'a>>,

    /// Ours.
    pub ours: Vec<Numbered<'a>>,

    /// Theirs.
    pub theirs: Vec<Numbered<'a>>,
}

impl<'a> Sides<'a> {
    /// These three lists. Refuses a list that has two packages at one place, a dependency that
    /// resolves to no package, a replacement that states no package, or a git source at two commits.
    pub fn of(
        alloc: Global,
        base: &'a Vec<Package>,
        ours: &'a Vec<Package>,
        theirs: &'a Vec<Package>,
    ) -> Result<Sides<'a>, Stop<'a>>
        ensures ok { IfOk result (λ sides. AreSidesOf (record {
          base = base.now.items;
          ours = ours.now.items;
          theirs = theirs.now.items;
        }) (triple_in sides)) }
        ensures err { IfErr result (IsStop (record {
          base = base.now.items;
          ours = ours.now.items;
          theirs = theirs.now.items;
        })) }
    {
        let lists = Lists { base, ours, theirs };
        let spots = spots(alloc, &lists)?;
        let numbers = Numbers::of(alloc, &spots)?;
        numbered_sides(alloc, &numbers, base, ours, theirs)
    }
}

// The three lists with these numbers of their places.
fn numbered_sides<'a>(
    alloc: Global,
    numbers: &Numbers<'_>,
    base: &'a Vec<Package>,
    ours: &'a Vec<Package>,
    theirs: &'a Vec<Package>,
) -> Result<Sides<'a>, Stop<'a>>
    requires begin { BeginAt (record {
      base = base.now.items;
      ours = ours.now.items;
      theirs = theirs.now.items;
    }) numbers.now }
    requires small { length numbers.now < 2 ^ 64 }
    ensures ok { IfOk result (λ sides. AreSides (record {
      base = base.now.items;
      ours = ours.now.items;
      theirs = theirs.now.items;
    }) numbers.now (triple_in sides)) }
    ensures err { IfErr result (IsStop (record {
      base = base.now.items;
      ours = ours.now.items;
      theirs = theirs.now.items;
    })) }
{
    let first = base.len();
    let second = first + ours.len();
    let base = side(alloc, numbers, 0, base, Role::Base)?;
    let ours = side(alloc, numbers, first, ours, Role::Ours)?;
    let theirs = side(alloc, numbers, second, theirs, Role::Theirs)?;
    Ok(Sides { base, ours, theirs })
}

// One of the lists.
fn side<'a>(
    alloc: Global,
    numbers: &Numbers<'_>,
    offset: usize,
    packages: &'a Vec<Package>,
    role: Role,
) -> Result<Vec<Numbered<'a>>, Stop<'a>>
    requires fits { offset + length packages.now.items ≤ length numbers.now }
    requires small { length numbers.now < 2 ^ 64 }
    ensures numbered { IfOk result (λ all.
        AreNumberedFrom numbers.now offset packages.now.items (all_numbered all.items)) }
    ensures commits { OnOk result (HasOneCommitEach packages.now.items) }
    ensures err { IfErr result (IsSideStop numbers.now offset packages.now.items role) }
{
    match side_of(alloc, numbers, offset, packages) {
        Ok(list) => Ok(list),
        Err(Fault::Memory) => Err(Stop::Memory),
        Err(Fault::Refused(refusal)) => Err(Stop::Refused(role, refusal)),
    }
}

// The same, with the fault of the list alone.
fn side_of<'a>(
    alloc: Global,
    numbers: &Numbers<'_>,
    offset: usize,
    packages: &'a Vec<Package>,
) -> Result<Vec<Numbered<'a>>, Fault<'a>>
    requires fits { offset + length packages.now.items ≤ length numbers.now }
    requires small { length numbers.now < 2 ^ 64 }
    ensures numbered { IfOk result (λ all.
        AreNumberedFrom numbers.now offset packages.now.items (all_numbered all.items)) }
    ensures commits { OnOk result (HasOneCommitEach packages.now.items) }
    ensures err { IfErr result (IsFaultFrom numbers.now offset packages.now.items) }
{
    check_commits(alloc, packages)?;
    numbered_list(alloc, numbers, offset, packages)
}
