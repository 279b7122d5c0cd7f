//! The pairs of a difference.

ghost use Rattle.std.specs.Prelude.{◌≡◌, IfOk, IsPermutation, IsSorted};
ghost use Rattle.std.specs.List.{flat_map};
ghost use Rattle.std.specs.Ordering.{on};
ghost use Rattle.cargo_lock_diff.specs.Difference.{IsPairing, referred_packages, referred_pairs};
ghost use Rattle.cargo_lock_diff.specs.Difference.{turns};
ghost use Rattle.cargo_lock_diff.specs.Likeness.{likeness_cmp};
ghost use Rattle.cargo_lock_diff.specs.Matching.{ArePairsInOrder};

use crate::likeness::Likeness;
use crate::matching::{pair_in_turn, pair_off};
use cargo_lock_parts::package::Package;
use std::alloc::{AllocError, Global};

// The packages of an old and a new list: the pairs that are wholly alike, the other pairs in the
// order of their old packages, and the packages in no pair.
#[derive(Drop)]
pub(crate) struct Pairing<'a> {
    pub(crate) kept: Vec<(&'a Package, &'a Package)>,
    pub(crate) pairs: Vec<(&'a Package, &'a Package)>,
    pub(crate) removed: Vec<&'a Package>,
    pub(crate) added: Vec<&'a Package>,
}

// Pairs the packages of two lists.
pub(crate) fn pair<'a>(
    alloc: Global,
    old: &Vec<&'a Package>,
    new: &Vec<&'a Package>,
) -> Result<Pairing<'a>, AllocError>
    ensures paired { IfOk result (λ p. IsPairing
        (referred_packages old.now.items) (referred_packages new.now.items)
        (referred_pairs p.kept.items) (referred_pairs p.pairs.items)
        (referred_packages p.removed.items) (referred_packages p.added.items)) }
    ensures in_order { IfOk result (λ p. ArePairsInOrder
        (referred_packages old.now.items) (referred_packages new.now.items)
        (referred_pairs p.kept.items) (referred_packages p.removed.items)
        (referred_packages p.added.items)) }
    ensures sorted { IfOk result (λ p. IsSorted (on (λ p. p.0) (likeness_cmp Likeness.Whole))
        (referred_pairs p.pairs.items)) }
{
    let wholly = pair_off(alloc, Likeness::Whole, old, new)?;
    let turns = turns();
    let in_turn = pair_in_turn(alloc, &turns, wholly.old, wholly.new)?;
    let pairs = in_order(alloc, &in_turn.passes)?;
    Ok(Pairing {
        kept: wholly.pairs,
        pairs,
        removed: in_turn.old,
        added: in_turn.new,
    })
}

// The likenesses by which the packages that are not wholly alike are paired, in turn.
fn turns() -> [Likeness; 5]
    ensures { result ≡ turns }
{
    [
        Likeness::Place,
        Likeness::Line,
        Likeness::Version,
        Likeness::Origin,
        Likeness::Name,
    ]
}

// The pairs of all passes, in the order of their old packages.
fn in_order<'a>(
    alloc: Global,
    passes: &Vec<Vec<(&'a Package, &'a Package)>>,
) -> Result<Vec<(&'a Package, &'a Package)>, AllocError>
    ensures items { IfOk result (λ all. IsPermutation
        (flat_map (λ pairs. pairs.items) passes.now.items) all.items) }
    ensures sorted { IfOk result
        (λ all. IsSorted (on (λ p. p.0.now) (likeness_cmp Likeness.Whole)) all.items) }
{
    let mut all = in_all(alloc, passes)?;
    all.sort_by(|one, other| Likeness::Whole.compare(one.0, other.0))?;
    Ok(all)
}

// The pairs of all passes.
fn in_all<'a>(
    alloc: Global,
    passes: &Vec<Vec<(&'a Package, &'a Package)>>,
) -> Result<Vec<(&'a Package, &'a Package)>, AllocError>
    ensures { IfOk result
        (λ all. all.items ≡ flat_map (λ pairs. pairs.items) passes.now.items) }
{
    let mut all = Vec::new(alloc);
    for pairs in passes {
        all.extend_from_slice(pairs.as_slice())?;
    }
    Ok(all)
}
