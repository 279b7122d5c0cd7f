//! Pairs off the packages of two lists that are alike.
//!
//! Both lists are sorted by what is compared and then merged, and the results are put back into the
//! order of the lists. So n packages take about n log n comparisons.

ghost use Rattle.std.specs.Prelude.{◌≡◌, ◌↔◌, ◌<◌, ◌++◌, IfOk, IsTrue, IsPermutation, IsSorted};
ghost use Rattle.std.specs.Prelude.{List, length, map, slice_index_or};
ghost use Rattle.std.specs.Borrow.{Bor};
ghost use Rattle.cargo_lock_parts.specs.Identity.{PackageData};
ghost use Rattle.cargo_lock_diff.specs.Matching.{AreMatched, ArePairsInOrder, IsSublist, firsts};
ghost use Rattle.cargo_lock_diff.specs.Matching.{is_alike_at};
ghost use Rattle.cargo_lock_diff.specs.Pairing.{ArePaired, ArePairedInTurn, AreSplit, StandsOnce};
ghost use Rattle.cargo_lock_diff.specs.Placing.{AreAtPlaces, are_alike, placed_cmp, unplaced_pair};

use crate::likeness::Likeness;
use cargo_lock_parts::package::Package;
use std::alloc::{AllocError, Global};
use std::cmp::Ordering;

/// The packages of an old and a new list: those that are alike, in pairs, and those that are left.
#[derive(Drop)]
pub struct Matching<'a> {
    /// An old and a new package that are alike, in the order of the old ones.
    pub pairs: Vec<(&'a Package, &'a Package)>,

    /// The old packages that are left, in their order.
    pub old: Vec<&'a Package>,

    /// The new packages that are left, in their order.
    pub new: Vec<&'a Package>,
}

/// The packages of an old and a new list after several pairings: the pairs of each, and those that
/// are left.
#[derive(Drop)]
pub struct Pairings<'a> {
    /// The pairs of each pairing, in their order.
    pub passes: Vec<Vec<(&'a Package, &'a Package)>>,

    /// The old packages that are left, in their order.
    pub old: Vec<&'a Package>,

    /// The new packages that are left, in their order.
    pub new: Vec<&'a Package>,
}

// A package and its place in its list.
#[derive(Clone, Copy)]
struct Placed<'a> {
    place: usize,
    item: &'a Package,
}

// A matching of packages with their places.
#[derive(Drop)]
struct PlacedMatching<'a> {
    pairs: Vec<(Placed<'a>, Placed<'a>)>,
    old: Vec<Placed<'a>>,
    new: Vec<Placed<'a>>,
}

/// Pairs off the packages that are alike: each old one, in order, with the first new one that is
/// left. Fails when out of memory.
pub fn pair_off<'a>(
    alloc: Global,
    likeness: Likeness,
    olds: &Vec<&'a Package>,
    news: &Vec<&'a Package>,
) -> Result<Matching<'a>, AllocError>
    ensures matched { IfOk result (λ m. AreMatched (is_alike_at likeness)
        olds.now.items news.now.items m.pairs.items m.old.items m.new.items) }
    ensures in_order { IfOk result (λ m. ArePairsInOrder olds.now.items news.now.items
        m.pairs.items m.old.items m.new.items) }
{
    let olds = sort(alloc, likeness, olds)?;
    let news = sort(alloc, likeness, news)?;
    let merged = merge(alloc, likeness, olds.as_slice(), news.as_slice())?;
    let pairs = pairs_by_place(alloc, merged.pairs)?;
    let old = items_by_place(alloc, merged.old)?;
    let new = items_by_place(alloc, merged.new)?;
    Ok(Matching { pairs, old, new })
}

// The packages of a list with their places: those that are like no other one, in the order by what
// is compared, and the others.
#[derive(Drop)]
struct Split<'a> {
    alone: Vec<Placed<'a>>,
    others: Vec<Placed<'a>>,
}

/// Pairs each old and new package that are alike, if no other package of their lists is like them.
/// Fails when out of memory.
pub fn pair_unique<'a>(
    alloc: Global,
    likeness: Likeness,
    olds: &Vec<&'a Package>,
    news: &Vec<&'a Package>,
) -> Result<Matching<'a>, AllocError>
    ensures paired { IfOk result (λ m. ArePaired (is_alike_at likeness)
        olds.now.items news.now.items m.pairs.items m.old.items m.new.items) }
    ensures in_order { IfOk result (λ m. ArePairsInOrder olds.now.items news.now.items
        m.pairs.items m.old.items m.new.items) }
{
    let olds = sort(alloc, likeness, olds)?;
    let news = sort(alloc, likeness, news)?;
    let olds = take_apart(alloc, likeness, olds.as_slice())?;
    let news = take_apart(alloc, likeness, news.as_slice())?;
    let merged = merge(
        alloc,
        likeness,
        olds.alone.as_slice(),
        news.alone.as_slice(),
    )?;
    let pairs = pairs_by_place(alloc, merged.pairs)?;
    let old = items_by_place(alloc, joined(merged.old, olds.others.as_slice())?)?;
    let new = items_by_place(alloc, joined(merged.new, news.others.as_slice())?)?;
    Ok(Matching { pairs, old, new })
}

/// Pairs by each likeness in turn the packages that the earlier ones have left. Fails when out of
/// memory.
pub fn pair_in_turn<'a>(
    alloc: Global,
    likenesses: &[Likeness],
    olds: Vec<&'a Package>,
    news: Vec<&'a Package>,
) -> Result<Pairings<'a>, AllocError>
    ensures paired { IfOk result (λ p. ArePairedInTurn (map is_alike_at likenesses.now)
        olds.entry.items news.entry.items
        (map (λ pairs. pairs.items) p.passes.items) p.old.items p.new.items) }
    ensures old_in_order { IfOk result (λ p. IsSublist p.old.items olds.entry.items) }
    ensures new_in_order { IfOk result (λ p. IsSublist p.new.items news.entry.items) }
{
    let mut passes = Vec::new(alloc);
    let mut old = olds;
    let mut new = news;
    for likeness in likenesses {
        let matching = pair_unique(alloc, *likeness, &old, &new)?;
        passes.push(matching.pairs)?;
        old = matching.old;
        new = matching.new;
    }
    Ok(Pairings { passes, old, new })
}

// Whether two packages are alike.
fn tie<'a>(likeness: Likeness, one: &Placed<'a>, other: &Placed<'a>) -> bool
    ensures { result ≡ are_alike likeness one.now other.now }
{
    likeness.compare(one.item, other.item) == Ordering::Equal
}

// Whether the package at a place of a sorted list is like no other: its neighbours are not like it.
fn is_alone<'a>(likeness: Likeness, sorted: &[Placed<'a>], place: usize) -> bool
    requires within { place < length sorted.now }
    requires sorted { IsSorted (placed_cmp likeness) sorted.now }
    ensures { (d : Placed) → IsTrue result
        ↔ StandsOnce (are_alike likeness) (slice_index_or sorted.now place d) sorted.now }
{
    let one = sorted[place];
    if place > 0 && tie(likeness, &sorted[place - 1], &one) {
        return false;
    }
    if place + 1 < sorted.len() && tie(likeness, &one, &sorted[place + 1]) {
        return false;
    }
    true
}

// Separates a sorted list into the packages that are like no other one, and the others.
fn take_apart<'a>(
    alloc: Global,
    likeness: Likeness,
    sorted: &[Placed<'a>],
) -> Result<Split<'a>, AllocError>
    requires { IsSorted (placed_cmp likeness) sorted.now }
    ensures split { IfOk result
        (λ s. AreSplit (are_alike likeness) sorted.now s.alone.items s.others.items) }
    ensures sorted { IfOk result (λ s. IsSorted (placed_cmp likeness) s.alone.items) }
{
    let mut alone = Vec::new(alloc);
    let mut others = Vec::new(alloc);
    for place in 0..sorted.len() {
        if is_alone(likeness, sorted, place) {
            alone.push(sorted[place])?;
        } else {
            others.push(sorted[place])?;
        }
    }
    Ok(Split { alone, others })
}

// One list after another.
fn joined<'a>(mut list: Vec<Placed<'a>>, more: &[Placed<'a>]) -> Result<Vec<Placed<'a>>, AllocError>
    ensures { IfOk result (λ all. all.items ≡ list.entry.items ++ more.now) }
{
    list.extend_from_slice(more)?;
    Ok(list)
}

// The packages with their places, in the order by what is compared.
fn sort<'a>(
    alloc: Global,
    likeness: Likeness,
    packages: &Vec<&'a Package>,
) -> Result<Vec<Placed<'a>>, AllocError>
    ensures items { IfOk result
        (λ all. IsPermutation packages.now.items (map (λ p. p.item) all.items)) }
    ensures sorted { IfOk result (λ all. IsSorted (placed_cmp likeness) all.items) }
    ensures placed { IfOk result (λ all. AreAtPlaces packages.now.items all.items) }
{
    let mut all = with_places(alloc, packages)?;
    all.sort_by(|one, other| likeness.compare(one.item, other.item))?;
    Ok(all)
}

// The packages with their places, in order.
fn with_places<'a>(
    alloc: Global,
    packages: &Vec<&'a Package>,
) -> Result<Vec<Placed<'a>>, AllocError>
    ensures items { IfOk result (λ all. map (λ p. p.item) all.items ≡ packages.now.items) }
    ensures placed { IfOk result (λ all. AreAtPlaces packages.now.items all.items) }
{
    let mut all = Vec::with_capacity(alloc, packages.len())?;
    for (place, item) in packages.iter().enumerate() {
        all.push(Placed { place, item: *item })?;
    }
    Ok(all)
}

// Pairs off the packages that are alike in two lists that are sorted by what is compared.
fn merge<'a>(
    alloc: Global,
    likeness: Likeness,
    olds: &[Placed<'a>],
    news: &[Placed<'a>],
) -> Result<PlacedMatching<'a>, AllocError>
    requires olds_sorted { IsSorted (placed_cmp likeness) olds.now }
    requires news_sorted { IsSorted (placed_cmp likeness) news.now }
    ensures { IfOk result (λ m. AreMatched (are_alike likeness) olds.now news.now
        m.pairs.items m.old.items m.new.items) }
{
    let mut pairs = Vec::new(alloc);
    let mut old = Vec::new(alloc);
    let mut new = Vec::new(alloc);
    let mut olds_done = 0;
    let mut news_done = 0;
    while olds_done < olds.len() && news_done < news.len() {
        let one = olds[olds_done];
        let other = news[news_done];
        match likeness.compare(one.item, other.item) {
            Ordering::Less => {
                old.push(one)?;
                olds_done += 1;
            }
            Ordering::Equal => {
                pairs.push((one, other))?;
                olds_done += 1;
                news_done += 1;
            }
            Ordering::Greater => {
                new.push(other)?;
                news_done += 1;
            }
        }
    }
    old.extend_from_slice(&olds[olds_done..])?;
    new.extend_from_slice(&news[news_done..])?;
    Ok(PlacedMatching { pairs, old, new })
}

// The packages of pairs, in the order of the places of the first ones.
fn pairs_by_place<'a>(
    alloc: Global,
    mut pairs: Vec<(Placed<'a>, Placed<'a>)>,
) -> Result<Vec<(&'a Package, &'a Package)>, AllocError>
    ensures items { IfOk result
        (λ all. IsPermutation (map unplaced_pair pairs.entry.items) all.items) }
    ensures in_order { IfOk result (λ all. (packages : List (Bor PackageData))
        → AreAtPlaces packages (firsts pairs.entry.items) → IsSublist (firsts all.items) packages) }
{
    pairs.sort_by_key(|pair| pair.0.place)?;
    let mut all = Vec::with_capacity(alloc, pairs.len())?;
    for pair in &pairs {
        all.push((pair.0.item, pair.1.item))?;
    }
    Ok(all)
}

// The packages, in the order of their places.
fn items_by_place<'a>(
    alloc: Global,
    mut list: Vec<Placed<'a>>,
) -> Result<Vec<&'a Package>, AllocError>
    ensures items { IfOk result
        (λ all. IsPermutation (map (λ p. p.item) list.entry.items) all.items) }
    ensures in_order { IfOk result (λ all. (packages : List (Bor PackageData))
        → AreAtPlaces packages list.entry.items → IsSublist all.items packages) }
{
    list.sort_by_key(|one| one.place)?;
    let mut all = Vec::with_capacity(alloc, list.len())?;
    for one in &list {
        all.push(one.item)?;
    }
    Ok(all)
}
