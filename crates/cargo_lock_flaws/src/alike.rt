//! Packages whose names are the same name to crates.io.

ghost use Rattle.std.specs.Prelude.{◌≡◌, IfOk};
ghost use Rattle.std.specs.Bool.{Decides};
ghost use Rattle.cargo_lock_flaws.specs.Alike.{ArePairsAlike, IsFromCratesIo, folded, folded_byte};
ghost use Rattle.cargo_lock_flaws.specs.Namesakes.{HasSeen};
ghost use Rattle.cargo_lock_flaws.specs.Namesakes as spec;

use cargo_lock_parts::package::Package;
use std::alloc::{AllocError, Global};
use std::collections::BTreeMap;

/// The pairs of places of packages from crates.io with different names that are the same name to
/// crates.io, which compares names in lower case and takes `-` for `_`. If an earlier package is
/// alike, the place of the package is the second of one pair, whose first is the place of the first
/// package alike. The pairs are in the order of their second places. Fails when out of memory.
///
/// ```
/// for (earlier, place) in packages_alike(rt.alloc(), &lockfile.packages)?.as_slice() {
///     println!(rt; "package {place} is alike with package {earlier}")?;
/// }
/// ```
pub fn packages_alike(
    alloc: Global,
    packages: &[Package],
) -> Result<Vec<(usize, usize)>, AllocError>
    ensures { IfOk result (λ pairs. ArePairsAlike packages.now pairs.items) }
{
    let mut seen = BTreeMap::new(alloc);
    let mut pairs = Vec::new(alloc);
    for (place, package) in packages.iter().enumerate() {
        if is_from_crates_io(package) {
            if let Some(earlier) = see(alloc, &mut seen, place, package.name.as_str())? {
                pairs.push((earlier, place))?;
            }
        }
    }
    Ok(pairs)
}

fn is_from_crates_io(package: &Package) -> bool
    ensures { Decides result (IsFromCratesIo «package».now) }
{
    match &package.source {
        Some(source) => source.is_default_registry(),
        None => false,
    }
}

// The first package with a name as crates.io compares it, and the first of the others whose own
// name differs from that one's.
#[derive(Clone, Copy)]
struct Namesakes<'a> {
    name: &'a str,
    first: usize,
    other: Option<usize>,
}

// Records the name of the package at a place, and returns the first earlier place of one alike.
fn see<'a>(
    alloc: Global,
    seen: &mut BTreeMap<Vec<u8>, Namesakes<'a>>,
    place: usize,
    name: &'a str,
) -> Result<Option<usize>, AllocError>
    ensures { IfOk result (λ earlier. HasSeen seen.old seen.new place name.entry earlier) }
{
    let key = folded(alloc, name)?;
    let before = seen.get(&key).copied();
    seen.insert(key, with_place(before, place, name))?;
    Ok(earlier_alike(before, name))
}

// The name as crates.io compares it.
fn folded(alloc: Global, name: &str) -> Result<Vec<u8>, AllocError>
    ensures { IfOk result (λ key. key.items ≡ folded name.now) }
{
    let bytes = name.as_bytes();
    let mut key = Vec::with_capacity(alloc, bytes.len())?;
    for byte in bytes {
        key.push(folded_byte(*byte))?;
    }
    Ok(key)
}

// A byte of a name as crates.io compares it.
fn folded_byte(byte: u8) -> u8
    ensures { result ≡ folded_byte byte }
{
    if byte == b'-' {
        b'_'
    } else {
        byte.to_ascii_lowercase()
    }
}

// The first place of a package with another name.
fn earlier_alike(before: Option<Namesakes<'_>>, name: &str) -> Option<usize>
    ensures { result ≡ spec.earlier_alike before.entry name.now }
{
    match before {
        None => None,
        Some(before) => {
            if before.name == name {
                before.other
            } else {
                Some(before.first)
            }
        }
    }
}

// The namesakes with one more package.
fn with_place<'a>(before: Option<Namesakes<'a>>, place: usize, name: &'a str) -> Namesakes<'a>
    ensures { result ≡ spec.with_place before.entry place name.entry }
{
    match before {
        None => Namesakes {
            name,
            first: place,
            other: None,
        },
        Some(before) => {
            let is_same = before.name == name;
            Namesakes {
                other: next_other(before.other, place, is_same),
                ..before
            }
        }
    }
}

// The first place of a package with another name, after one more package.
fn next_other(other: Option<usize>, place: usize, is_same: bool) -> Option<usize>
    ensures { result ≡ spec.next_other other place is_same }
{
    if is_same {
        other
    } else {
        Some(other.unwrap_or(place))
    }
}
