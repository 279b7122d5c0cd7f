//! Names of packages that Cargo does not accept.

ghost use Rattle.std.specs.Prelude.{◌≡◌, false, IfOk, length};
ghost use Rattle.std.specs.Bool.{Decides};
ghost use Rattle.std.specs.Char.{is_ascii};
ghost use Rattle.std.specs.List.{list_all};
ghost use Rattle.std.specs.Str.{chars};
ghost use Rattle.cargo_lock_flaws.specs.Names.{IsBadlyNamed, is_cargo_name, is_of_crates_io};
ghost use Rattle.cargo_lock_flaws.specs.Names.{begins_name, is_well_named, may_be_in_name};
ghost use Rattle.cargo_lock_flaws.specs.Names.{may_begin};
ghost use Rattle.lists.specs.Places.{IsPlaces};

use cargo_lock_parts::package::{Package, SourceId};
use std::alloc::{AllocError, Global};
use unicode_ident::{is_xid_continue, is_xid_start};

/// The places of packages whose name Cargo does not accept: it is empty, or has a character in
/// which no identifier of Rust may have it, but for `-`, which may follow the first one. A package
/// from crates.io has a name in ASCII alone. Fails when out of memory.
///
/// ```
/// for place in badly_named_packages(rt.alloc(), &lockfile.packages)?.as_slice() {
///     println!(rt; "package {place} is badly named")?;
/// }
/// ```
pub fn badly_named_packages(alloc: Global, packages: &[Package]) -> Result<Vec<usize>, AllocError>
    ensures { IfOk result
        (λ places. IsPlaces (IsBadlyNamed packages.now) (length packages.now) places.items) }
{
    let mut places = Vec::new(alloc);
    for (place, package) in packages.iter().enumerate() {
        if is_badly_named(package) {
            places.push(place)?;
        }
    }
    Ok(places)
}

// Whether the package's name is not accepted.
fn is_badly_named(package: &Package) -> bool
    ensures { Decides result (is_well_named «package».now ≡ false) }
{
    !is_well_named(package)
}

// Whether Cargo accepts the package's name, and crates.io too, if the package is from there.
fn is_well_named(package: &Package) -> bool
    ensures { result ≡ is_well_named «package».now }
{
    let name = package.name.as_str();
    is_cargo_name(name) && (!is_of_crates_io(&package.source) || is_in_ascii(name))
}

fn is_of_crates_io(source: &Option<SourceId>) -> bool
    ensures { result ≡ is_of_crates_io source.now }
{
    match source {
        Some(source) => source.is_default_registry(),
        None => false,
    }
}

/// Whether Cargo accepts the name of a package: it begins with `_` or a character with which an
/// identifier of Rust may begin, and `-` and those that may follow in one may follow. The rule was
/// asked of Cargo 1.95.0.
///
/// ```
/// let is_good = is_cargo_name("serde-json");
/// ```
pub fn is_cargo_name(name: &str) -> bool
    ensures { result ≡ is_cargo_name (chars name.now) }
{
    begins_name(name) && has_name_characters(name)
}

// Whether each character may be in a name.
fn has_name_characters(name: &str) -> bool
    ensures { result ≡ list_all may_be_in_name (chars name.now) }
{
    name.chars().all(may_be_in_name)
}

// Whether the first character may begin a name.
fn begins_name(name: &str) -> bool
    ensures { result ≡ begins_name (chars name.now) }
{
    match name.chars().next() {
        Some(first) => may_begin(first),
        None => false,
    }
}

fn may_begin(c: char) -> bool
    ensures { result ≡ may_begin c }
{
    c == '_' || is_xid_start(c)
}

fn may_be_in_name(c: char) -> bool
    ensures { result ≡ may_be_in_name c }
{
    c == '-' || is_xid_continue(c)
}

// Whether each byte is one of ASCII.
fn is_in_ascii(name: &str) -> bool
    ensures { result ≡ list_all is_ascii name.now }
{
    name.as_bytes().iter().all(|byte| byte.is_ascii())
}
