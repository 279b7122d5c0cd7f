//! The lines of packages, by their places and by the packages themselves.

ghost use Rattle.std.specs.Prelude.{◌≡◌, IfOk};
ghost use Rattle.cargo_lock_index.specs.Near.{IsIndexOf};
ghost use Rattle.cargo_lock_location.specs.Lines as spec;
ghost use Rattle.cargo_lock_location.specs.Lines.{package_key_of, package_keys_of};

use cargo_lock_index::places::{Keys, Places};
use cargo_lock_parts::package::{Package, PartialIdentity};
use std::alloc::{AllocError, Global};
use std::marker::Model;

/// The packages of a lockfile, and the number of the line in which each begins, where it is known.
///
/// ```
/// if let Some(line) = lines.of(package) {
///     println!(rt; "line {line}")?;
/// }
/// ```
#[derive(Drop)]
pub struct PackageLines<'a> {
    packages: &'a [Package],
    lines: &'a [Option<usize>],
    places: Places<'a>,
}

impl<'a> Model for PackageLines<'a> {
    ghost use Rattle.cargo_lock_index.specs.Near.{IsIndexOf};
    ghost use Rattle.cargo_lock_location.specs.Lines.{LinesData, package_keys_of};

    ghost Value = { LinesData };

    ghost view = { λ l. record { packages = l.packages.now; lines = l.lines.now } };

    ghost invariant = { λ l. IsIndexOf (package_keys_of l.packages.now) l.places };
}

impl<'a> PackageLines<'a> {
    /// These packages, and the lines of them, each at the place of its package, as `package_lines`
    /// returns them. Without lines none is known. Fails when out of memory.
    ///
    /// ```
    /// let lines = PackageLines::new(rt.alloc(), &lockfile.packages, lines)?;
    /// ```
    pub fn new(
        alloc: Global,
        packages: &'a [Package],
        lines: &'a [Option<usize>],
    ) -> Result<PackageLines<'a>, AllocError>
        ensures { IfOk result
            (λ made. made ≡ record { packages = packages.now; lines = lines.now }) }
    {
        let places = places_of(alloc, packages)?;
        Ok(PackageLines {
            packages,
            lines,
            places,
        })
    }

    /// The number of the line of the package at a place of the list, where it is known.
    ///
    /// ```
    /// let first = lines.at(0);
    /// ```
    pub fn at(&self, place: usize) -> Option<usize>
        ensures { result ≡ spec.line_number_at self.now.lines place }
    {
        let lines = self.lines;
        match lines.get(place) {
            Some(line) => *line,
            None => None,
        }
    }

    /// The number of the line of a package, where it is known. It is not where several packages have
    /// the name, the version and the source of this one, since each would do.
    ///
    /// ```
    /// let line = lines.of(package);
    /// ```
    pub fn of(&self, package: &Package) -> Option<usize>
        ensures { result ≡ spec.line_of_package self.now «package».now }
    {
        match self.only_place(package) {
            Some(place) => self.at(place),
            None => None,
        }
    }

    // The place of the only package with the name, the version and the source of this one.
    fn only_place(&self, package: &Package) -> Option<usize>
        ensures { result ≡ spec.only_place self.now.packages «package».now }
    {
        if self.places.is_only(key_of(package)) {
            self.places.first(key_of(package))
        } else {
            None
        }
    }
}

// The places of the packages with each name, version and source.
fn places_of<'a>(alloc: Global, packages: &'a [Package]) -> Result<Places<'a>, AllocError>
    ensures { IfOk result (λ places. IsIndexOf (package_keys_of packages.now) places) }
{
    let mut keys = Keys::with_capacity(alloc, packages.len())?;
    for package in packages {
        keys.add(key_of(package))?;
    }
    keys.into_places()
}

// The name, the version and the source of a package, as a key.
fn key_of<'a>(package: &'a Package) -> PartialIdentity<'a>
    ensures { result ≡ package_key_of «package».now }
{
    let name = &package.name;
    let version = Some(&package.version);
    let source = package.source.as_ref();
    PartialIdentity {
        name,
        version,
        source,
    }
}
