//! Which packages of a lockfile are compared with advisories, and which are not.

ghost use Rattle.std.specs.Prelude.{◌≡◌, ◌++◌, ◌==◌, IfOk, OnOk, count_by, if◌then◌else◌, map};
ghost use Rattle.cargo_lock_audit.specs.Coverage.{compared_if, coverage_data_of, is_from, lead_after};
ghost use Rattle.cargo_lock_audit.specs.Coverage.{not_compared_if, package_by_place};
ghost use Rattle.cargo_lock_audit.specs.Coverage as spec;
ghost use Rattle.cargo_lock_parts.specs.Identity.{PackageData};

use crate::advisory::counts_as_crates_io;
use cargo_lock_parts::package::{Package, SourceId};
use std::alloc::{AllocError, Global};
use std::fmt;

/// Which packages of a lockfile are compared with advisories, which are not, and with how many
/// advisories. `Display` writes a line without a newline: `39 packages of crates.io compared with 812
/// advisories; not compared: 2 from git, 1 from other registries, 1 from folders, 3 without a
/// source`. Numbers of zero are left out behind the semicolon, and so is that part where each package
/// is compared.
#[derive(Drop)]
pub struct Coverage<'p> {
    /// The packages that count as those of crates.io, in their order.
    pub compared: Vec<&'p Package>,

    /// The other packages, in their order.
    pub not_compared: Vec<&'p Package>,

    /// How many advisories the database has, about packages of all names.
    pub advisories: usize,
}

impl<'p> Coverage<'p> {
    /// Which of these packages are compared with a database of this many advisories: those of
    /// crates.io and of these registries, however Cargo lets their sources be spelt. Fails when out
    /// of memory.
    ///
    /// ```
    /// let coverage = Coverage::of(alloc, &lockfile.packages, registries, database.size)?;
    /// ```
    pub fn of(
        alloc: Global,
        packages: &'p [Package],
        registries: &[SourceId],
        advisories: usize,
    ) -> Result<Coverage<'p>, AllocError>
        ensures { IfOk result (λ made.
            coverage_data_of made ≡ spec.coverage_of registries.now packages.now advisories) }
    {
        let mut coverage = Coverage {
            compared: Vec::new(alloc),
            not_compared: Vec::new(alloc),
            advisories,
        };
        for package in packages {
            put_package(alloc, &mut coverage, registries, package)?;
        }
        Ok(coverage)
    }
}

// Adds the package to those that are compared, or to the others.
fn put_package<'p>(
    alloc: Global,
    coverage: &mut Coverage<'p>,
    registries: &[SourceId],
    package: &'p Package,
) -> Result<(), AllocError>
    ensures compared { OnOk result (map package_by_place coverage.new.compared.items
        ≡ map package_by_place coverage.old.compared.items
        ++ compared_if registries.now «package».now) }
    ensures not_compared { OnOk result (map package_by_place coverage.new.not_compared.items
        ≡ map package_by_place coverage.old.not_compared.items
        ++ not_compared_if registries.now «package».now) }
    ensures advisories { OnOk result (coverage.new.advisories ≡ coverage.old.advisories) }
{
    if counts_as_crates_io(alloc, registries, &package.source)? {
        coverage.compared.push(package)?;
    } else {
        coverage.not_compared.push(package)?;
    }
    Ok(())
}

// ---- the line

/// Where a package comes from that is not of crates.io.
#[derive(Clone, Copy)]
enum Origin {
    /// A repository of git.
    Git,

    /// Another registry.
    Registry,

    /// A folder that its source names.
    Folder,

    /// Its lockfile names no source.
    Unsaid,
}

impl Origin {
    // Whether a package with this source comes from there.
    fn is_of(self, source: &Option<SourceId>) -> bool
        ensures { result ≡ is_from self source.now }
    {
        match source {
            Some(source) => self.is_named_by(source),
            None => matches!(self, Origin::Unsaid),
        }
    }

    // Whether this source names it.
    fn is_named_by(self, source: &SourceId) -> bool
        ensures { result ≡ spec.is_named_by self source.now }
    {
        match self {
            Origin::Git => source.is_git(),
            Origin::Registry => source.is_registry(),
            Origin::Folder => !source.is_git() && !source.is_registry(),
            Origin::Unsaid => false,
        }
    }
}

// How many packages come from there.
fn count_from(origin: Origin, packages: &[&Package]) -> usize
    ensures { result ≡ spec.count_from origin (map package_by_place packages.now) }
{
    let mut number = 0;
    for package in packages {
        if origin.is_of(&package.source) {
            number += 1;
        }
    }
    number
}

impl fmt::Display for Coverage<'_> {
    ghost use Rattle.std.specs.Prelude.{Some};
    ghost use Rattle.cargo_lock_audit.specs.Coverage.{coverage_data_of, coverage_line};

    ghost output = { λ coverage. Some (coverage_line (coverage_data_of coverage)) };

    fn fmt<W: fmt::Write>(&self, f: &mut fmt::Formatter<W>) -> fmt::Result {
        let compared = self.compared.len();
        let package = noun(compared, "package", "packages");
        let advisories = self.advisories;
        let advisory = noun(advisories, "advisory", "advisories");
        let others = &self.not_compared;
        let git = Part {
            lead: "; not compared: ",
            number: count_from(Origin::Git, others),
            words: "from git",
        };
        let registry = git.then(
            count_from(Origin::Registry, others),
            "from other registries",
        );
        let folder = registry.then(count_from(Origin::Folder, others), "from folders");
        let unsaid = folder.then(count_from(Origin::Unsaid, others), "without a source");
        write!(
            f,
            "{compared} {package} of crates.io compared with {advisories} {advisory}{git}{registry}{folder}{unsaid}"
        )
    }
}

// A noun in the singular or the plural.
fn noun(number: usize, one: &'static str, more: &'static str) -> &'static str
    ensures { result.now ≡ (if number == 1 then one.now else more.now) }
{
    if number == 1 { one } else { more }
}

// How many packages that are not compared come from somewhere. Zero is not shown.
#[derive(Clone, Copy)]
struct Part<'a> {
    // What leads to the number.
    lead: &'a str,
    number: usize,
    words: &'a str,
}

impl<'a> Part<'a> {
    // The number after this one.
    fn then(self, number: usize, words: &'a str) -> Part<'a>
        ensures lead { result.lead.now ≡ lead_after self.entry.lead.now self.entry.number }
        ensures number { result.number ≡ number }
        ensures words { result.words.now ≡ words.entry.now }
    {
        let lead = if self.number == 0 { self.lead } else { ", " };
        Part {
            lead,
            number,
            words,
        }
    }
}

impl fmt::Display for Part<'_> {
    ghost use Rattle.std.specs.Prelude.{Some};
    ghost use Rattle.cargo_lock_audit.specs.Coverage.{counted_part};

    ghost output = { λ part. Some (counted_part part.lead.now part.number part.words.now) };

    fn fmt<W: fmt::Write>(&self, f: &mut fmt::Formatter<W>) -> fmt::Result {
        if self.number == 0 {
            return Ok(());
        }
        let Part {
            lead,
            number,
            words,
        } = *self;
        write!(f, "{lead}{number} {words}")
    }
}
