//! Advisories, and which packages one concerns.

ghost use Rattle.std.specs.Prelude.{◌≡◌, IfOk, bytes_eq, option_map, string_bytes};
ghost use Rattle.std.specs.List.{list_any};
ghost use Rattle.semver.specs.Identifiers.{parts_of};
ghost use Rattle.cargo_lock_audit.specs.Advisory.{affects, affects_package, concerns};
ghost use Rattle.cargo_lock_audit.specs.Advisory.{counts_as_crates_io, is_about_crates, is_name_of};
ghost use Rattle.cargo_lock_audit.specs.Advisory.{is_of_collection, is_of_registry_among};
ghost use Rattle.cargo_lock_audit.specs.Requirement.{lies_in};

use crate::details::Details;
use crate::requirement::Requirement;
use crate::texts::is_listed;
use cargo_lock_order::{is_canonically_crates_io, is_canonically_same};
use cargo_lock_parts::package::{Package, SourceId};
use semver::Version;
use std::alloc::{AllocError, Global};
use std::marker::Model;

/// What an advisory says: what decides which packages it concerns, what is printed of it, and what
/// its file says besides.
#[derive(Drop)]
pub struct Advisory {
    /// Its id, as `RUSTSEC-2021-0003`.
    pub id: String,

    /// Its ids in other databases, as `CVE-2021-25900`.
    pub aliases: Vec<String>,

    /// The name of the package that it is about.
    pub package: String,

    /// Its title.
    pub title: String,

    /// Its kind, as `unmaintained`, if it is no vulnerability.
    pub informational: Option<String>,

    /// Where its package comes from, if that is said. It is crates.io otherwise.
    pub source: Option<SourceId>,

    /// What its package is, if that is said. It is a crate otherwise, `crates`.
    pub collection: Option<String>,

    /// Whether it was withdrawn.
    pub is_withdrawn: bool,

    /// Which versions are patched.
    pub patched: Vec<Requirement>,

    /// Which versions were never affected.
    pub unaffected: Vec<Requirement>,

    /// What its file says besides.
    pub details: Details,
}

impl Model for Advisory {
    ghost use Rattle.std.specs.Prelude.{option_map, string_bytes};
    ghost use Rattle.cargo_lock_audit.specs.Advisory.{AdvisoryData};
    ghost use Rattle.cargo_lock_audit.specs.Texts.{bytes_of_texts};

    ghost Value = { AdvisoryData };

    ghost view = { λ a. record {
      id = string_bytes a.id;
      aliases = bytes_of_texts a.aliases.items;
      name = string_bytes a.«package»;
      title = string_bytes a.title;
      informational = option_map string_bytes a.informational;
      source = a.source;
      collection = option_map string_bytes a.collection;
      is_withdrawn = a.is_withdrawn;
      patched = a.patched.items;
      unaffected = a.unaffected.items;
      details = a.details;
    } };
}

impl Advisory {
    /// Whether the advisory concerns the package: both are about a crate of crates.io with one
    /// name, the advisory was not withdrawn, and the version lies in none of its requirements. A
    /// source is crates.io if Cargo takes it for that, however it is spelt. The packages of these
    /// registries count as those of crates.io (see `is_canonically_same` of `cargo_lock_order`).
    ///
    /// # Errors
    ///
    /// Fails when out of memory.
    ///
    /// ```
    /// if advisory.concerns(rt.alloc(), package, registries)? {
    ///     let id = &advisory.id;
    ///     println!(rt; "{id}")?;
    /// }
    /// ```
    pub fn concerns(
        &self,
        alloc: Global,
        package: &Package,
        registries: &[SourceId],
    ) -> Result<bool, AllocError>
        ensures { IfOk result (λ is_so. is_so ≡ concerns registries.now self.now «package».now) }
    {
        if !self.fits(package) || !self.is_about_crates(alloc)? {
            return Ok(false);
        }
        counts_as_crates_io(alloc, registries, &package.source)
    }

    /// Whether the text is its id or one of its aliases.
    ///
    /// ```
    /// let is_it = advisory.is_named("CVE-2021-25900");
    /// ```
    pub fn is_named(&self, text: &str) -> bool
        ensures { result ≡ is_name_of self.now text.now }
    {
        self.id.as_str() == text || is_listed(&self.aliases, text)
    }

    // Whether it is about a crate of this name, was not withdrawn, and affects this version.
    fn fits(&self, package: &Package) -> bool
        ensures { result ≡ affects_package self.now «package».now }
    {
        self.package.as_str() == package.name.as_str()
            && !self.is_withdrawn
            && self.affects(&package.version)
    }

    // Whether it is about a crate of crates.io.
    fn is_about_crates(&self, alloc: Global) -> Result<bool, AllocError>
        ensures { IfOk result (λ is_so. is_so ≡ is_about_crates self.now) }
    {
        if !is_of_crates(&self.collection) {
            return Ok(false);
        }
        match &self.source {
            Some(source) => is_canonically_crates_io(alloc, source),
            None => Ok(true),
        }
    }

    // Whether the version is neither patched nor unaffected.
    fn affects(&self, version: &Version) -> bool
        ensures { result ≡ affects self.now (parts_of version.now) }
    {
        !is_in_one(&self.patched, version) && !is_in_one(&self.unaffected, version)
    }
}

// Whether packages of the source count as those of crates.io: Cargo takes it for crates.io, or for
// one of these registries.
pub(crate) fn counts_as_crates_io(
    alloc: Global,
    registries: &[SourceId],
    source: &Option<SourceId>,
) -> Result<bool, AllocError>
    ensures { IfOk result (λ counts. counts ≡ counts_as_crates_io registries.now source.now) }
{
    let Some(source) = source else {
        return Ok(false);
    };
    if is_canonically_crates_io(alloc, source)? {
        return Ok(true);
    }
    is_of_registry_among(alloc, registries, source)
}

// Whether Cargo takes the source for one of these.
fn is_of_registry_among(
    alloc: Global,
    sources: &[SourceId],
    source: &SourceId,
) -> Result<bool, AllocError>
    ensures { IfOk result (λ is_so. is_so ≡ is_of_registry_among sources.now source.now) }
{
    for other in sources {
        if is_canonically_same(alloc, source, other)? {
            return Ok(true);
        }
    }
    Ok(false)
}

// Whether the collection, if one is named, is that of crates.
fn is_of_crates(collection: &Option<String>) -> bool
    ensures { result ≡ is_of_collection (option_map string_bytes collection.now) }
{
    match collection {
        Some(collection) => collection.as_str() == "crates",
        None => true,
    }
}

// Whether the version lies in one of the requirements.
fn is_in_one(requirements: &[Requirement], version: &Version) -> bool
    ensures { result ≡ list_any (lies_in (parts_of version.now)) requirements.now }
{
    requirements
        .iter()
        .any(|requirement| requirement.contains(version))
}
