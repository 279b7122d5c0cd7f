//! References and packages that borrow their parts, so that printing and looking up copy nothing.

ghost use Rattle.std.specs.Prelude.{◌≡◌, IfOk, option_map};
ghost use Rattle.semver.specs.Identifiers.{parts_of};
ghost use Rattle.cargo_lock_references.specs.WrittenReference.{written_source};
ghost use Rattle.cargo_lock_references.specs.Records.{is_escaped};

use crate::version::ResolveVersion;
use crate::{EncodableDependency, EncodablePackage, EncodableSourceId};
use cargo_lock_parts::dependency::Dependency;
use cargo_lock_parts::package::source::SourceIdAsUrl;
use cargo_lock_parts::package::{Checksum, Name, SourceId, Version};
use std::alloc::{AllocError, Global};
use std::fmt;
use std::marker::Model;

/// A reference that borrows its parts: an `EncodableDependency` without a copy.
#[derive(Drop)]
pub struct EncodableDependencyRef<'a> {
    /// The name.
    pub name: &'a Name,

    /// The version, if it is written.
    pub version: Option<&'a Version>,

    /// The source, if it is written, with the mark for its text.
    pub source: Option<SourceIdAsUrl<'a>>,
}

impl<'a> Model for EncodableDependencyRef<'a> {
    ghost use Rattle.std.specs.Prelude.{option_map};
    ghost use Rattle.semver.specs.Identifiers.{parts_of};
    ghost use Rattle.cargo_lock_references.specs.Reference.{Reference};

    ghost Value = { Reference };

    ghost view = { λ d. record {
      name = d.name.now;
      version = option_map (λ v. parts_of v.now) d.version;
      source = d.source;
    } };
}

impl<'a> EncodableDependencyRef<'a> {
    ghost use Rattle.cargo_lock_references.specs.WrittenReference.{in_full};

    /// The reference to a dependency in full: its name, its version and its source, unless the
    /// source is absent or a path. The source is marked escaped for V4, and plain before.
    pub fn from_dependency(
        dependency: &'a Dependency,
        format: ResolveVersion,
    ) -> EncodableDependencyRef<'a>
        ensures { result ≡ in_full (is_escaped format) dependency.now }
    {
        EncodableDependencyRef {
            name: &dependency.name,
            version: Some(&dependency.version),
            source: written_source(is_escaped(format), &dependency.source),
        }
    }

    /// A copy that owns its parts. Fails when out of memory.
    pub fn to_owned(&self) -> std::result::Result<EncodableDependency, AllocError>
        ensures { IfOk result (λ copy. copy ≡ self.now) }
    {
        Ok(EncodableDependency {
            name: self.name.clone()?,
            version: own_version(self.version)?,
            source: own_source(&self.source)?,
        })
    }
}

/// A package as its table has it, which borrows its parts: an `EncodablePackage` without a copy.
#[derive(Drop)]
pub struct EncodablePackageRef<'a> {
    /// The name.
    pub name: &'a Name,

    /// The version.
    pub version: &'a Version,

    /// Where the package comes from, with the mark for the source's text.
    pub source: Option<SourceIdAsUrl<'a>>,

    /// The checksum. A lockfile of V1 has it in the metadata.
    pub checksum: Option<Checksum>,

    /// What the package depends on.
    pub dependencies: Vec<EncodableDependencyRef<'a>>,

    /// The reference to the package that replaces it.
    pub replace: Option<EncodableDependencyRef<'a>>,
}

impl<'a> Model for EncodablePackageRef<'a> {
    ghost use Rattle.std.specs.Prelude.{option_map};
    ghost use Rattle.semver.specs.Identifiers.{parts_of};
    ghost use Rattle.cargo_lock_parts.specs.Checksum.{digest_of};
    ghost use Rattle.cargo_lock_references.specs.Records.{EncodedPackage};

    ghost Value = { EncodedPackage };

    ghost view = { λ e. record {
      name = e.name.now;
      version = parts_of e.version.now;
      source = e.source;
      checksum = option_map digest_of e.checksum;
      dependencies = e.dependencies.items;
      replace = e.replace;
    } };
}

impl<'a> EncodablePackageRef<'a> {
    /// A copy that owns its parts. Fails when out of memory.
    pub fn to_owned(&self, alloc: Global) -> std::result::Result<EncodablePackage, AllocError>
        ensures { IfOk result (λ copy. copy ≡ self.now) }
    {
        let dependencies = own_references(alloc, self.dependencies.as_slice())?;
        Ok(EncodablePackage {
            name: self.name.clone()?,
            version: self.version.clone()?,
            source: own_source(&self.source)?,
            checksum: self.checksum,
            dependencies,
            replace: own_reference(&self.replace)?,
        })
    }
}

fn own_reference(
    reference: &Option<EncodableDependencyRef<'_>>,
) -> std::result::Result<Option<EncodableDependency>, AllocError>
    ensures { IfOk result (λ copy. copy ≡ reference.now) }
{
    match reference {
        Some(reference) => Ok(Some(reference.to_owned()?)),
        None => Ok(None),
    }
}

fn own_references(
    alloc: Global,
    references: &[EncodableDependencyRef<'_>],
) -> std::result::Result<Vec<EncodableDependency>, AllocError>
    ensures { IfOk result (λ copies. copies.items ≡ references.now) }
{
    let mut copies = Vec::with_capacity(alloc, references.len())?;
    for reference in references {
        let copy = reference.to_owned()?;
        copies.push(copy)?;
    }
    Ok(copies)
}

// A copy of a version that may be absent.
pub(crate) fn own_version(
    version: Option<&Version>,
) -> std::result::Result<Option<Version>, AllocError>
    ensures { IfOk result
        (λ copy. option_map parts_of copy ≡ option_map (λ v. parts_of v.now) version.entry) }
{
    match version {
        Some(version) => Ok(Some(version.clone()?)),
        None => Ok(None),
    }
}

// A copy of a source that is written.
pub(crate) fn own_source(
    source: &Option<SourceIdAsUrl<'_>>,
) -> std::result::Result<Option<EncodableSourceId>, AllocError>
    ensures { IfOk result (λ copy. copy ≡ source.now) }
{
    match source {
        Some(source) => Ok(Some(mark(source.source().clone()?, source.is_escaped()))),
        None => Ok(None),
    }
}

fn mark(source: SourceId, escaped: bool) -> EncodableSourceId
    ensures { result ≡ record { source = source; escaped = escaped } }
{
    if escaped {
        EncodableSourceId::new(source)
    } else {
        EncodableSourceId::without_url_encoded(source)
    }
}

/// A source as it is written, escaped or plain, or `None` for a path source, which is not written.
pub fn written_source<'a>(escaped: bool, source: &'a Option<SourceId>) -> Option<SourceIdAsUrl<'a>>
    ensures { result ≡ written_source escaped source.now }
{
    match source {
        None => None,
        Some(source) if source.is_path() => None,
        Some(source) => Some(source.as_url(escaped)),
    }
}

/// Whether the values of git references are escaped in this format.
pub fn is_escaped(format: ResolveVersion) -> bool
    ensures { result ≡ is_escaped format }
{
    match format {
        ResolveVersion::V1 | ResolveVersion::V2 | ResolveVersion::V3 => false,
        ResolveVersion::V4 => true,
    }
}

#[tactic(auto, unfolding(crate::specs::Reference::reference_text))]
impl fmt::Display for EncodableDependencyRef<'_> {
    ghost use Rattle.std.specs.Prelude.{Some};
    ghost use Rattle.cargo_lock_references.specs.Reference.{reference_text};

    ghost output = { λ d. Some (reference_text d) };

    fn fmt<W: fmt::Write>(&self, f: &mut fmt::Formatter<W>) -> fmt::Result {
        let name = self.name;
        match (self.version, &self.source) {
            (Some(version), Some(source)) => write!(f, "{name} {version} ({source})"),
            (Some(version), None) => write!(f, "{name} {version}"),
            (None, Some(source)) => write!(f, "{name} ({source})"),
            (None, None) => write!(f, "{name}"),
        }
    }
}

impl EncodablePackage {
    /// The package with its parts borrowed. Fails when out of memory.
    pub fn by_ref(&self, alloc: Global) -> std::result::Result<EncodablePackageRef<'_>, AllocError>
        ensures { IfOk result (λ borrowed. borrowed ≡ self.now) }
    {
        let dependencies = by_refs(alloc, self.dependencies.as_slice())?;
        Ok(EncodablePackageRef {
            name: &self.name,
            version: &self.version,
            source: as_url(&self.source),
            checksum: self.checksum,
            dependencies,
            replace: by_ref(&self.replace),
        })
    }
}

fn by_ref(reference: &Option<EncodableDependency>) -> Option<EncodableDependencyRef<'_>>
    ensures { result ≡ reference.now }
{
    reference.as_ref().map(EncodableDependency::by_ref)
}

fn by_refs(
    alloc: Global,
    references: &[EncodableDependency],
) -> std::result::Result<Vec<EncodableDependencyRef<'_>>, AllocError>
    ensures { IfOk result (λ borrowed. borrowed.items ≡ references.now) }
{
    let mut borrowed = Vec::with_capacity(alloc, references.len())?;
    for reference in references {
        borrowed.push(reference.by_ref())?;
    }
    Ok(borrowed)
}

impl EncodableDependency {
    /// The reference with its parts borrowed.
    pub fn by_ref(&self) -> EncodableDependencyRef<'_>
        ensures { result ≡ self.now }
    {
        EncodableDependencyRef {
            name: &self.name,
            version: self.version.as_ref(),
            source: as_url(&self.source),
        }
    }
}

fn as_url(source: &Option<EncodableSourceId>) -> Option<SourceIdAsUrl<'_>>
    ensures { result ≡ source.now }
{
    source.as_ref().map(EncodableSourceId::as_url)
}
