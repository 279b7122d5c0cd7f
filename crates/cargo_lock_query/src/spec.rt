//! Specifications of packages, as people name them.

ghost use Rattle.std.specs.Prelude.{◌≡◌, IfOk, bytes_eq, length, option_map};
ghost use Rattle.std.specs.List.{before_first};
ghost use Rattle.semver.specs.Identifiers.{parts_of};
ghost use Rattle.lists.specs.Places.{IsPlaces};
ghost use Rattle.cargo_lock_query.specs.Spec.{SpecFits, has_at_sign, has_this_checksum};
ghost use Rattle.cargo_lock_query.specs.Spec.{has_this_precise, is_at_sign, part_fits, second_part};
ghost use Rattle.cargo_lock_query.specs.Spec.{spec_data, spec_fits, spec_in};
ghost use Rattle.cargo_lock_parts.specs.Checksum.{digest_of, digest_text};
ghost use Rattle.cargo_lock_references.specs.Reference as reference;

use cargo_lock_graph::graph::NodeIndex;
use cargo_lock_parts::error::Error;
use cargo_lock_parts::package::{Checksum, Package, SourceId, Version};
use cargo_lock_references::package_version::{same_version, version_of};
use std::alloc::{AllocError, Global};

// A specification of a package, cut at its first `@` into a name and a second part. Without an `@`
// the text is used as both.
#[derive(Drop)]
struct Spec<'a> {
    name: &'a str,
    part: &'a str,

    // Whether the name and the second part both have to match; otherwise one of them is enough.
    both: bool,

    // The version that the second part reads as, if it does.
    version: Option<Version>,
}

impl<'a> Spec<'a> {
    // Reads a specification. Fails when out of memory.
    fn parse(alloc: Global, spec: &'a str) -> Result<Spec<'a>, AllocError>
        ensures { IfOk result (λ parsed. spec_data parsed ≡ spec_in spec.now) }
    {
        let (name, part, both) = cut(spec);
        let version = version_in(alloc, part)?;
        Ok(Spec {
            name,
            part,
            both,
            version,
        })
    }

    // Whether a package matches.
    fn fits(&self, package: &Package) -> bool
        ensures { result ≡ spec_fits (spec_data self.now) «package».now }
    {
        let named = package.name.as_str() == self.name;
        match (self.both, named) {
            (true, false) => false,
            (false, true) => true,
            _ => self.part_fits(package),
        }
    }

    // Whether the second part is the version of a package, or, if it is not a version, its
    // checksum or the precise text of its source.
    fn part_fits(&self, package: &Package) -> bool
        ensures { result
            ≡ part_fits (spec_data self.now).version (spec_data self.now).part «package».now }
    {
        match &self.version {
            Some(version) => same_version(&package.version, version),
            None => is_precise(&package.source, self.part)
                || is_checksum(&package.checksum, self.part),
        }
    }
}

// The texts before and after the first `@`, or the whole text twice, and whether there is one.
fn cut(spec: &str) -> (&str, &str, bool)
    ensures name { result.0.now ≡ before_first is_at_sign spec.now }
    ensures part { result.1.now ≡ second_part spec.now }
    ensures both { result.2 ≡ has_at_sign spec.now }
{
    match spec.split_once('@') {
        Some((name, part)) => (name, part, true),
        None => (spec, spec, false),
    }
}

// The version that a text reads as, if it does. Fails when out of memory.
fn version_in(alloc: Global, text: &str) -> Result<Option<Version>, AllocError>
    ensures { IfOk result
        (λ version. option_map parts_of version ≡ reference.version_of text.now) }
{
    match version_of(alloc, text) {
        Ok(version) => Ok(Some(version)),
        Err(Error::Parse(_)) => Ok(None),
        Err(_) => Err(AllocError),
    }
}

// Whether a text is the precise text of a source.
fn is_precise(source: &Option<SourceId>, text: &str) -> bool
    ensures { result ≡ has_this_precise source.now text.now }
{
    let Some(source) = source else {
        return false;
    };
    match source.precise() {
        Some(precise) => precise == text,
        None => false,
    }
}

// Whether a text is the lower-case text of a checksum. It allocates nothing, and mostly looks at the
// length of the text alone.
fn is_checksum(checksum: &Option<Checksum>, text: &str) -> bool
    ensures { result ≡ has_this_checksum (option_map digest_of checksum.now) text.now }
{
    match checksum.as_ref().and_then(Checksum::as_sha256) {
        Some(digest) => is_digest(&digest, text),
        None => false,
    }
}

// Whether a text is the lower-case text of a digest.
fn is_digest(digest: &[u8; 32], text: &str) -> bool
    ensures { result ≡ bytes_eq (digest_text digest.now) text.now }
{
    text.len() == 64 && has_digits(digest, text)
}

fn has_digits(digest: &[u8; 32], text: &str) -> bool
    ensures { result ≡ bytes_eq (digest_text digest.now) text.now }
{
    let mut digits = [0u8; 64];
    match hex::encode_to_slice(digest.as_slice(), &mut digits) {
        Ok(()) => digits.as_slice() == text.as_bytes(),
        Err(_) => unreachable!(),
    }
}

/// The nodes of the packages that a specification fits, ascending. `NAME@REST` fits the packages of
/// that name whose version is `REST`; if that is not a version, those whose checksum or whose
/// precise source it is. Without an `@` the text is a name or such a rest. Fails when out of memory.
///
/// The rule is that of `src/bin/cargo-lock/main.rs` of the Rust crate `cargo-lock` 11.0.1.
///
/// ```
/// let nodes = fitting(rt.alloc(), &lockfile.packages, "tracing@0.1.35")?;
/// ```
pub fn fitting(
    alloc: Global,
    packages: &[Package],
    spec: &str,
) -> Result<Vec<NodeIndex>, AllocError>
    ensures { IfOk result (λ nodes. IsPlaces (SpecFits spec.now packages.now)
        (length packages.now) nodes.items) }
{
    let parsed = Spec::parse(alloc, spec)?;
    let mut fitting = Vec::new(alloc);
    for (place, package) in packages.iter().enumerate() {
        if parsed.fits(package) {
            fitting.push(NodeIndex::new(place))?;
        }
    }
    Ok(fitting)
}
