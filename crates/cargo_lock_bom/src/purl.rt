//! Package URLs of packages.

ghost use Rattle.std.specs.Prelude.{◌≡◌, ◌++◌, codes, IfOk, option_copied, option_map};
ghost use Rattle.std.specs.Prelude.{string_bytes};
ghost use Rattle.percent_encoding.specs.Iter.{encoded_text};
ghost use Rattle.cargo_lock_parts.specs.Identity.{identity_of};
ghost use Rattle.cargo_lock_parts.specs.Source.{kind_of, git_reference_of};
ghost use Rattle.cargo_lock_bom.specs.Purl.{commit_or_reference, escaped_text, escaped_url};
ghost use Rattle.cargo_lock_bom.specs.Purl.{purl_of, repository_text};
ghost use Rattle.cargo_lock_bom.specs.Purl as spec;

use crate::user_info::url_text;
use cargo_lock_order::is_canonically_crates_io;
use cargo_lock_parts::package::{GitReference, Package, SourceId, SourceKind};
use percent_encoding::{AsciiSet, NON_ALPHANUMERIC, PercentEncode, ascii_set, utf8_percent_encode};
use std::alloc::{AllocError, Global};

// The ASCII bytes that are escaped in a name and a version.
const SEGMENT: AsciiSet = ascii_set!(
    NON_ALPHANUMERIC
        .remove(b'-')
        .remove(b'.')
        .remove(b'_')
        .remove(b'~')
        .remove(b':')
);

// The ASCII bytes that are escaped in a URL: the same except `/`.
pub(crate) const VALUE: AsciiSet = ascii_set!(SEGMENT.remove(b'/'));

/// The package URL of a package: `pkg:cargo/serde@1.0.203`. After `?` it says where the package
/// comes from, unless Cargo takes that for crates.io:
/// `vcs_url=git%2Bhttps://example.org/lib%40COMMIT` for a repository, with the commit, or else the
/// tag, the branch or the revision, `repository_url=URL` for another registry, and
/// `download_url=URL` for a folder. The URL is written without user name and password, since a bill
/// is published.
///
/// A package without a source has no package URL: `pkg:cargo/NAME@VERSION` is the package of
/// crates.io, a different package. Fails when out of memory.
pub fn purl(alloc: Global, package: &Package) -> Result<Option<String>, AllocError>
    ensures { IfOk result
        (λ text. option_map string_bytes text ≡ purl_of (identity_of «package».now)) }
{
    let name = escape(package.name.as_str());
    let version = package.version.to_string(alloc)?;
    let version = escape(version.as_str());
    match &package.source {
        Some(source) => {
            let qualifiers = qualifiers(alloc, source)?;
            let text = format!(in alloc; "pkg:cargo/{name}@{version}{qualifiers}")?;
            Ok(Some(text))
        }
        None => Ok(None),
    }
}

fn escape(text: &str) -> PercentEncode<'_>
    ensures { encoded_text result ≡ escaped_text text.now }
{
    utf8_percent_encode(text, SEGMENT)
}

fn escape_url(text: &str) -> PercentEncode<'_>
    ensures { encoded_text result ≡ escaped_url text.now }
{
    utf8_percent_encode(text, VALUE)
}

// The qualifiers that say where a package comes from.
#[tactic(auto, unfolding(crate::specs::Purl::qualifiers))]
fn qualifiers(alloc: Global, source: &SourceId) -> Result<String, AllocError>
    ensures { IfOk result (λ text. string_bytes text ≡ spec.qualifiers source.now) }
{
    if is_canonically_crates_io(alloc, source)? {
        return Ok(String::new(alloc));
    }
    let url = url_text(alloc, source.url())?;
    qualifiers_by(alloc, source.kind(), url.as_str(), source.precise())
}

// The same, by the parts of the source.
fn qualifiers_by(
    alloc: Global,
    kind: &SourceKind,
    url: &str,
    precise: Option<&str>,
) -> Result<String, AllocError>
    ensures { IfOk result (λ text. string_bytes text
        ≡ spec.qualifiers_by (kind_of kind.now) url.now (option_copied precise.entry)) }
{
    match kind {
        SourceKind::Git(reference) => repository_qualifier(alloc, reference, url, precise),
        SourceKind::Path => download_qualifier(alloc, url),
        SourceKind::Registry => registry_qualifier(alloc, url),
        SourceKind::SparseRegistry => registry_qualifier(alloc, url),
        SourceKind::LocalRegistry => registry_qualifier(alloc, url),
        SourceKind::Directory => registry_qualifier(alloc, url),
    }
}

// The qualifier of a package from a folder.
fn download_qualifier(alloc: Global, url: &str) -> Result<String, AllocError>
    ensures { IfOk result
        (λ text. string_bytes text ≡ codes "?download_url=" ++ escaped_url url.now) }
{
    let url = escape_url(url);
    format!(in alloc; "?download_url={url}")
}

// The qualifier of a package from a registry.
fn registry_qualifier(alloc: Global, url: &str) -> Result<String, AllocError>
    ensures { IfOk result
        (λ text. string_bytes text ≡ codes "?repository_url=" ++ escaped_url url.now) }
{
    let url = escape_url(url);
    format!(in alloc; "?repository_url={url}")
}

// The qualifier of a package from a repository.
fn repository_qualifier(
    alloc: Global,
    reference: &GitReference,
    url: &str,
    precise: Option<&str>,
) -> Result<String, AllocError>
    ensures { IfOk result (λ text. string_bytes text ≡ codes "?vcs_url=" ++ escaped_url
        (repository_text url.now (commit_or_reference (git_reference_of reference.now)
        (option_copied precise.entry)))) }
{
    let place = place_of(alloc, url, revision_of(reference, precise))?;
    let place = escape_url(place.as_str());
    format!(in alloc; "?vcs_url={place}")
}

// The URL of a repository, with the commit, tag, branch or revision that is checked out.
fn place_of(alloc: Global, url: &str, revision: Option<&str>) -> Result<String, AllocError>
    ensures { IfOk result (λ text. string_bytes text
        ≡ repository_text url.now (option_copied revision.entry)) }
{
    match revision {
        Some(revision) => format!(in alloc; "git+{url}@{revision}"),
        None => format!(in alloc; "git+{url}"),
    }
}

// The commit, or else the tag, the branch or the revision.
fn revision_of<'a>(reference: &'a GitReference, precise: Option<&'a str>) -> Option<&'a str>
    ensures { option_copied result
        ≡ commit_or_reference (git_reference_of reference.now) (option_copied precise.entry) }
{
    match (precise, reference) {
        (Some(commit), _) => Some(commit),
        (None, GitReference::DefaultBranch) => None,
        (None, GitReference::Tag(name)) => Some(name.as_str()),
        (None, GitReference::Branch(name)) => Some(name.as_str()),
        (None, GitReference::Rev(name)) => Some(name.as_str()),
    }
}
