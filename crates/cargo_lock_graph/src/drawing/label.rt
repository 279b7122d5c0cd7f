//! Labels of entries: a package's name and version, and in an exact label what distinguishes the
//! package. Labels are written in pieces, which allocates nothing.

ghost use Rattle.std.specs.Prelude.{◌≡◌, ◌<◌, ◌≤◌, ◌+◌, [], ◌∷◌, ◌++◌, codes, decimal};
ghost use Rattle.std.specs.Prelude.{drop, false, length, option_copied, true};
ghost use Rattle.cargo_lock_parts.specs.Ascii.{newline};
ghost use Rattle.semver.specs.Identifiers.{parts_of, parts_text};
ghost use Rattle.cargo_lock_parts.specs.Checksum.{digest_of, digest_text};
ghost use Rattle.cargo_lock_parts.specs.Source.{git_reference_of};
ghost use Rattle.cargo_lock_parts.specs.SourceText.{fragment_text, query_text, text_of};
ghost use Rattle.cargo_lock_graph.specs.Labels.{exact_text, label_of, tags_text};
ghost use Rattle.cargo_lock_graph.specs.VersionText.{numbers_text};
ghost use Rattle.cargo_lock_graph.specs.Sinks.{CanCountFault, IsWritten};

use crate::drawing::put::{Put, Target, put_all, put_both, put_marked};
use cargo_lock_parts::package::{Checksum, GitReference, Package, SourceId, SourceKind, Version};

// ---- versions

// The pre-release and the build metadata, each after its mark, `-` or `+`.
fn put_tags<T: Target>(out: &mut T, version: &Version) -> Put
    requires { CanCountFault (T.state out.old).failures }
    ensures { IsWritten (T.state out.old) (T.state out.new)
        (tags_text (parts_of version.now)) result }
{
    put_marked(out, b'-', version.pre.as_str())?;
    put_marked(out, b'+', version.build.as_str())
}

// Writes a byte that ends at this place of a buffer, and returns where it starts.
fn write_byte(byte: u8, buffer: &mut [u8], end: usize) -> usize
    requires { (0 < end) × (end ≤ length buffer.old) }
    ensures start { result + 1 ≡ end }
    ensures written { drop result buffer.new ≡ byte ∷ drop end buffer.old }
{
    buffer[end - 1] = byte;
    end - 1
}

// Writes a mark and a number that end at this place of a buffer, and returns where they start.
fn write_marked(mark: u8, number: u64, buffer: &mut [u8], end: usize) -> usize
    requires { (21 ≤ end) × (end ≤ length buffer.old) }
    ensures start { (end ≤ result + 21) × (result ≤ end) }
    ensures written { drop result buffer.new ≡ mark ∷ (decimal number ++ drop end buffer.old) }
{
    let start = itoa::write_digits(number, buffer, end);
    write_byte(mark, buffer, start)
}

// Writes a space and the numbers of a version, which end at this place of a buffer, and returns
// where they start.
fn write_numbers(version: &Version, buffer: &mut [u8; 64], end: usize) -> usize
    requires { (63 ≤ end) × (end ≤ 64) }
    ensures start { result ≤ end }
    ensures written { drop result buffer.new
        ≡ numbers_text (parts_of version.now) ++ drop end buffer.old }
{
    let patch = write_marked(b'.', version.patch, buffer, end);
    let minor = write_marked(b'.', version.minor, buffer, patch);
    write_marked(b' ', version.major, buffer, minor)
}

// A space and the numbers of a version.
fn put_numbers<T: Target>(out: &mut T, version: &Version) -> Put
    requires { CanCountFault (T.state out.old).failures }
    ensures { IsWritten (T.state out.old) (T.state out.new)
        (numbers_text (parts_of version.now)) result }
{
    let mut buffer = [0u8; 64];
    let start = write_numbers(version, &mut buffer, 64);
    put_all(out, &buffer[start..])
}

// A space, the numbers of a version and a newline, as one text.
fn put_numbers_line<T: Target>(out: &mut T, version: &Version) -> Put
    requires { CanCountFault (T.state out.old).failures }
    ensures { IsWritten (T.state out.old) (T.state out.new)
        (numbers_text (parts_of version.now) ++ (newline ∷ [])) result }
{
    let mut buffer = [b'\n'; 64];
    let start = write_numbers(version, &mut buffer, 63);
    put_all(out, &buffer[start..])
}

// A space and a version.
fn put_version<T: Target>(out: &mut T, version: &Version) -> Put
    requires { CanCountFault (T.state out.old).failures }
    ensures { IsWritten (T.state out.old) (T.state out.new)
        (codes " " ++ parts_text (parts_of version.now)) result }
{
    put_numbers(out, version)?;
    put_tags(out, version)
}

// A space, a version and a newline.
fn put_version_line<T: Target>(out: &mut T, version: &Version) -> Put
    requires { CanCountFault (T.state out.old).failures }
    ensures { IsWritten (T.state out.old) (T.state out.new)
        ((codes " " ++ parts_text (parts_of version.now)) ++ (newline ∷ [])) result }
{
    if version.pre.as_str().is_empty() && version.build.as_str().is_empty() {
        return put_numbers_line(out, version);
    }
    put_version(out, version)?;
    put_all(out, b"\n")
}

// ---- the exact part of a label

fn digest(checksum: &Checksum) -> [u8; 32]
    ensures { result ≡ digest_of checksum.now }
{
    let Checksum::Sha256(digest) = *checksum;
    digest
}

fn put_checksum<T: Target>(out: &mut T, checksum: &Checksum) -> Put
    requires { CanCountFault (T.state out.old).failures }
    ensures { IsWritten (T.state out.old) (T.state out.new)
        (codes "checksum:" ++ digest_text (digest_of checksum.now)) result }
{
    let digest = digest(checksum);
    let mut digits = [0u8; 64];
    match hex::encode_to_slice(digest.as_slice(), &mut digits) {
        Ok(()) => put_both(out, b"checksum:", &digits),
        Err(_) => unreachable!(),
    }
}

// The branch, tag or commit of a repository, not escaped, as the query of its URL.
fn put_query<T: Target>(out: &mut T, reference: &GitReference) -> Put
    requires { CanCountFault (T.state out.old).failures }
    ensures { IsWritten (T.state out.old) (T.state out.new)
        (query_text false (git_reference_of reference.now)) result }
{
    match reference {
        GitReference::DefaultBranch => Ok(()),
        GitReference::Tag(text) => put_both(out, b"?tag=", text.as_str().as_bytes()),
        GitReference::Branch(text) => put_both(out, b"?branch=", text.as_str().as_bytes()),
        GitReference::Rev(text) => put_both(out, b"?rev=", text.as_str().as_bytes()),
    }
}

// The commit of a repository, as the fragment of its URL.
fn put_fragment<T: Target>(out: &mut T, precise: Option<&str>) -> Put
    requires { CanCountFault (T.state out.old).failures }
    ensures { IsWritten (T.state out.old) (T.state out.new)
        (fragment_text (option_copied precise.entry)) result }
{
    match precise {
        Some(text) => put_both(out, b"#", text.as_bytes()),
        None => Ok(()),
    }
}

fn put_git<T: Target>(
    out: &mut T,
    url: &str,
    reference: &GitReference,
    precise: Option<&str>,
) -> Put
    requires { CanCountFault (T.state out.old).failures }
    ensures { IsWritten (T.state out.old) (T.state out.new)
        (codes "git+" ++ (url.now ++ (query_text false (git_reference_of reference.now)
        ++ fragment_text (option_copied precise.entry)))) result }
{
    put_both(out, b"git+", url.as_bytes())?;
    put_query(out, reference)?;
    put_fragment(out, precise)
}

// The plain text of a source.
#[tactic(auto, unfolding(cargo_lock_parts::specs::SourceText::text_of))]
fn put_source<T: Target>(out: &mut T, source: &SourceId) -> Put
    requires { CanCountFault (T.state out.old).failures }
    ensures { IsWritten (T.state out.old) (T.state out.new) (text_of false source.now) result }
{
    let url = source.url().as_str();
    match source.kind() {
        SourceKind::Git(reference) => put_git(out, url, reference, source.precise()),
        SourceKind::Path => put_both(out, b"path+", url.as_bytes()),
        SourceKind::Registry => put_both(out, b"registry+", url.as_bytes()),
        SourceKind::SparseRegistry => put_both(out, b"sparse+", url.as_bytes()),
        SourceKind::LocalRegistry => put_both(out, b"local-registry+", url.as_bytes()),
        SourceKind::Directory => put_both(out, b"directory+", url.as_bytes()),
    }
}

fn put_exact_text<T: Target>(out: &mut T, package: &Package) -> Put
    requires { CanCountFault (T.state out.old).failures }
    ensures { IsWritten (T.state out.old) (T.state out.new)
        (exact_text «package».now.checksum «package».now.source) result }
{
    match (&package.checksum, &package.source) {
        (Some(checksum), _) => put_checksum(out, checksum),
        (None, Some(source)) => put_source(out, source),
        (None, None) => put_all(out, b"inexact"),
    }
}

// ---- the label

// The name and the version of a package.
fn put_identity<T: Target>(out: &mut T, package: &Package) -> Put
    requires { CanCountFault (T.state out.old).failures }
    ensures { IsWritten (T.state out.old) (T.state out.new)
        («package».now.name ++ (codes " " ++ parts_text «package».now.version)) result }
{
    put_all(out, package.name.as_str().as_bytes())?;
    put_version(out, &package.version)
}

// The label that is not exact, and a newline.
pub(crate) fn put_plain_line<T: Target>(out: &mut T, package: &Package) -> Put
    requires { CanCountFault (T.state out.old).failures }
    ensures { IsWritten (T.state out.old) (T.state out.new)
        (label_of false «package».now ++ (newline ∷ [])) result }
{
    put_all(out, package.name.as_str().as_bytes())?;
    put_version_line(out, &package.version)
}

pub(crate) fn put_exact_label<T: Target>(out: &mut T, package: &Package) -> Put
    requires { CanCountFault (T.state out.old).failures }
    ensures { IsWritten (T.state out.old) (T.state out.new) (label_of true «package».now) result }
{
    put_identity(out, package)?;
    put_all(out, b" ")?;
    put_exact_text(out, package)
}
