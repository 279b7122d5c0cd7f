//! Sources that are folders on this machine.

ghost use Rattle.std.specs.Prelude.{◌≡◌, ◌++◌, OnOk, IfOk, IsOkUnless, string_bytes};
ghost use Rattle.std.specs.Path.{path_bytes};
ghost use Rattle.cargo_lock_parts.specs.declared.error.Error.TheVariants.{Memory};
ghost use Rattle.cargo_lock_parts.specs.Source.{kind_of};
ghost use Rattle.cargo_lock_parts.specs.FileUrl.{ReadsFolder, begins_with_slash, kept_text};
ghost use Rattle.cargo_lock_parts.specs.FileUrl.{path_parts, path_parts_text, file_url_of};

use crate::error::{Error, Result};
use crate::package::source::parse::parse_url;
use crate::package::source::{SourceId, SourceKind};
use percent_encoding::{AsciiSet, NON_ALPHANUMERIC, ascii_set, utf8_percent_encode};
use std::alloc::{AllocError, Global};
use std::path::Path;

// The ASCII bytes that are escaped in a part of a path.
const ESCAPED: AsciiSet = ascii_set!(
    NON_ALPHANUMERIC
        .remove(b'-')
        .remove(b'.')
        .remove(b'_')
        .remove(b'~')
        .remove(b'!')
        .remove(b'$')
        .remove(b'&')
        .remove(b'\'')
        .remove(b'(')
        .remove(b')')
        .remove(b'*')
        .remove(b'+')
        .remove(b',')
        .remove(b';')
        .remove(b'=')
        .remove(b':')
        .remove(b'@')
);

impl SourceId {
    ghost use Rattle.cargo_lock_parts.specs.Source as seen;

    /// The folder at this path, as a path dependency has it, with no precise text.
    ///
    /// The path is absolute, and becomes a `file` URL: `/a b/./c/` is `file:///a%20b/c`. A path
    /// that does not begin with `/` is `Parse`. So is a URL of 4 GB or more, which no path shorter
    /// than 2^28 bytes has. The other error is `Memory`.
    pub fn for_path(alloc: Global, path: Path<'_>) -> Result<SourceId>
        ensures { ReadsFolder result seen.Path (path_bytes path.entry) }
    {
        let source = at_path(alloc, path, SourceKind::Path)?;
        Ok(source)
    }

    /// The registry in the folder at this path, with no precise text.
    ///
    /// The path and the errors are those of `for_path`.
    pub fn for_local_registry(alloc: Global, path: Path<'_>) -> Result<SourceId>
        ensures { ReadsFolder result seen.LocalRegistry (path_bytes path.entry) }
    {
        let source = at_path(alloc, path, SourceKind::LocalRegistry)?;
        Ok(source)
    }

    /// The folder of packages at this path, with no precise text.
    ///
    /// The path and the errors are those of `for_path`.
    pub fn for_directory(alloc: Global, path: Path<'_>) -> Result<SourceId>
        ensures { ReadsFolder result seen.Directory (path_bytes path.entry) }
    {
        let source = at_path(alloc, path, SourceKind::Directory)?;
        Ok(source)
    }
}

#[tactic(auto, unfolding(crate::specs::FileUrl::source_at))]
fn at_path(alloc: Global, path: Path<'_>, kind: SourceKind) -> Result<SourceId>
    ensures { ReadsFolder result (kind_of kind) (path_bytes path.entry) }
{
    let path = path.as_os_str();
    if !is_rooted(path) {
        return Err(Error::parse(format!(in alloc; "invalid path url `{path}`")));
    }
    let text = file_url_text(alloc, path)?;
    let url = parse_url(alloc, text.as_str(), path.len())?;
    Ok(SourceId::from_parts(alloc, url, kind, None)?)
}

fn is_rooted(path: &str) -> bool
    ensures { result ≡ begins_with_slash path.now }
{
    path.starts_with('/')
}

// The `file` URL of an absolute path.
fn file_url_text(alloc: Global, path: &str) -> Result<String>
    ensures ok { IfOk result (λ text. string_bytes text ≡ file_url_of (path_parts path.now)) }
    ensures err { IsOkUnless result Memory }
{
    let mut text = String::from_str(alloc, "file://")?;
    push_parts(path, &mut text)?;
    if text.as_str() == "file://" {
        text.push_str("/")?;
    }
    Ok(text)
}

// Adds the parts that are kept, each after a `/`.
fn push_parts(path: &str, text: &mut String) -> std::result::Result<(), AllocError>
    ensures { OnOk result
        (string_bytes text.new ≡ string_bytes text.old ++ path_parts_text path.now) }
{
    let mut rest = path;
    while let Some((part, more)) = rest.split_once('/') {
        push_part(part, text)?;
        rest = more;
    }
    push_part(rest, text)?;
    Ok(())
}

// Adds a part after a `/`, if it is neither empty nor `.`.
fn push_part(part: &str, text: &mut String) -> std::result::Result<(), AllocError>
    ensures { OnOk result (string_bytes text.new ≡ string_bytes text.old ++ kept_text part.now) }
{
    if part.is_empty() || part == "." {
        return Ok(());
    }
    text.push_str("/")?;
    utf8_percent_encode(part, ESCAPED).append_to(text)?;
    Ok(())
}
