//! Reading the text of a source.

ghost use Rattle.std.specs.Prelude.{◌≡◌, ◌≤◌, ◌⊎◌, [], Some, None, IfOk, IsOkUnless, codes};
ghost use Rattle.std.specs.Prelude.{unwrap_or, if◌then◌else◌};
ghost use Rattle.url.specs.Head.{without_tail};
ghost use Rattle.cargo_lock_parts.specs.declared.error.Error.TheVariants.{Memory};
ghost use Rattle.cargo_lock_parts.specs.Error.{IsLong, IsParseOrMemory, IsTooLong, ReadsUrls};
ghost use Rattle.cargo_lock_parts.specs.Error.{TellsLength};
ghost use Rattle.cargo_lock_parts.specs.Source.{kind_of, git_reference_of};
ghost use Rattle.cargo_lock_parts.specs.SourceReading as spec;
ghost use Rattle.cargo_lock_parts.specs.SourceReading.{git_reference_named};

use crate::error::{Error, Result, SHORT_LENGTH, TOO_LONG};
use crate::package::source::{GitReference, SourceId, SourceKind};
use std::alloc::Global;
use url::{ParseError, Url};

impl SourceId {
    ghost use Rattle.cargo_lock_parts.specs.SourceReading.{source_of};

    /// Reads the text of a source as a lockfile has it, plain or escaped: `git`, `registry`,
    /// `sparse` or `path`, then `+` and a URL.
    ///
    /// A registry gets the precise text `locked`. For a git source, the precise text is the
    /// fragment, and the reference is the last pair of the query whose key is `branch`, `ref`,
    /// `rev` or `tag`.
    ///
    /// Any other text is `Parse`, which says which part is refused. So is a text with a URL of 4 GB
    /// or more, which no text shorter than 2^28 bytes has. The other error is `Memory`.
    ///
    /// ```
    /// let url = "git+https://example.org/lib?branch=main#92dd31f";
    /// let source = SourceId::from_url(alloc, url)?;
    /// if let Some(commit) = source.precise() {
    ///     write!(lines, "{commit}\n")?;
    /// }
    /// ```
    #[tactic(auto, unfolding(crate::specs::SourceReading::source_of))]
    pub fn from_url(alloc: Global, text: &str) -> Result<SourceId>
        ensures read { ReadsUrls
            (IsLong text.now) (λ source. source) result (source_of text.now) }
        ensures told { TellsLength (IsLong text.now) result }
    {
        let Some((word, url)) = text.split_once('+') else {
            return Err(invalid_source(alloc, text));
        };
        let Some(protocol) = protocol_of(word) else {
            return Err(unsupported_protocol(alloc, word, text));
        };
        let url = parse_url(alloc, url, text.len())?;
        let source = source_by(alloc, protocol, url)?;
        Ok(source)
    }

    /// Reads a text as `from_url` does, with the same errors.
    pub fn from_str(alloc: Global, text: &str) -> Result<SourceId>
        ensures read { ReadsUrls
            (IsLong text.now) (λ source. source) result (source_of text.now) }
        ensures told { TellsLength (IsLong text.now) result }
    {
        SourceId::from_url(alloc, text)
    }
}

// How a source is fetched, which the prefix before the first `+` names.
#[derive(Clone, Copy)]
enum Protocol {
    Git,
    Registry,
    Sparse,
    Path,
}

// The protocol that this prefix names.
fn protocol_of(word: &str) -> Option<Protocol>
    ensures { result ≡ spec.protocol_of word.now }
{
    match word {
        "git" => Some(Protocol::Git),
        "registry" => Some(Protocol::Registry),
        "sparse" => Some(Protocol::Sparse),
        "path" => Some(Protocol::Path),
        _ => None,
    }
}

// The error for a text without a `+`.
fn invalid_source(alloc: Global, text: &str) -> Error
    ensures kind { IsParseOrMemory result }
    ensures told { ¬ IsTooLong result }
{
    Error::parse(format!(in alloc; "invalid source `{text}`"))
}

// The error for a text whose part before the first `+` names no protocol.
fn unsupported_protocol(alloc: Global, word: &str, text: &str) -> Error
    ensures kind { IsParseOrMemory result }
    ensures told { ¬ IsTooLong result }
{
    Error::parse(format!(in alloc; "unsupported source protocol: `{word}` from `{text}`"))
}

// Reads the URL in a text of `size` bytes.
pub(super) fn parse_url(alloc: Global, url: &str, size: usize) -> Result<Url>
    ensures read { ReadsUrls (268435456 ≤ size) (λ url. url) result (spec.url_of url.now) }
    ensures told { TellsLength (268435456 ≤ size) result }
{
    match Url::parse(alloc, url) {
        Ok(url) => Ok(url),
        Err(ParseError::OutOfMemory) => Err(Error::Memory),
        Err(ParseError::Overflow) => Err(too_long(alloc, size)),
        Err(fault) => Err(invalid_url(alloc, url, &fault)),
    }
}

// The error for a text that is no URL, which says why.
fn invalid_url(alloc: Global, url: &str, fault: &ParseError) -> Error
    ensures kind { IsParseOrMemory result }
    ensures told { ¬ IsTooLong result }
{
    match fault.to_string(alloc) {
        Ok(fault) => Error::parse(format!(in alloc; "invalid url `{url}`: {fault}")),
        Err(_) => Error::Memory,
    }
}

// The error for a URL of 4 GB or more, in a text of `size` bytes. Short texts have no such URL, so
// for them it is `Memory`.
fn too_long(alloc: Global, size: usize) -> Error
    ensures { (result ≡ Memory) ⊎ (IsTooLong result × (268435456 ≤ size)) }
{
    if size < SHORT_LENGTH {
        return Error::Memory;
    }
    Error::parse(String::from_str(alloc, TOO_LONG))
}

fn source_by(alloc: Global, protocol: Protocol, url: Url) -> Result<SourceId>
    ensures ok { IfOk result (λ source. source ≡ spec.source_by protocol url) }
    ensures err { IsOkUnless result Memory }
{
    match protocol {
        Protocol::Git => git_source(alloc, url),
        Protocol::Registry => locked_source(alloc, url, SourceKind::Registry),
        Protocol::Sparse => locked_source(alloc, url, SourceKind::SparseRegistry),
        Protocol::Path => Ok(SourceId::from_parts(alloc, url, SourceKind::Path, None)?),
    }
}

// A registry as a lockfile has it.
fn locked_source(alloc: Global, url: Url, kind: SourceKind) -> Result<SourceId>
    ensures ok { IfOk result
        (λ source. source ≡ spec.plain_source (kind_of kind) (Some (codes "locked")) url) }
    ensures err { IsOkUnless result Memory }
{
    let precise = Some(String::from_str(alloc, "locked")?);
    Ok(SourceId::from_parts(alloc, url, kind, precise)?)
}

fn git_source(alloc: Global, url: Url) -> Result<SourceId>
    ensures ok { IfOk result (λ source. source ≡ spec.git_source url) }
    ensures err { IsOkUnless result Memory }
{
    let reference = git_reference_in(alloc, &url)?;
    let precise = match url.fragment() {
        Some(fragment) => Some(String::from_str(alloc, fragment)?),
        None => None,
    };
    let url = without_tail(alloc, url)?;
    Ok(SourceId::from_parts(alloc, url, SourceKind::Git(reference), precise)?)
}

// The reference that the last pair of the query that names one gives, or the default branch.
fn git_reference_in(alloc: Global, url: &Url) -> Result<GitReference>
    ensures ok { IfOk result (λ reference. git_reference_of reference
        ≡ spec.git_reference_in (spec.form_pairs (unwrap_or url.now.query []))) }
    ensures err { IsOkUnless result Memory }
{
    let mut reference = GitReference::DefaultBranch;
    for pair in url.query_pairs() {
        let (key, value) = pair?;
        reference = git_reference_by(alloc, key.as_str(), value.as_str(), reference)?;
    }
    Ok(reference)
}

// The reference that a pair names, or `other` if its key names none.
fn git_reference_by(
    alloc: Global,
    key: &str,
    value: &str,
    other: GitReference,
) -> Result<GitReference>
    ensures ok { IfOk result
        (λ reference. git_reference_of reference
        ≡ unwrap_or (git_reference_named (key.now, value.now)) (git_reference_of other)) }
    ensures err { IsOkUnless result Memory }
{
    match key {
        "branch" | "ref" => Ok(GitReference::Branch(String::from_str(alloc, value)?)),
        "rev" => Ok(GitReference::Rev(String::from_str(alloc, value)?)),
        "tag" => Ok(GitReference::Tag(String::from_str(alloc, value)?)),
        _ => Ok(other),
    }
}

// The URL without its query and fragment.
fn without_tail(alloc: Global, mut url: Url) -> Result<Url>
    ensures ok { IfOk result (λ bare. bare ≡ without_tail url) }
    ensures err { IsOkUnless result Memory }
{
    // A URL that loses a part stays below 4 GB.
    if url.set_fragment(None).is_err() || url.set_query(None).is_err() {
        return Err(Error::Memory);
    }
    Ok(url)
}
