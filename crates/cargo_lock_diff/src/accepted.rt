//! The sources that a caller accepts for packages that move.

ghost use Rattle.std.specs.Prelude.{◌≡◌, IfOk, Some, option_map};
ghost use Rattle.std.specs.List.{list_any};
ghost use Rattle.cargo_lock_parts.specs.Error.{IsShort};
ghost use Rattle.cargo_lock_parts.specs.SourceReading.{source_of, url_of};
ghost use Rattle.cargo_lock_diff.specs.Accepted.{accepted_by};
ghost use Rattle.cargo_lock_diff.specs.Accepted as spec;

use crate::home::is_one_url;
use cargo_lock_parts::error::Error;
use cargo_lock_parts::package::SourceId;
use std::alloc::{AllocError, Global};
use url::{ParseError, Url};

/// A source to which packages may move without an alarm.
#[derive(Drop)]
pub enum Accepted {
    /// None: the packages are in a folder.
    Path,

    /// The source at this URL, whatever its kind is. URLs compare as Cargo compares those of
    /// packages.
    At(Url),
}

impl Accepted {
    /// What a word names: `path`, a URL, or a source as a lockfile has it, of which the URL counts
    /// without what it asks of a repository. `None` if it names nothing.
    ///
    /// # Errors
    ///
    /// Fails when out of memory.
    ///
    /// ```
    /// let accepted = Accepted::parse(alloc, "https://github.com/rust-lang/log")?;
    /// ```
    pub fn parse(alloc: Global, word: &str) -> Result<Option<Accepted>, AllocError>
        ensures { IfOk result (λ found. IsShort word.now → found ≡ accepted_by word.now) }
    {
        if word == "path" {
            return Ok(Some(Accepted::Path));
        }
        match named_url(alloc, word)? {
            Some(url) => Ok(Some(Accepted::At(url))),
            None => Ok(None),
        }
    }

    /// Whether a source is accepted.
    ///
    /// # Errors
    ///
    /// Fails when out of memory.
    pub fn accepts(&self, alloc: Global, source: &Option<SourceId>) -> Result<bool, AllocError>
        ensures { IfOk result (λ is. is ≡ spec.accepts self.now source.now) }
    {
        match (self, source) {
            (Accepted::Path, None) => Ok(true),
            (Accepted::At(url), Some(source)) => is_one_url(alloc, url, source.url()),
            _ => Ok(false),
        }
    }
}

// The URL of the source that a word is, or else the URL that it is.
fn named_url(alloc: Global, word: &str) -> Result<Option<Url>, AllocError>
    ensures { IfOk result (λ found. IsShort word.now
        → found ≡ spec.url_or (source_of word.now) (url_of word.now)) }
{
    match source_url(alloc, word)? {
        Some(url) => Ok(Some(url)),
        None => url_in(alloc, word),
    }
}

// The URL of the source that a word is.
fn source_url(alloc: Global, word: &str) -> Result<Option<Url>, AllocError>
    ensures { IfOk result (λ found. IsShort word.now
        → found ≡ option_map (λ s. s.url) (source_of word.now)) }
{
    match SourceId::from_url(alloc, word) {
        Ok(source) => copy_of_url(&source),
        Err(Error::Memory) => Err(AllocError),
        Err(_) => Ok(None),
    }
}

fn copy_of_url(source: &SourceId) -> Result<Option<Url>, AllocError>
    ensures { IfOk result (λ found. found ≡ Some source.now.url) }
{
    let url = source.url().clone()?;
    Ok(Some(url))
}

// The URL that a word is.
fn url_in(alloc: Global, word: &str) -> Result<Option<Url>, AllocError>
    ensures { IfOk result (λ found. found ≡ url_of word.now) }
{
    match Url::parse(alloc, word) {
        Ok(url) => Ok(Some(url)),
        Err(ParseError::OutOfMemory) | Err(ParseError::Overflow) => Err(AllocError),
        Err(_) => Ok(None),
    }
}

/// Whether one of some accepts a source. Fails when out of memory.
pub(crate) fn is_accepted(
    alloc: Global,
    accepted: &[Accepted],
    source: &Option<SourceId>,
) -> Result<bool, AllocError>
    ensures { IfOk result
        (λ is. is ≡ list_any (λ a. spec.accepts a source.now) accepted.now) }
{
    for one in accepted {
        if one.accepts(alloc, source)? {
            return Ok(true);
        }
    }
    Ok(false)
}
