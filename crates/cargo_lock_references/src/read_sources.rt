//! The sources of texts, with each text read once.

ghost use Rattle.std.specs.Prelude.{◌≡◌, Some, IfOk, IfSome, string_bytes};
ghost use Rattle.cargo_lock_parts.specs.Error.{IsLong, ReadsUrls, TellsLength};
ghost use Rattle.cargo_lock_parts.specs.SourceReading.{source_of};
ghost use Rattle.cargo_lock_references.specs.ReadSources.{AreRead};

use cargo_lock_parts::error::Result;
use cargo_lock_parts::package::SourceId;
use std::alloc::{AllocError, Global};
use std::collections::BTreeMap;
use std::marker::Model;

// The sources by their texts.
type Sources = BTreeMap<String, SourceId>;

/// The sources of the texts that were read so far. If a text is read again, its source is shared.
#[derive(Drop)]
pub struct ReadSources {
    sources: Sources,
}

impl Model for ReadSources {
    ghost use Rattle.cargo_lock_references.specs.ReadSources.{AreRead};

    ghost Value = { Unit {0} };

    ghost view = { λ _. tt };

    ghost invariant = { λ r. AreRead r.sources };
}

impl ReadSources {
    /// No text was read so far.
    pub fn new(alloc: Global) -> ReadSources {
        ReadSources {
            sources: no_sources(alloc),
        }
    }

    /// The source that a text reads as, from `SourceId::from_url` if the text is new, with the same
    /// errors.
    pub fn read(&mut self, alloc: Global, text: &str) -> Result<SourceId>
        ensures read { ReadsUrls
            (IsLong text.now) (λ source. source) result (source_of text.now) }
        ensures told { TellsLength (IsLong text.now) result }
    {
        if let Some(source) = known_source(&self.sources, text)? {
            return Ok(source);
        }
        let source = SourceId::from_url(alloc, text)?;
        put(alloc, &mut self.sources, text, &source)?;
        Ok(source)
    }
}

fn no_sources(alloc: Global) -> Sources
    ensures { AreRead result }
{
    BTreeMap::new(alloc)
}

// The source that the map has for a text, if it has one.
fn known_source(sources: &Sources, text: &str) -> std::result::Result<Option<SourceId>, AllocError>
    ensures { AreRead sources.now → IfOk result
        (λ found. IfSome found (λ source. source_of text.now ≡ Some source)) }
{
    match sources.get(text) {
        Some(source) => Ok(Some(source.clone()?)),
        None => Ok(None),
    }
}

// Adds the source of a text.
fn put(
    alloc: Global,
    sources: &mut Sources,
    text: &str,
    source: &SourceId,
) -> std::result::Result<(), AllocError>
    ensures { source_of text.now ≡ Some source.now → AreRead sources.old → AreRead sources.new }
{
    let key = String::from_str(alloc, text)?;
    sources.insert(key, source.clone()?)?;
    Ok(())
}
