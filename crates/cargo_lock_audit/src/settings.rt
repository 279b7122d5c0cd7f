//! What an audit goes by, besides packages and advisories.

ghost use Rattle.std.specs.Prelude.{◌≡◌};
ghost use Rattle.cargo_lock_parts.specs.Error.{IsLong, IsParseOrMemory, ReadsUrls};
ghost use Rattle.cargo_lock_audit.specs.Settings.{registry_of};

use cargo_lock_parts::error::{Error, Result};
use cargo_lock_parts::package::SourceId;
use std::alloc::Global;

/// What an audit goes by, besides packages and advisories.
#[derive(Drop)]
pub struct Settings {
    /// The registries whose packages count as those of crates.io, such as a mirror of it.
    pub registries: Vec<SourceId>,

    /// The ids and aliases of the advisories that are ignored.
    pub ignored: Vec<String>,

    /// The kinds of informational advisories that count as much as a vulnerability; `warnings`
    /// names all kinds.
    pub denied: Vec<String>,
}

/// The registry that a text names as a lockfile has its sources: `registry` or `sparse`, then `+`
/// and a URL. Any other text is `Parse`, and so is one with a URL of 4 GB or more. The other error
/// is `Memory`.
///
/// ```
/// let mirror = registry_of(alloc, "sparse+https://mirror.example/index/")?;
/// ```
pub fn registry_of(alloc: Global, text: &str) -> Result<SourceId>
    ensures { ReadsUrls (IsLong text.now) (λ source. source) result (registry_of text.now) }
{
    let source = SourceId::from_str(alloc, text)?;
    if source.is_registry() {
        Ok(source)
    } else {
        Err(no_registry(alloc))
    }
}

// The error for the source of anything else.
fn no_registry(alloc: Global) -> Error
    ensures { IsParseOrMemory result }
{
    Error::parse(String::from_str(alloc, "no registry"))
}
