//! Which sources Cargo takes for crates.io.

ghost use Rattle.std.specs.Prelude.{◌≡◌, IfOk, bytes_eq, option_copied};
ghost use Rattle.cargo_lock_parts.specs.Source.{kind_of};
ghost use Rattle.cargo_lock_order.specs.Canonical.{canonical};
ghost use Rattle.cargo_lock_order.specs.Canonical as spec;

use crate::canonical::canonical;
use cargo_lock_parts::package::SourceId;
use cargo_lock_parts::package::source::SourceKind;
use std::alloc::{AllocError, Global};
use url::Url;

/// Whether Cargo takes the source for crates.io: it is a registry whose URL is that of the index of
/// crates.io, in git or sparse, as Cargo compares URLs. So `http`, `git` and `ssh` at github.com
/// count as `https`, and so do a port 443, other cases of letters, a `/` or a `.git` at the end;
/// a user name, a query or a fragment do not. `SourceId::is_default_registry` is true only of the
/// URLs as Cargo writes them.
///
/// The rule was asked of Cargo 1.95.0, which builds from a lockfile with such a source and leaves it
/// as it is.
///
/// # Errors
///
/// Fails when out of memory.
///
/// ```
/// let url = "registry+git://github.com/Rust-Lang/crates.io-index.git";
/// let source = SourceId::from_url(alloc, url)?;
/// let is_it = is_canonically_crates_io(alloc, &source)?;
/// ```
pub fn is_canonically_crates_io(alloc: Global, source: &SourceId) -> Result<bool, AllocError>
    ensures { IfOk result (λ is_it. is_it ≡ spec.is_canonically_crates_io source.now) }
{
    if source.is_default_registry() {
        return Ok(true);
    }
    match index_of(source.kind()) {
        Some(index) => is_canonically(alloc, source.url(), index),
        None => Ok(false),
    }
}

// Whether this is the text of the URL as Cargo compares it.
fn is_canonically(alloc: Global, url: &Url, text: &str) -> Result<bool, AllocError>
    ensures { IfOk result (λ is_it. is_it ≡ bytes_eq (canonical url.now) text.now) }
{
    let found = canonical(alloc, url)?;
    Ok(found.as_slice() == text.as_bytes())
}

// The URL of crates.io among the sources of this kind.
fn index_of(kind: &SourceKind) -> Option<&'static str>
    ensures { option_copied result ≡ spec.index_of_crates_io (kind_of kind.now) }
{
    match kind {
        SourceKind::Registry => Some("https://github.com/rust-lang/crates.io-index"),
        SourceKind::SparseRegistry => Some("https://index.crates.io/"),
        _ => None,
    }
}
