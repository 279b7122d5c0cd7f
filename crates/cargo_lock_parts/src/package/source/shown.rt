//! The kind of a source, and how a registry is shown to people.

ghost use Rattle.std.specs.Prelude.{◌≡◌, Some, IfOk, IsOkUnless, true, string_bytes};
ghost use Rattle.cargo_lock_parts.specs.Source.{kind_of};
ghost use Rattle.cargo_lock_parts.specs.declared.error.Error.TheVariants.{Memory};

use crate::error::{Error, Result};
use crate::package::source::{CRATES_IO_INDEX, SourceId, SourceKind};
use std::alloc::Global;
use url::Url;

// The URL of the sparse index of crates.io.
const CRATES_IO_SPARSE_URL: &str = "https://index.crates.io/";

impl SourceKind {
    ghost use Rattle.cargo_lock_parts.specs.Source.{is_git};

    // Whether it is a repository.
    pub(super) fn is_git(&self) -> bool
        ensures { result ≡ is_git (kind_of self.now) }
    {
        matches!(self, SourceKind::Git(_))
    }
}

impl SourceId {
    ghost use Rattle.cargo_lock_parts.specs.Source.{is_path, is_git, is_registry};
    ghost use Rattle.cargo_lock_parts.specs.Source.{is_remote_registry};
    ghost use Rattle.cargo_lock_parts.specs.SourceShown.{is_default_registry};

    /// Whether the source is a folder on this machine, as a path dependency is.
    pub fn is_path(&self) -> bool
        ensures { result ≡ is_path self.now.kind }
    {
        matches!(self.kind(), SourceKind::Path)
    }

    /// Whether the source is a git repository.
    pub fn is_git(&self) -> bool
        ensures { result ≡ is_git self.now.kind }
    {
        self.kind().is_git()
    }

    /// Whether the source is a registry, remote or on this machine. A folder of packages is none.
    pub fn is_registry(&self) -> bool
        ensures { result ≡ is_registry self.now.kind }
    {
        matches!(
            self.kind(),
            SourceKind::Registry | SourceKind::SparseRegistry | SourceKind::LocalRegistry
        )
    }

    /// Whether the source is a registry that is fetched over the network.
    pub fn is_remote_registry(&self) -> bool
        ensures { result ≡ is_remote_registry self.now.kind }
    {
        matches!(
            self.kind(),
            SourceKind::Registry | SourceKind::SparseRegistry
        )
    }

    /// Whether the source is the registry of crates.io, by either of its two indexes. The URL is
    /// compared as text, and the precise text does not matter.
    pub fn is_default_registry(&self) -> bool
        ensures { result ≡ is_default_registry self.now }
    {
        match self.kind() {
            SourceKind::Registry => self.url().as_str() == CRATES_IO_INDEX,
            SourceKind::SparseRegistry => self.url().as_str() == CRATES_IO_SPARSE_URL,
            _ => false,
        }
    }
}

impl SourceId {
    ghost use Rattle.cargo_lock_parts.specs.SourceShown.{default_registry, is_default_registry};
    ghost use Rattle.cargo_lock_parts.specs.SourceShown.{index_text, registry_name_text};

    /// The registry of crates.io at `CRATES_IO_INDEX`, with no precise text.
    ///
    /// The one error is `Memory`.
    ///
    /// ```
    /// library.source = Some(SourceId::default_registry(alloc)?);
    /// ```
    pub fn default_registry(alloc: Global) -> Result<SourceId>
        ensures source { IfOk result (λ source. default_registry ≡ Some source) }
        ensures default { IfOk result (λ source. is_default_registry source ≡ true) }
        ensures err { IsOkUnless result Memory }
    {
        match Url::parse(alloc, CRATES_IO_INDEX) {
            Ok(url) => Ok(SourceId::from_parts(alloc, url, SourceKind::Registry, None)?),
            Err(_) => Err(Error::Memory),
        }
    }

    /// The index of the source for people: `crates.io index`, or for another source its URL in
    /// backquotes and ` index`.
    ///
    /// The one error is `Memory`.
    pub fn display_index(&self, alloc: Global) -> Result<String>
        ensures ok { IfOk result (λ text. string_bytes text ≡ index_text self.now) }
        ensures err { IsOkUnless result Memory }
    {
        if self.is_default_registry() {
            Ok(String::from_str(alloc, "crates.io index")?)
        } else {
            let url = self.url().as_str();
            Ok(format!(in alloc; "`{url}` index")?)
        }
    }

    /// The name of the registry: `crates.io`, or for another source its name if it has one, or else
    /// its URL.
    ///
    /// The one error is `Memory`.
    ///
    /// ```
    /// let registry = SourceId::default_registry(alloc)?;
    /// let name = registry.display_registry_name(alloc)?;
    /// ```
    pub fn display_registry_name(&self, alloc: Global) -> Result<String>
        ensures ok { IfOk result (λ text. string_bytes text ≡ registry_name_text self.now) }
        ensures err { IsOkUnless result Memory }
    {
        if self.is_default_registry() {
            Ok(String::from_str(alloc, "crates.io")?)
        } else {
            let name = self.name().unwrap_or(self.url().as_str());
            Ok(String::from_str(alloc, name)?)
        }
    }
}
