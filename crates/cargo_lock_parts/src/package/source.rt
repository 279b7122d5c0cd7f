//! Package sources.

ghost use Rattle.std.specs.Prelude.{◌≡◌, None, IfOk, IsOkUnless, option_copied, option_map};
ghost use Rattle.std.specs.Prelude.{string_bytes};
ghost use Rattle.std.specs.Option.{option_cmp};
ghost use Rattle.std.specs.Ordering.{nat_cmp};
ghost use Rattle.std.specs.Cmp.Lexicographic.{slice_cmp};
ghost use Rattle.cargo_lock_parts.specs.Source as spec;
ghost use Rattle.cargo_lock_parts.specs.Source.{kind_of, git_reference_of};
ghost use Rattle.cargo_lock_parts.specs.declared.error.Error.TheVariants.{Memory};

mod file_url;
mod parse;
mod rank;
mod reference;
mod serialization;
mod shown;
mod text;

use crate::error::Result;
pub use crate::package::source::reference::{GitReference, PrettyRef};
pub use crate::package::source::text::SourceIdAsUrl;
use std::alloc::{AllocError, Global};
use std::cmp::Ordering;
use std::fmt;
use std::hash::{Hash, Hasher};
use std::marker::Model;
use std::sync::Arc;
use url::Url;

/// The index of crates.io, as a git repository.
pub const CRATES_IO_INDEX: &str = "https://github.com/rust-lang/crates.io-index";

/// The sparse index of crates.io, as the text of a source.
pub const CRATES_IO_SPARSE_INDEX: &str = "sparse+https://index.crates.io/";

/// The kind of a source.
#[derive(Debug, PartialEq, Eq, PartialOrd, Ord, Hash, Drop)]
pub enum SourceKind {
    /// A git repository.
    Git(GitReference),

    /// A folder on this machine.
    Path,

    /// A remote registry, whose index is a git repository.
    Registry,

    /// A remote registry with a sparse index, which is fetched file by file over HTTP.
    SparseRegistry,

    /// A registry on this machine.
    LocalRegistry,

    /// A folder of packages on this machine.
    Directory,
}

/// Where a package comes from: a URL, a kind, and optionally a precise text. A source that was read
/// from its text has a precise text if it is a registry, which is then `locked`, or a git source
/// with a fragment, which is mostly a commit. `with_precise` sets any text.
///
/// Two sources are equal if their URLs, names and kinds are and, for git, their precise texts. So a
/// registry that was read from a lockfile equals one that a call made.
///
/// A clone shares the parts with its original, so it only increments a count.
#[derive(Drop)]
pub struct SourceId {
    parts: Arc<SourceParts>,
}

impl Model for SourceId {
    ghost use Rattle.std.specs.Arc.{arc_value};
    ghost use Rattle.cargo_lock_parts.specs.Source.{Source};

    ghost Value = { Source };

    ghost view = { λ s. arc_value s.parts };
}

// The parts of a source, which its clones share.
#[derive(Drop)]
struct SourceParts {
    url: Url,
    kind: SourceKind,
    precise: Option<String>,
    name: Option<String>,
}

impl Model for SourceParts {
    ghost use Rattle.std.specs.Prelude.{option_map, string_bytes};
    ghost use Rattle.cargo_lock_parts.specs.Source.{Source, kind_of};

    ghost Value = { Source };

    ghost view = { λ s. record {
      url = s.url;
      kind = kind_of s.kind;
      precise = option_map string_bytes s.precise;
      name = option_map string_bytes s.name;
    } };
}

impl SourceId {
    ghost use Rattle.cargo_lock_parts.specs.Source.{Source, Git, Registry, git_reference};
    ghost use Rattle.cargo_lock_parts.specs.SourceReading.{plain_source};

    /// The URL. That of a git source that was read has no query and no fragment.
    pub fn url(&self) -> &Url
        ensures { result.now ≡ self.now.url }
    {
        &self.parts.url
    }

    /// The kind.
    pub fn kind(&self) -> &SourceKind
        ensures { kind_of result.now ≡ self.now.kind }
    {
        &self.parts.kind
    }

    /// The precise text, if there is one. If the source was read from its text: the fragment of a
    /// git source, which is mostly a commit, or `locked` for a registry.
    pub fn precise(&self) -> Option<&str>
        ensures { option_copied result ≡ self.now.precise }
    {
        match &self.parts.precise {
            Some(text) => Some(text.as_str()),
            None => None,
        }
    }

    /// The branch, tag or commit that is checked out, if the source is a git repository.
    pub fn git_reference(&self) -> Option<&GitReference>
        ensures { option_map (λ reference. git_reference_of reference.now) result
            ≡ git_reference self.now.kind }
    {
        match self.kind() {
            SourceKind::Git(reference) => Some(reference),
            _ => None,
        }
    }

    /// A git repository at this URL, with no precise text. The one error is `Memory`.
    ///
    /// ```
    /// let tag = GitReference::Tag(String::from_str(alloc, "v1.0")?);
    /// let tagged = SourceId::for_git(source.url(), tag)?;
    /// ```
    pub fn for_git(url: &Url, reference: GitReference) -> Result<SourceId>
        ensures ok { IfOk result
            (λ source. source ≡ plain_source (Git (git_reference_of reference)) None url.now) }
        ensures err { IsOkUnless result Memory }
    {
        SourceId::of(url, SourceKind::Git(reference))
    }

    /// A remote registry whose index is the git repository at this URL, with no precise text. The
    /// one error is `Memory`.
    pub fn for_registry(url: &Url) -> Result<SourceId>
        ensures ok { IfOk result (λ source. source ≡ plain_source Registry None url.now) }
        ensures err { IsOkUnless result Memory }
    {
        SourceId::of(url, SourceKind::Registry)
    }

    /// This source with this precise text, or with none, in place of its own. The one error is
    /// `Memory`.
    pub fn with_precise(&self, precise: Option<String>) -> Result<SourceId>
        ensures ok { IfOk result
            (λ source. source ≡ record self.now { precise = option_map string_bytes precise }) }
        ensures err { IsOkUnless result Memory }
    {
        let alloc = allocator_of(self.url())?;
        let parts = SourceParts {
            url: self.url().clone()?,
            kind: self.kind().clone()?,
            precise,
            name: clone_text(&self.parts.name)?,
        };
        Ok(SourceId {
            parts: Arc::new(alloc, parts)?,
        })
    }

    // A source of these parts, with no registry name.
    fn from_parts(
        alloc: Global,
        url: Url,
        kind: SourceKind,
        precise: Option<String>,
    ) -> std::result::Result<SourceId, AllocError>
        ensures { IfOk result
            (λ source. source ≡ plain_source (kind_of kind) (option_map string_bytes precise) url) }
    {
        let parts = SourceParts {
            url,
            kind,
            precise,
            name: None,
        };
        Ok(SourceId {
            parts: Arc::new(alloc, parts)?,
        })
    }

    // A source of this kind, with no precise text.
    fn of(url: &Url, kind: SourceKind) -> Result<SourceId>
        ensures ok { IfOk result (λ source. source ≡ plain_source (kind_of kind) None url.now) }
        ensures err { IsOkUnless result Memory }
    {
        let alloc = allocator_of(url)?;
        Ok(SourceId::from_parts(alloc, url.clone()?, kind, None)?)
    }
}

impl SourceId {
    ghost use Rattle.cargo_lock_parts.specs.SourceKey.{precise_if_git};

    // The name of the registry, which no public call sets.
    fn name(&self) -> Option<&str>
        ensures { option_copied result ≡ self.now.name }
    {
        match &self.parts.name {
            Some(text) => Some(text.as_str()),
            None => None,
        }
    }

    fn precise_if_git(&self) -> Option<&str>
        ensures { option_copied result ≡ precise_if_git self.now.kind self.now.precise }
    {
        match self.kind() {
            SourceKind::Git(_) => self.precise(),
            _ => None,
        }
    }
}

impl SourceKind {
    ghost use Rattle.cargo_lock_parts.specs.SourceKey.{kind_number, git_reference_text};

    // The place of the kind in the order of sources.
    fn kind_number(&self) -> u8
        ensures { result ≡ kind_number (kind_of self.now) }
    {
        match self {
            SourceKind::Git(GitReference::DefaultBranch) => 0,
            SourceKind::Git(GitReference::Tag(_)) => 1,
            SourceKind::Git(GitReference::Branch(_)) => 2,
            SourceKind::Git(GitReference::Rev(_)) => 3,
            SourceKind::Path => 4,
            SourceKind::Registry => 5,
            SourceKind::SparseRegistry => 6,
            SourceKind::LocalRegistry => 7,
            SourceKind::Directory => 8,
        }
    }

    // The text of the reference, empty where there is none.
    fn git_reference_text(&self) -> &str
        ensures { result.now ≡ git_reference_text (kind_of self.now) }
    {
        match self {
            SourceKind::Git(GitReference::Tag(text)) => text.as_str(),
            SourceKind::Git(GitReference::Branch(text)) => text.as_str(),
            SourceKind::Git(GitReference::Rev(text)) => text.as_str(),
            _ => "",
        }
    }
}

impl Clone for SourceKind {
    ghost use Rattle.std.specs.Prelude.{◌≡◌};
    ghost use Rattle.cargo_lock_parts.specs.Source.{kind_of};

    ghost is_clone = { λ kind copy. kind_of copy ≡ kind_of kind };

    fn clone(&self) -> std::result::Result<SourceKind, AllocError> {
        match self {
            SourceKind::Git(reference) => Ok(SourceKind::Git(reference.clone()?)),
            SourceKind::Path => Ok(SourceKind::Path),
            SourceKind::Registry => Ok(SourceKind::Registry),
            SourceKind::SparseRegistry => Ok(SourceKind::SparseRegistry),
            SourceKind::LocalRegistry => Ok(SourceKind::LocalRegistry),
            SourceKind::Directory => Ok(SourceKind::Directory),
        }
    }
}

fn clone_text(text: &Option<String>) -> std::result::Result<Option<String>, AllocError>
    ensures { IfOk result
        (λ copy. option_map string_bytes copy ≡ option_map string_bytes text.now) }
{
    match text {
        Some(text) => Ok(Some(text.clone()?)),
        None => Ok(None),
    }
}

// The allocator that holds the text of a URL.
fn allocator_of(url: &Url) -> std::result::Result<Global, AllocError> {
    let text = String::from(url.clone()?);
    Ok(*text.allocator())
}

impl Clone for SourceId {
    ghost is_clone = { λ source copy. copy ≡ source };

    fn clone(&self) -> std::result::Result<SourceId, AllocError> {
        Ok(SourceId {
            parts: self.parts.clone()?,
        })
    }
}

impl fmt::Debug for SourceId {
    fn fmt<W: fmt::Write>(&self, f: &mut fmt::Formatter<W>) -> fmt::Result {
        f.debug_struct("SourceId")
            .field("url", self.url())
            .field("kind", self.kind())
            .field("precise", &self.parts.precise)
            .field("name", &self.parts.name)
            .finish()
    }
}

impl PartialEq for SourceId {
    ghost use Rattle.std.specs.Cmp.{partial_equiv_from_equiv, eq_by_cmp_equiv};
    ghost use Rattle.cargo_lock_parts.specs.SourceKey.{is_same_source};
    ghost use Rattle.cargo_lock_parts.specs.SourceLaws.{source_total};

    ghost eq = { is_same_source };

    ghost laws = { partial_equiv_from_equiv (eq_by_cmp_equiv source_total) };

    fn eq(&self, other: &SourceId) -> bool {
        self.cmp(other) == Ordering::Equal
    }
}

impl Eq for SourceId {
    ghost use Rattle.std.specs.Cmp.{eq_by_cmp_equiv};
    ghost use Rattle.cargo_lock_parts.specs.SourceLaws.{source_total};

    ghost laws = { eq_by_cmp_equiv source_total };
}

impl PartialOrd for SourceId {
    ghost use Rattle.std.specs.Ordering.{as_partial_cmp};
    ghost use Rattle.std.specs.Cmp.{partial_order_from_total};
    ghost use Rattle.cargo_lock_parts.specs.SourceKey.{source_cmp};
    ghost use Rattle.cargo_lock_parts.specs.SourceLaws.{source_total};

    ghost partial_cmp = { as_partial_cmp source_cmp };

    ghost laws = { partial_order_from_total source_total };

    fn partial_cmp(&self, other: &SourceId) -> Option<Ordering> {
        Some(self.cmp(other))
    }
}

impl Ord for SourceId {
    ghost use Rattle.std.specs.Prelude.{refl};
    ghost use Rattle.cargo_lock_parts.specs.SourceKey.{source_cmp};
    ghost use Rattle.cargo_lock_parts.specs.SourceLaws.{source_total};

    ghost cmp = { source_cmp };

    ghost total = { source_total };

    ghost matches_partial_cmp = { λ a b. refl };

    ghost matches_eq = { λ a b. refl };

    fn cmp(&self, other: &SourceId) -> Ordering {
        self.url()
            .cmp(other.url())
            .then_with(|| self.cmp_names(other))
            .then_with(|| self.kind().kind_number().cmp(&other.kind().kind_number()))
            .then_with(|| self.cmp_git_references(other))
            .then_with(|| self.cmp_precise(other))
    }
}

impl SourceId {
    ghost use Rattle.cargo_lock_parts.specs.SourceKey.{precise_if_git, git_reference_text};

    fn cmp_names(&self, other: &SourceId) -> Ordering
        ensures { result ≡ option_cmp (slice_cmp nat_cmp) self.now.name other.now.name }
    {
        cmp_texts(self.name(), other.name())
    }

    fn cmp_git_references(&self, other: &SourceId) -> Ordering
        ensures { result
            ≡ slice_cmp nat_cmp (git_reference_text self.now.kind)
            (git_reference_text other.now.kind) }
    {
        let text = self.kind().git_reference_text();
        text.cmp(other.kind().git_reference_text())
    }

    fn cmp_precise(&self, other: &SourceId) -> Ordering
        ensures { result ≡ option_cmp (slice_cmp nat_cmp)
            (precise_if_git self.now.kind self.now.precise)
            (precise_if_git other.now.kind other.now.precise) }
    {
        cmp_texts(self.precise_if_git(), other.precise_if_git())
    }
}

/// Whether there is a source, and it is a registry.
///
/// ```
/// let is_checked = is_of_registry(&package.source) && package.checksum.is_some();
/// ```
pub fn is_of_registry(source: &Option<SourceId>) -> bool
    ensures { result ≡ spec.is_of_registry source.now }
{
    match source {
        Some(source) => source.is_registry(),
        None => false,
    }
}

// An absent text is before a present one.
fn cmp_texts(a: Option<&str>, b: Option<&str>) -> Ordering
    ensures { result
        ≡ option_cmp (slice_cmp nat_cmp) (option_copied a.entry) (option_copied b.entry) }
{
    a.cmp(&b)
}

impl Hash for SourceId {
    ghost use Rattle.cargo_lock_parts.specs.SourceKey.{key_of, key_hash};
    ghost use Rattle.cargo_lock_parts.specs.SourceLaws.{source_alike};

    ghost hash_input = { λ source. key_hash (key_of source) };

    ghost respects_eq = { source_alike };

    fn hash<H: Hasher>(&self, state: &mut H) {
        self.url().hash(state);
        self.name().unwrap_or("").hash(state);
        self.kind().kind_number().hash(state);
        self.kind().git_reference_text().hash(state);
        self.precise_if_git().unwrap_or("").hash(state);
    }
}
