//! References: how a lockfile names the package that another one depends on.

ghost use Rattle.std.specs.Prelude.{◌≡◌, ◌≤◌, ◌+◌, ◌∷◌, [], IfOk, IfSome, IsOkUnless, MatchOption};
ghost use Rattle.std.specs.Prelude.{length, count_by, map, option_copied, option_map, true};
ghost use Rattle.std.specs.Char.{is_ascii_graphic};
ghost use Rattle.std.specs.List.{find, list_all};
ghost use Rattle.std.specs.Option.{option_cmp};
ghost use Rattle.std.specs.Str.Iter.{split_whitespace_rest};
ghost use Rattle.semver.specs.Identifiers.{parts_of};
ghost use Rattle.cargo_lock_parts.specs.declared.error.Error.TheVariants.{Memory};
ghost use Rattle.cargo_lock_parts.specs.Error.{IsLong, IsParseOrMemory, IsTooLong, Reads};
ghost use Rattle.cargo_lock_parts.specs.Error.{ReadsUrls, TellsLength};
ghost use Rattle.cargo_lock_parts.specs.Identity.{identity_of};
ghost use Rattle.cargo_lock_parts.specs.IdentityOrder.{version_cmp};
ghost use Rattle.cargo_lock_references.specs.Words.{text_words};
ghost use Rattle.cargo_lock_references.specs.Reference as spec;
ghost use Rattle.cargo_lock_references.specs.Records.{encoded_identity, is_escaped};
ghost use Rattle.cargo_lock_references.specs.ResolutionSearch.{fits, resolution_of};
ghost use Rattle.cargo_lock_references.specs.WrittenReference.{has_name_and_version, has_name};
ghost use Rattle.cargo_lock_references.specs.WrittenReference.{in_full, exactly_one};

use crate::borrowed::{EncodableDependencyRef, own_version};
use crate::index::Indexed;
use crate::package_version::same_version;
use crate::read_sources::ReadSources;
use crate::resolution::{dependency_by_first, own_dependency, require};
use crate::version::ResolveVersion;
use crate::{EncodablePackage, EncodableSourceId};
use cargo_lock_parts::dependency::Dependency;
use cargo_lock_parts::error::{Error, Result};
use cargo_lock_parts::package::{Name, Package, SourceId, Version};
use std::alloc::{AllocError, Global};
use std::cmp::Ordering;
use std::fmt;
use std::hash::{Hash, Hasher};
use std::marker::Model;
use std::ops::Deref;
use std::str::SplitWhitespace;

/// A reference as a lockfile writes it: the name of a package, and its version and its source if
/// the name alone does not identify the package. Two are equal if the three parts are.
#[derive(Debug, Drop)]
pub struct EncodableDependency {
    /// The name.
    pub name: Name,

    /// The version, if it is written.
    pub version: Option<Version>,

    /// The source, if it is written.
    pub source: Option<EncodableSourceId>,
}

impl Model for EncodableDependency {
    ghost use Rattle.std.specs.Prelude.{option_map};
    ghost use Rattle.semver.specs.Identifiers.{parts_of};
    ghost use Rattle.cargo_lock_references.specs.Reference.{Reference};

    ghost Value = { Reference };

    ghost view = { λ d.
        record { name = d.name; version = option_map parts_of d.version; source = d.source } };
}

impl EncodableDependency {
    ghost use Rattle.cargo_lock_references.specs.Reference.{ReadsReference, reference_of_words};
    ghost use Rattle.cargo_lock_references.specs.Reference.{reference_or_refusal};

    /// Reads one to three parts with white space between: a name, a version, and a source in round
    /// brackets, as `foo 1.0.0 (registry+https://github.com/rust-lang/crates.io-index)`. A source
    /// that was read is marked plain.
    ///
    /// The first part from the left that is refused decides the error: `Version` for the version,
    /// otherwise `Parse`. `Parse` also comes for a URL of 4 GB or more, which no text shorter than
    /// 2^28 bytes has. The other error is `Memory`.
    ///
    /// ```
    /// let reference = EncodableDependency::from_str(alloc, text)?;
    /// ```
    pub fn from_str(alloc: Global, text: &str) -> Result<EncodableDependency>
        ensures read { ReadsReference (IsLong text.now) result (reference_or_refusal text.now) }
        ensures told { TellsLength (IsLong text.now) result }
    {
        let mut sources = ReadSources::new(alloc);
        EncodableDependency::from_str_by(alloc, &mut sources, text)
    }

    /// Reads a text as `from_str` does, with the same errors. The text of a source that was read
    /// before by `sources` is not read again.
    pub fn from_str_by(
        alloc: Global,
        sources: &mut ReadSources,
        text: &str,
    ) -> Result<EncodableDependency>
        ensures read { ReadsReference (IsLong text.now) result (reference_or_refusal text.now) }
        ensures told { TellsLength (IsLong text.now) result }
    {
        EncodableDependency::read(alloc, sources, text)
    }

    // Reads a reference part by part.
    fn read(alloc: Global, sources: &mut ReadSources, text: &str) -> Result<EncodableDependency>
        ensures read { ReadsReference
            (IsLong text.now) result (reference_of_words (text_words text.now)) }
        ensures told { TellsLength (IsLong text.now) result }
    {
        if is_one_word(text) {
            return Ok(EncodableDependency {
                name: Name::from_str(alloc, text)?,
                version: None,
                source: None,
            });
        }
        let mut words = text.split_whitespace();
        let Some(name) = next_word(&mut words) else {
            return Err(empty_reference(alloc));
        };
        let name = Name::from_str(alloc, name)?;
        let Some(version) = next_word(&mut words) else {
            return Ok(EncodableDependency {
                name,
                version: None,
                source: None,
            });
        };
        let version = Version::parse(alloc, version)?;
        let Some(source) = next_word(&mut words) else {
            return Ok(EncodableDependency {
                name,
                version: Some(version),
                source: None,
            });
        };
        let source = bracketed_source(alloc, sources, source)?;
        if let Some(_) = next_word(&mut words) {
            return Err(malformed_reference(alloc, text));
        }
        Ok(EncodableDependency {
            name,
            version: Some(version),
            source: Some(EncodableSourceId::without_url_encoded(source)),
        })
    }
}

// Whether a text is a word of visible ASCII, which its bytes alone tell. Most references are the name
// of a package, which is one.
#[tactic(auto, using(crate::proofs::WordLemmas::word_of_graphic))]
fn is_one_word(text: &str) -> bool
    ensures { result ≡ true → text_words text.now ≡ text.now ∷ [] }
{
    !text.is_empty() && are_graphic(text)
}

fn are_graphic(text: &str) -> bool
    ensures { result ≡ list_all is_ascii_graphic text.now }
{
    text.as_bytes().iter().all(|byte| byte.is_ascii_graphic())
}

// The next word of a text.
fn next_word<'a>(rest: &mut SplitWhitespace<'a>) -> Option<&'a str>
    ensures words { MatchOption result
        ((text_words (split_whitespace_rest rest.old) ≡ [])
        × (text_words (split_whitespace_rest rest.new) ≡ []))
        (λ word. text_words (split_whitespace_rest rest.old) ≡ word.now
        ∷ text_words (split_whitespace_rest rest.new)) }
    ensures shorter { IfSome result
        (λ word. length word.now + length (split_whitespace_rest rest.new)
        ≤ length (split_whitespace_rest rest.old)) }
{
    match rest.next() {
        Some(word) => {
            // No effect at run time. The proof reads the length of the part from this.
            let _text = word.as_bytes();
            Some(word)
        }
        None => None,
    }
}

// The source in round brackets.
#[tactic(auto, unfolding(crate::specs::Reference::bracketed_source))]
fn bracketed_source(alloc: Global, sources: &mut ReadSources, word: &str) -> Result<SourceId>
    ensures read { ReadsUrls
        (IsLong word.now) (λ source. source) result (spec.bracketed_source word.now) }
    ensures told { TellsLength (IsLong word.now) result }
{
    let bytes = word.as_bytes();
    let length = bytes.len();
    if length < 2 || bytes[0] != b'(' || bytes[length - 1] != b')' {
        return Err(malformed_source(alloc, word));
    }
    let source = sources.read(alloc, &word[1..length - 1])?;
    Ok(source)
}

// The error for a text without words.
fn empty_reference(alloc: Global) -> Error
    ensures kind { IsParseOrMemory result }
    ensures told { ¬ IsTooLong result }
{
    Error::parse(String::from_str(alloc, "empty dependency string"))
}

// The error for a text of more than three words.
fn malformed_reference(alloc: Global, text: &str) -> Error
    ensures kind { IsParseOrMemory result }
    ensures told { ¬ IsTooLong result }
{
    Error::parse(format!(in alloc; "malformed dependency: {text}"))
}

// The error for a third word that is not in round brackets.
fn malformed_source(alloc: Global, word: &str) -> Error
    ensures kind { IsParseOrMemory result }
    ensures told { ¬ IsTooLong result }
{
    Error::parse(format!(in alloc; "malformed source in dependency: {word}"))
}

impl fmt::Display for EncodableDependency {
    ghost use Rattle.std.specs.Prelude.{Some};
    ghost use Rattle.cargo_lock_references.specs.Reference.{reference_text};

    ghost output = { λ d. Some (reference_text d) };

    fn fmt<W: fmt::Write>(&self, f: &mut fmt::Formatter<W>) -> fmt::Result {
        fmt::Display::fmt(&self.by_ref(), f)
    }
}

impl EncodableDependency {
    ghost use Rattle.cargo_lock_references.specs.ResolvesTo.{ResolvesTo};
    ghost use Rattle.cargo_lock_references.specs.WrittenReference.{ShortensTo, shorten};
    ghost use Rattle.cargo_lock_references.specs.Finds.{Finds};

    /// The package to which the reference resolves among these. Without a source it is the first
    /// package that has the name and, if one is written, the version. If there is none, or if the
    /// reference has a source, it is the reference's own name, version and source.
    ///
    /// `Parse` means that no package matches and the reference has no version of its own. The other
    /// error is `Memory`.
    ///
    /// ```
    /// let values = lockfile.to_encodable(alloc)?;
    /// let dependency = reference.resolve(alloc, values.package.as_slice())?;
    /// ```
    pub fn resolve(&self, alloc: Global, list: &[EncodablePackage]) -> Result<Dependency>
        ensures { Finds (ResolvesTo self.now (map encoded_identity list.now)) result }
    {
        self.dependency_in(alloc, list)
    }

    // The same, as it is computed.
    fn dependency_in(&self, alloc: Global, list: &[EncodablePackage]) -> Result<Dependency>
        ensures { Reads (λ d. d) result (resolution_of self.now (map encoded_identity list.now)) }
    {
        let found = dependency_by_first(&self.by_ref(), self.first_fit(list))?;
        require(alloc, &self.name, found)
    }

    // The first package that the reference matches.
    fn first_fit<'a>(&self, list: &'a [EncodablePackage]) -> Option<&'a EncodablePackage>
        ensures { option_copied result ≡ find (λ e. fits self.now (encoded_identity e)) list.now }
    {
        list.iter().find(|encoded| {
            let encoded: &EncodablePackage = encoded;
            self.fits(encoded)
        })
    }

    fn fits(&self, encoded: &EncodablePackage) -> bool
        ensures { result ≡ fits self.now (encoded_identity encoded.now) }
    {
        encoded.name.as_str() == self.name.as_str()
            && match &self.version {
                Some(version) => same_version(&encoded.version, version),
                None => true,
            }
    }

    /// The reference without the parts that are redundant among these packages, as it is written
    /// from V2 on: its name alone if exactly one package has it, otherwise name and version if
    /// exactly one package has both. It allocates nothing.
    ///
    /// ```
    /// let shortened = reference.v2(packages);
    /// ```
    pub fn v2(self, list: &[Package]) -> EncodableDependency
        ensures { ShortensTo (map identity_of list.now) self result }
    {
        self.by_counts(list)
    }

    // The same, computed from how many packages have the name, and the name and the version.
    #[tactic(auto, unfolding(crate::specs::WrittenReference::shorten))]
    fn by_counts(self, list: &[Package]) -> EncodableDependency
        ensures { result ≡ shorten (map identity_of list.now) self }
    {
        if self.name_is_unique(list) {
            self.by_name()
        } else if self.version_is_unique(list) {
            self.without_source()
        } else {
            self
        }
    }

    /// The reference to a dependency in full: its name, its version and its source, unless the
    /// source is absent or a path. The source is marked escaped for V4, and plain before. The one
    /// error is `Memory`.
    ///
    /// ```
    /// let reference = EncodableDependency::from_dependency(dependency, ResolveVersion::V3)?;
    /// ```
    pub fn from_dependency(
        dependency: &Dependency,
        format: ResolveVersion,
    ) -> Result<EncodableDependency>
        ensures ok { IfOk result (λ d. d ≡ in_full (is_escaped format) dependency.now) }
        ensures err { IsOkUnless result Memory }
    {
        let reference = EncodableDependencyRef::from_dependency(dependency, format);
        Ok(reference.to_owned()?)
    }
}

impl EncodableDependency {
    ghost use Rattle.std.specs.Prelude.{Ok};
    ghost use Rattle.cargo_lock_references.specs.Reference.{ReadsReferenceExactly};
    ghost use Rattle.cargo_lock_references.specs.Metadata.{own_identity};

    // The reference's own parts as an identity.
    pub(crate) fn own_identity(&self, alloc: Global) -> Result<Dependency>
        ensures { ReadsReferenceExactly result (own_identity (Ok self.now)) }
    {
        let found = own_dependency(&self.by_ref())?;
        require(alloc, &self.name, found)
    }
}

// ---- the reference that is written

impl EncodableDependency {
    ghost use Rattle.cargo_lock_references.specs.Reference.{one_word};
    ghost use Rattle.cargo_lock_references.specs.WrittenReference.{is_version_unique};
    ghost use Rattle.cargo_lock_references.specs.WrittenReference.{without_source};

    // Whether exactly one package has the name.
    fn name_is_unique(&self, list: &[Package]) -> bool
        ensures { result ≡ exactly_one (has_name self.now.name) (map identity_of list.now) }
    {
        count_named(&self.name, list) == 1
    }

    // Whether a version is written, and exactly one package has the name and the version.
    fn version_is_unique(&self, list: &[Package]) -> bool
        ensures { result
            ≡ is_version_unique (map identity_of list.now) self.now.name self.now.version }
    {
        match &self.version {
            Some(version) => count_versions(&self.name, version, list) == 1,
            None => false,
        }
    }

    // The name alone.
    fn by_name(self) -> EncodableDependency
        ensures { result ≡ one_word self.name }
    {
        let EncodableDependency {
            name,
            version: _,
            source: _,
        } = self;
        EncodableDependency {
            name,
            version: None,
            source: None,
        }
    }

    // The name and the version alone.
    fn without_source(self) -> EncodableDependency
        ensures { result ≡ without_source self }
    {
        let EncodableDependency {
            name,
            version,
            source: _,
        } = self;
        EncodableDependency {
            name,
            version,
            source: None,
        }
    }
}

// How many packages have the name.
fn count_named(name: &Name, list: &[Package]) -> usize
    ensures { result ≡ count_by (has_name name.now) (map identity_of list.now) }
{
    list.iter()
        .filter(|package| {
            let package: &Package = package;
            package.name.as_str() == name.as_str()
        })
        .count()
}

// How many packages have the name and the version.
fn count_versions(name: &Name, version: &Version, list: &[Package]) -> usize
    ensures { result
        ≡ count_by (has_name_and_version name.now (parts_of version.now))
        (map identity_of list.now) }
{
    list.iter()
        .filter(|package| {
            let package: &Package = package;
            package.name.as_str() == name.as_str() && same_version(&package.version, version)
        })
        .count()
}

// ---- copies and comparisons

impl Clone for EncodableDependency {
    ghost is_clone = { λ one copy. copy ≡ one };

    fn clone(&self) -> std::result::Result<EncodableDependency, AllocError> {
        Ok(EncodableDependency {
            name: self.name.clone()?,
            version: own_version(self.version.as_ref())?,
            source: self.source.clone()?,
        })
    }
}

impl PartialEq for EncodableDependency {
    ghost use Rattle.std.specs.Cmp.{partial_equiv_from_equiv, eq_by_cmp_equiv};
    ghost use Rattle.cargo_lock_references.specs.ReferenceOrder.{is_same_reference};
    ghost use Rattle.cargo_lock_references.specs.ReferenceLaws.{reference_total};

    ghost eq = { is_same_reference };

    ghost laws = { partial_equiv_from_equiv (eq_by_cmp_equiv reference_total) };

    fn eq(&self, other: &EncodableDependency) -> bool {
        self.cmp(other) == Ordering::Equal
    }
}

impl Eq for EncodableDependency {
    ghost use Rattle.std.specs.Cmp.{eq_by_cmp_equiv};
    ghost use Rattle.cargo_lock_references.specs.ReferenceLaws.{reference_total};

    ghost laws = { eq_by_cmp_equiv reference_total };
}

impl PartialOrd for EncodableDependency {
    ghost use Rattle.std.specs.Ordering.{as_partial_cmp};
    ghost use Rattle.std.specs.Cmp.{partial_order_from_total};
    ghost use Rattle.cargo_lock_references.specs.ReferenceOrder.{reference_cmp};
    ghost use Rattle.cargo_lock_references.specs.ReferenceLaws.{reference_total};

    ghost partial_cmp = { as_partial_cmp reference_cmp };

    ghost laws = { partial_order_from_total reference_total };

    fn partial_cmp(&self, other: &EncodableDependency) -> Option<Ordering> {
        Some(self.cmp(other))
    }
}

impl Ord for EncodableDependency {
    ghost use Rattle.std.specs.Prelude.{refl};
    ghost use Rattle.cargo_lock_references.specs.ReferenceOrder.{reference_cmp};
    ghost use Rattle.cargo_lock_references.specs.ReferenceLaws.{reference_total};

    ghost cmp = { reference_cmp };

    ghost total = { reference_total };

    ghost matches_partial_cmp = { λ a b. refl };

    ghost matches_eq = { λ a b. refl };

    fn cmp(&self, other: &EncodableDependency) -> Ordering {
        match self.name.cmp(&other.name) {
            Ordering::Less => Ordering::Less,
            Ordering::Equal => {
                let versions = cmp_versions(&self.version, &other.version);
                versions.then_with(|| self.source.cmp(&other.source))
            }
            Ordering::Greater => Ordering::Greater,
        }
    }
}

// An absent version is before a present one.
fn cmp_versions(a: &Option<Version>, b: &Option<Version>) -> Ordering
    ensures { result
        ≡ option_cmp version_cmp (option_map parts_of a.now) (option_map parts_of b.now) }
{
    a.cmp(b)
}

impl Hash for EncodableDependency {
    ghost use Rattle.cargo_lock_references.specs.ReferenceOrder.{reference_hash};
    ghost use Rattle.cargo_lock_references.specs.ReferenceLaws.{reference_alike};

    ghost hash_input = { reference_hash };

    ghost respects_eq = { reference_alike };

    fn hash<H: Hasher>(&self, state: &mut H) {
        self.name.hash(state);
        self.source.hash(state);
    }
}
