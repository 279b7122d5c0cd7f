//! The metadata of a lockfile: texts by keys.
//!
//! Lockfiles of V1 have the checksums of their packages here.

ghost use Rattle.std.specs.Prelude.{◌≡◌, ◌≤◌, ◌↔◌, IfOk, IsOk, IsOkUnless, MatchOption, Some};
ghost use Rattle.std.specs.Prelude.{true, false, drop, length, nat_eq};
ghost use Rattle.std.proofs.Common.{rules};
ghost use Rattle.std.specs.Cmp.{partial_equiv_from_equiv};
ghost use Rattle.std.specs.Cmp.Lexicographic.{pointwise, slice_cmp, nat_list_eq_equiv};
ghost use Rattle.std.specs.Cmp.Lexicographic.{nat_list_cmp_total, texts_ties, texts_po};
ghost use Rattle.std.specs.Cmp.Rules.{hashing};
ghost use Rattle.std.specs.Hash as fed;
ghost use Rattle.std.specs.Ordering.{nat_cmp};
ghost use Rattle.cargo_lock_parts.specs.declared.error.Error.TheVariants.{Memory};
ghost use Rattle.cargo_lock_parts.specs.Checksum.{IsDigestText, checksum_refusal, digest_in};
ghost use Rattle.cargo_lock_parts.specs.Checksum.{digest_of};
ghost use Rattle.cargo_lock_parts.specs.Error.{IsLong, Reads, RefusesWith};
ghost use Rattle.cargo_lock_references.specs.Reference.{ReadsReference};
ghost use Rattle.cargo_lock_references.specs.Metadata.{checksum_key, is_checksum, key_or_refusal};

use crate::EncodableDependency;
use crate::read_sources::ReadSources;
use cargo_lock_parts::dependency::Dependency;
use cargo_lock_parts::error::{Error, Result};
use cargo_lock_parts::package::Checksum;
use serde::{
    Described, Deserialize, DeserializeOwned, Deserializer, Format, Serialize, Serializer,
};
use std::alloc::{AllocError, Global};
use std::cmp::Ordering;
use std::collections::BTreeMap;
use std::fmt;
use std::hash::{Hash, Hasher};
use std::marker::Model;

/// The metadata as a map from keys to values, in the order of the keys.
pub type Metadata = BTreeMap<MetadataKey, MetadataValue>;

/// A key of the metadata: any text. Keys compare byte by byte.
#[derive(Drop)]
pub struct MetadataKey(String);

impl Model for MetadataKey {
    ghost use Rattle.std.specs.Prelude.{ℕ, List, string_bytes};

    ghost Value = { List ℕ };

    ghost view = { λ key. string_bytes key.0 };
}

impl MetadataKey {
    /// The text of the key, unchanged.
    pub fn as_str(&self) -> &str
        ensures { result.now ≡ self.now }
    {
        self.0.as_str()
    }

    /// The key with this text; every text is a key. The one error is `Memory`.
    pub fn from_str(alloc: Global, text: &str) -> Result<MetadataKey>
        ensures ok { IfOk result (λ key. key ≡ text.now) }
        ensures err { IsOkUnless result Memory }
    {
        Ok(MetadataKey(String::from_str(alloc, text)?))
    }

    /// The key of a package's checksum: `checksum ` and what `Display` writes of the dependency, as
    /// `checksum foo 1.0.0 (registry+https://github.com/rust-lang/crates.io-index)`. The one error
    /// is `Memory`.
    ///
    /// ```
    /// let key = MetadataKey::for_checksum(alloc, dependency)?;
    /// ```
    #[tactic(auto, unfolding(crate::specs::Metadata::checksum_key))]
    pub fn for_checksum(alloc: Global, dependency: &Dependency) -> Result<MetadataKey>
        ensures ok { IfOk result (λ key. key ≡ checksum_key dependency.now) }
        ensures err { IsOkUnless result Memory }
    {
        let text = format!(in alloc; "checksum {dependency}")?;
        Ok(MetadataKey(text))
    }

    /// Whether the key begins with `checksum `.
    pub fn is_checksum(&self) -> bool
        ensures { result ≡ is_checksum self.now }
    {
        self.reference_text().is_some()
    }

    // The text after `checksum `, if the key begins with that.
    #[tactic(auto, unfolding(crate::specs::Metadata::is_checksum))]
    fn reference_text(&self) -> Option<&str>
        ensures { MatchOption result (is_checksum self.now ≡ false)
            (λ text. (is_checksum self.now ≡ true) × (text.now ≡ drop 9 self.now)
            × (length text.now ≤ length self.now)) }
    {
        self.as_str().strip_prefix("checksum ")
    }

    /// The package whose checksum is at the key: the text after `checksum `, read as a reference
    /// with a version. A version that does not read is `Version`, and any other key without such a
    /// text is `Parse`. `Parse` also comes for a URL of 4 GB or more, which no key shorter than
    /// 2^28 bytes has. The other error is `Memory`.
    ///
    /// ```
    /// let named = key.checksum_dependency(alloc)?;
    /// ```
    pub fn checksum_dependency(&self, alloc: Global) -> Result<Dependency>
        ensures { ReadsReference (IsLong self.now) result (key_or_refusal self.now) }
    {
        let mut sources = ReadSources::new(alloc);
        self.dependency_by(alloc, &mut sources)
    }

    // The same. The text of a source that was read before by `sources` is not read again.
    #[tactic(auto, unfolding(crate::specs::Metadata::key_or_refusal))]
    pub(crate) fn dependency_by(
        &self,
        alloc: Global,
        sources: &mut ReadSources,
    ) -> Result<Dependency>
        ensures { ReadsReference (IsLong self.now) result (key_or_refusal self.now) }
    {
        let Some(text) = self.reference_text() else {
            let message = String::from_str(
                alloc,
                "can only parse dependencies from `checksum` metadata",
            )?;
            return Err(Error::Parse(message));
        };
        let reference = EncodableDependency::from_str_by(alloc, sources, text)?;
        let dependency = reference.own_identity(alloc)?;
        Ok(dependency)
    }
}

impl Clone for MetadataKey {
    ghost is_clone = { λ key copy. copy ≡ key };

    fn clone(&self) -> std::result::Result<MetadataKey, AllocError> {
        Ok(MetadataKey(self.0.clone()?))
    }
}

impl fmt::Display for MetadataKey {
    ghost output = { λ key. Some key };

    fn fmt<W: fmt::Write>(&self, f: &mut fmt::Formatter<W>) -> fmt::Result {
        fmt::Display::fmt(&self.as_str(), f)
    }
}

impl fmt::Debug for MetadataKey {
    fn fmt<W: fmt::Write>(&self, f: &mut fmt::Formatter<W>) -> fmt::Result {
        fmt::Debug::fmt(&self.as_str(), f)
    }
}

impl PartialEq for MetadataKey {
    ghost eq = { pointwise nat_eq };

    ghost laws = { partial_equiv_from_equiv nat_list_eq_equiv };

    fn eq(&self, other: &MetadataKey) -> bool {
        self.as_str() == other.as_str()
    }
}

impl Eq for MetadataKey {
    ghost laws = { nat_list_eq_equiv };
}

impl PartialOrd for MetadataKey {
    ghost partial_cmp = { λ a b. Some (slice_cmp nat_cmp a b) };

    ghost laws = { texts_po };

    fn partial_cmp(&self, other: &MetadataKey) -> Option<Ordering> {
        Some(self.cmp(other))
    }
}

impl Ord for MetadataKey {
    ghost use Rattle.std.specs.Prelude.{refl};

    ghost cmp = { slice_cmp nat_cmp };

    ghost total = { nat_list_cmp_total };

    ghost matches_partial_cmp = { λ a b. refl };

    ghost matches_eq = { texts_ties };

    fn cmp(&self, other: &MetadataKey) -> Ordering {
        self.as_str().cmp(other.as_str())
    }
}

impl Hash for MetadataKey {
    ghost hash_input = { fed.str };

    ghost respects_eq = { Prim.search (hashing, rules) };

    fn hash<H: Hasher>(&self, state: &mut H) {
        self.as_str().hash(state);
    }
}

impl Described for MetadataKey {
    ghost use Rattle.serde.specs.Event.{Logs, text};

    ghost writes = { λ key old new. Logs old new (text key) };
}

impl Serialize for MetadataKey {
    fn serialize<S: Serializer>(&self, out: &mut S) -> std::result::Result<(), S::Error> {
        out.str(self.as_str())
    }
}

impl<'de> Deserialize<'de> for MetadataKey {
    fn deserialize<F: Format>(
        alloc: Global,
        from: &mut Deserializer<'de, '_, F>,
    ) -> std::result::Result<MetadataKey, F::Error> {
        DeserializeOwned::deserialize_owned(alloc, from)
    }
}

impl DeserializeOwned for MetadataKey {
    fn deserialize_owned<F: Format>(
        alloc: Global,
        from: &mut Deserializer<'_, '_, F>,
    ) -> std::result::Result<MetadataKey, F::Error> {
        Ok(MetadataKey(from.string(alloc)?))
    }
}

/// A value of the metadata: any text.
#[derive(Drop)]
pub struct MetadataValue(String);

impl Model for MetadataValue {
    ghost use Rattle.std.specs.Prelude.{ℕ, List, string_bytes};

    ghost Value = { List ℕ };

    ghost view = { λ value. string_bytes value.0 };
}

impl MetadataValue {
    /// The text of the value, unchanged.
    pub fn as_str(&self) -> &str
        ensures { result.now ≡ self.now }
    {
        let MetadataValue(text) = self;
        text.as_str()
    }

    /// The value with this text; every text is a value. The one error is `Memory`.
    pub fn from_str(alloc: Global, text: &str) -> Result<MetadataValue>
        ensures ok { IfOk result (λ value. value ≡ text.now) }
        ensures err { IsOkUnless result Memory }
    {
        Ok(MetadataValue(String::from_str(alloc, text)?))
    }

    /// The value as a checksum, read as `Checksum::from_str` reads it: 64 hex digits allocate
    /// nothing. Any other text is `Parse`, or `Memory` if memory for its text runs out.
    pub fn checksum(&self, alloc: Global) -> Result<Checksum>
        ensures read { Reads digest_of result (digest_in self.now) }
        ensures accepted { IsOk result ↔ IsDigestText self.now }
        ensures refused { RefusesWith result (checksum_refusal self.now) }
    {
        Checksum::from_str(alloc, self.as_str())
    }
}

impl Clone for MetadataValue {
    ghost is_clone = { λ value copy. copy ≡ value };

    fn clone(&self) -> std::result::Result<MetadataValue, AllocError> {
        Ok(MetadataValue(self.0.clone()?))
    }
}

impl fmt::Display for MetadataValue {
    ghost output = { λ value. Some value };

    fn fmt<W: fmt::Write>(&self, f: &mut fmt::Formatter<W>) -> fmt::Result {
        let MetadataValue(shown) = self;
        fmt::Display::fmt(&shown.as_str(), f)
    }
}

impl fmt::Debug for MetadataValue {
    fn fmt<W: fmt::Write>(&self, f: &mut fmt::Formatter<W>) -> fmt::Result {
        fmt::Debug::fmt(&self.as_str(), f)
    }
}

impl PartialEq for MetadataValue {
    ghost eq = { pointwise nat_eq };

    ghost laws = { partial_equiv_from_equiv nat_list_eq_equiv };

    fn eq(&self, other: &MetadataValue) -> bool {
        self.as_str() == other.as_str()
    }
}

impl Eq for MetadataValue {
    ghost laws = { nat_list_eq_equiv };
}

impl Described for MetadataValue {
    ghost use Rattle.serde.specs.Event.{Logs, text};

    ghost writes = { λ value old new. Logs old new (text value) };
}

impl Serialize for MetadataValue {
    fn serialize<S: Serializer>(&self, out: &mut S) -> std::result::Result<(), S::Error> {
        out.str(self.as_str())
    }
}

impl<'de> Deserialize<'de> for MetadataValue {
    fn deserialize<F: Format>(
        alloc: Global,
        from: &mut Deserializer<'de, '_, F>,
    ) -> std::result::Result<MetadataValue, F::Error> {
        DeserializeOwned::deserialize_owned(alloc, from)
    }
}

impl DeserializeOwned for MetadataValue {
    fn deserialize_owned<F: Format>(
        alloc: Global,
        from: &mut Deserializer<'_, '_, F>,
    ) -> std::result::Result<MetadataValue, F::Error> {
        Ok(MetadataValue(from.string(alloc)?))
    }
}
