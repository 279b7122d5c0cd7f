//! Sources as a lockfile writes them.

ghost use Rattle.std.specs.Prelude.{◌≡◌, true, false};

use cargo_lock_parts::package::SourceId;
use cargo_lock_parts::package::source::SourceIdAsUrl;
use std::alloc::AllocError;
use std::cmp::Ordering;
use std::hash::{Hash, Hasher};
use std::marker::Model;
use std::ops::Deref;

/// A source with a mark for its text: with the value of a git reference escaped, as in V4, or
/// plain. Equality, order and hash look only at the source.
#[derive(Debug, Drop)]
pub struct EncodableSourceId {
    inner: SourceId,
    escaped: bool,
}

impl Model for EncodableSourceId {
    ghost use Rattle.cargo_lock_parts.specs.Source.{MarkedSource};

    ghost Value = { MarkedSource };

    ghost view = { λ s. record { source = s.inner; escaped = s.escaped } };
}

impl EncodableSourceId {
    /// The source, marked escaped.
    pub fn new(inner: SourceId) -> EncodableSourceId
        ensures { result ≡ record { source = inner; escaped = true } }
    {
        EncodableSourceId {
            inner,
            escaped: true,
        }
    }

    /// The source, marked plain.
    pub fn without_url_encoded(inner: SourceId) -> EncodableSourceId
        ensures { result ≡ record { source = inner; escaped = false } }
    {
        EncodableSourceId {
            inner,
            escaped: false,
        }
    }

    /// The source as a text that can be displayed, escaped or plain by its mark.
    pub fn as_url(&self) -> SourceIdAsUrl<'_>
        ensures { result ≡ self.now }
    {
        self.inner.as_url(self.escaped)
    }
}

impl Deref for EncodableSourceId {
    type Target = SourceId;

    ghost deref_gives = { λ marked source. source ≡ marked.source };

    fn deref(&self) -> &SourceId {
        &self.inner
    }
}

impl Clone for EncodableSourceId {
    ghost is_clone = { λ source copy. copy ≡ source };

    fn clone(&self) -> std::result::Result<EncodableSourceId, AllocError> {
        Ok(EncodableSourceId {
            inner: self.inner.clone()?,
            escaped: self.escaped,
        })
    }
}

impl PartialEq for EncodableSourceId {
    ghost use Rattle.std.specs.Cmp.{partial_equiv_from_equiv, eq_by_cmp_equiv};
    ghost use Rattle.cargo_lock_references.specs.ReferenceOrder.{is_same_marked};
    ghost use Rattle.cargo_lock_references.specs.ReferenceLaws.{marked_total};

    ghost eq = { is_same_marked };

    ghost laws = { partial_equiv_from_equiv (eq_by_cmp_equiv marked_total) };

    fn eq(&self, other: &EncodableSourceId) -> bool {
        self.cmp(other) == Ordering::Equal
    }
}

impl Eq for EncodableSourceId {
    ghost use Rattle.std.specs.Cmp.{eq_by_cmp_equiv};
    ghost use Rattle.cargo_lock_references.specs.ReferenceLaws.{marked_total};

    ghost laws = { eq_by_cmp_equiv marked_total };
}

impl PartialOrd for EncodableSourceId {
    ghost use Rattle.std.specs.Ordering.{as_partial_cmp};
    ghost use Rattle.std.specs.Cmp.{partial_order_from_total};
    ghost use Rattle.cargo_lock_references.specs.ReferenceOrder.{marked_cmp};
    ghost use Rattle.cargo_lock_references.specs.ReferenceLaws.{marked_total};

    ghost partial_cmp = { as_partial_cmp marked_cmp };

    ghost laws = { partial_order_from_total marked_total };

    fn partial_cmp(&self, other: &EncodableSourceId) -> Option<Ordering> {
        Some(self.cmp(other))
    }
}

impl Ord for EncodableSourceId {
    ghost use Rattle.std.specs.Prelude.{refl};
    ghost use Rattle.cargo_lock_references.specs.ReferenceOrder.{marked_cmp};
    ghost use Rattle.cargo_lock_references.specs.ReferenceLaws.{marked_total};

    ghost cmp = { marked_cmp };

    ghost total = { marked_total };

    ghost matches_partial_cmp = { λ a b. refl };

    ghost matches_eq = { λ a b. refl };

    fn cmp(&self, other: &EncodableSourceId) -> Ordering {
        self.inner.cmp(&other.inner)
    }
}

impl Hash for EncodableSourceId {
    ghost use Rattle.cargo_lock_references.specs.ReferenceOrder.{marked_hash};
    ghost use Rattle.cargo_lock_references.specs.ReferenceLaws.{marked_alike};

    ghost hash_input = { marked_hash };

    ghost respects_eq = { marked_alike };

    fn hash<H: Hasher>(&self, state: &mut H) {
        self.inner.hash(state);
    }
}
