//! How well two sources match.

ghost use Rattle.std.specs.Prelude.{◌≡◌, bytes_eq, option_copied};
ghost use Rattle.std.specs.Option.{option_eq};
ghost use Rattle.cargo_lock_parts.specs.Source.{kind_of};
ghost use Rattle.cargo_lock_parts.specs.Rank as spec;

use crate::package::source::{GitReference, SourceId, SourceKind};

impl SourceId {
    ghost use Rattle.cargo_lock_parts.specs.Rank.{rank_of, has_rank_2, has_rank_3, has_rank_4};
    ghost use Rattle.cargo_lock_parts.specs.Rank.{is_open_git, same_url_and_name, both_git};
    ghost use Rattle.cargo_lock_parts.specs.Rank.{commit_of};

    /// How well the sources match, from 1 for equal sources to 4. `None` if they do not match.
    ///
    /// Rank 2 is the same commit of one repository, whatever its reference is. Rank 3 is the same
    /// reference of one repository, if at least one source has no commit. Rank 4 is one repository
    /// with no two different commits, or a registry or folder of the same kind at the same URL.
    ///
    /// `git+https://example.org/u?rev=aaaa#aaaa` and `git+https://example.org/u?rev=aaaa` have
    /// rank 2.
    pub fn match_rank(&self, other: &SourceId) -> Option<u8>
        ensures { result ≡ rank_of self.now other.now }
    {
        if *self == *other {
            Some(1)
        } else if self.has_rank_2(other) {
            Some(2)
        } else if self.has_rank_3(other) {
            Some(3)
        } else if self.has_rank_4(other) {
            Some(4)
        } else {
            None
        }
    }

    // The same commit of one repository.
    fn has_rank_2(&self, other: &SourceId) -> bool
        ensures { result ≡ has_rank_2 self.now other.now }
    {
        self.same_url_and_name(other)
            && self.both_git(other)
            && are_equal_texts(self.commit(), other.commit())
    }

    // The same reference of one repository, where a precise text is missing.
    fn has_rank_3(&self, other: &SourceId) -> bool
        ensures { result ≡ has_rank_3 self.now other.now }
    {
        self.same_url_and_name(other)
            && self.both_git(other)
            && same_kind(self.kind(), other.kind())
            && (self.precise().is_none() || other.precise().is_none())
    }

    // One repository with no two different precise texts, or the same kind at the same URL.
    fn has_rank_4(&self, other: &SourceId) -> bool
        ensures { result ≡ has_rank_4 self.now other.now }
    {
        self.same_url_and_name(other)
            && (self.is_open_git(other) || is_same_other_kind(self.kind(), other.kind()))
    }

    // Repositories without two different precise texts.
    fn is_open_git(&self, other: &SourceId) -> bool
        ensures { result ≡ is_open_git self.now other.now }
    {
        self.both_git(other) && !are_different_texts(self.precise(), other.precise())
    }

    fn same_url_and_name(&self, other: &SourceId) -> bool
        ensures { result ≡ same_url_and_name self.now other.now }
    {
        self.url().as_str() == other.url().as_str() && same_texts(self.name(), other.name())
    }

    fn both_git(&self, other: &SourceId) -> bool
        ensures { result ≡ both_git self.now other.now }
    {
        self.is_git() && other.is_git()
    }

    // The commit: the precise text, or else the value of `Rev`.
    fn commit(&self) -> Option<&str>
        ensures { option_copied result ≡ commit_of self.now }
    {
        match self.precise() {
            Some(precise) => Some(precise),
            None => self.kind().revision(),
        }
    }
}

impl SourceKind {
    ghost use Rattle.cargo_lock_parts.specs.Rank.{revision};

    // The value of `Rev`.
    fn revision(&self) -> Option<&str>
        ensures { option_copied result ≡ revision (kind_of self.now) }
    {
        match self {
            SourceKind::Git(GitReference::Rev(text)) => Some(text.as_str()),
            _ => None,
        }
    }
}

// The same kind, and for a repository the same reference.
fn same_kind(a: &SourceKind, b: &SourceKind) -> bool
    ensures { result ≡ spec.same_kind (kind_of a.now) (kind_of b.now) }
{
    a.kind_number() == b.kind_number() && a.git_reference_text() == b.git_reference_text()
}

// The same kind, and no repository.
fn is_same_other_kind(a: &SourceKind, b: &SourceKind) -> bool
    ensures { result ≡ spec.is_same_other_kind (kind_of a.now) (kind_of b.now) }
{
    !a.is_git() && !b.is_git() && same_kind(a, b)
}

// The same text, or none in both.
fn same_texts(a: Option<&str>, b: Option<&str>) -> bool
    ensures { result ≡ option_eq bytes_eq (option_copied a.entry) (option_copied b.entry) }
{
    match (a, b) {
        (None, None) => true,
        (Some(a), Some(b)) => a == b,
        _ => false,
    }
}

fn are_equal_texts(a: Option<&str>, b: Option<&str>) -> bool
    ensures { result ≡ spec.are_equal_texts (option_copied a.entry) (option_copied b.entry) }
{
    match (a, b) {
        (Some(a), Some(b)) => a == b,
        _ => false,
    }
}

fn are_different_texts(a: Option<&str>, b: Option<&str>) -> bool
    ensures { result ≡ spec.are_different_texts (option_copied a.entry) (option_copied b.entry) }
{
    match (a, b) {
        (Some(a), Some(b)) => a != b,
        _ => false,
    }
}
