//! What the packages of a group have in common.

ghost use Rattle.std.specs.Prelude.{◌≡◌, Some, option_copied, option_map};
ghost use Rattle.std.specs.Option.{option_cmp};
ghost use Rattle.cargo_lock_parts.specs.Rank as rank;
ghost use Rattle.cargo_lock_parts.specs.Rank.{commit_of};
ghost use Rattle.cargo_lock_parts.specs.Source.{kind_of};
ghost use Rattle.cargo_lock_parts.specs.SourceKey.{kind_cmp};
ghost use Rattle.cargo_lock_edges.specs.Group as spec;

use crate::index::identity;
use cargo_lock_parts::dependency::Dependency;
use cargo_lock_parts::laws::kinds_compare_in_order;
use cargo_lock_parts::package::{GitReference, PartialIdentity, SourceId, SourceKind};
use std::cmp::Ordering;
use std::marker::Model;

// What the packages of a group have in common: the name and the version, and for rank 1 the whole
// source, or for another rank the URL and what the rank compares beside it, the reference too if the
// kind is there. The packages of an open group have no precise text.
#[derive(Drop)]
pub(crate) struct Group<'a> {
    identity: PartialIdentity<'a>,
    rank: u8,
    is_open: bool,
    kind: Option<&'a SourceKind>,
    url: &'a str,
    text: &'a str,
}

impl<'a> Model for Group<'a> {
    ghost use Rattle.std.specs.Prelude.{option_map};
    ghost use Rattle.cargo_lock_parts.specs.Source.{kind_of};
    ghost use Rattle.cargo_lock_edges.specs.Group.{Group};

    ghost Value = { Group };

    ghost view = { λ g. record {
      identity = g.identity;
      rank = g.rank;
      is_open = g.is_open;
      kind = option_map (λ kind. kind_of kind.now) g.kind;
      url = g.url.now;
      text = g.text.now;
    } };
}

impl<'a> PartialEq for Group<'a> {
    ghost use Rattle.std.specs.Cmp.{partial_equiv_from_equiv, eq_by_cmp_equiv};
    ghost use Rattle.cargo_lock_edges.specs.Group.{group_total, is_same_group};

    ghost eq = { is_same_group };

    ghost laws = { partial_equiv_from_equiv (eq_by_cmp_equiv group_total) };

    fn eq(&self, other: &Group<'a>) -> bool {
        self.cmp(other) == Ordering::Equal
    }
}

impl<'a> Eq for Group<'a> {
    ghost use Rattle.std.specs.Cmp.{eq_by_cmp_equiv};
    ghost use Rattle.cargo_lock_edges.specs.Group.{group_total};

    ghost laws = { eq_by_cmp_equiv group_total };
}

impl<'a> PartialOrd for Group<'a> {
    ghost use Rattle.std.specs.Ordering.{as_partial_cmp};
    ghost use Rattle.std.specs.Cmp.{partial_order_from_total};
    ghost use Rattle.cargo_lock_edges.specs.Group.{group_cmp, group_total};

    ghost partial_cmp = { as_partial_cmp group_cmp };

    ghost laws = { partial_order_from_total group_total };

    fn partial_cmp(&self, other: &Group<'a>) -> Option<Ordering> {
        Some(self.cmp(other))
    }
}

impl<'a> Ord for Group<'a> {
    ghost use Rattle.std.specs.Prelude.{refl};
    ghost use Rattle.cargo_lock_edges.specs.Group.{group_cmp, group_total};

    ghost cmp = { group_cmp };

    ghost total = { group_total };

    ghost matches_partial_cmp = { λ a b. refl };

    ghost matches_eq = { λ a b. refl };

    fn cmp(&self, other: &Group<'a>) -> Ordering {
        let identities = self.identity.cmp(&other.identity);
        let ranks = identities.then(self.rank.cmp(&other.rank));
        let openness = ranks.then(self.is_open.cmp(&other.is_open));
        match openness.then(cmp_kinds(self.kind, other.kind)) {
            Ordering::Less => Ordering::Less,
            Ordering::Equal => self.url.cmp(other.url).then(self.text.cmp(other.text)),
            Ordering::Greater => Ordering::Greater,
        }
    }
}

// The group of the packages that can match a dependency with a rank.
pub(crate) fn group_for<'a>(rank: u8, dependency: &'a Dependency) -> Option<Group<'a>>
    ensures { result ≡ spec.group_for rank dependency.now }
{
    group_of(rank, asks_open(rank, dependency), identity(dependency))
}

// Whether the packages that can match a dependency with a rank have no precise text.
fn asks_open(rank: u8, dependency: &Dependency) -> bool
    ensures { result ≡ spec.asks_open rank dependency.now }
{
    rank > 2 && has_precise(&dependency.source)
}

// Whether there is a source, and it has a precise text.
pub(crate) fn has_precise(source: &Option<SourceId>) -> bool
    ensures { result ≡ spec.has_precise source.now }
{
    match source {
        Some(source) => source.precise().is_some(),
        None => false,
    }
}

// The group of an identity for a rank.
pub(crate) fn group_of<'a>(
    rank: u8,
    is_open: bool,
    identity: PartialIdentity<'a>,
) -> Option<Group<'a>>
    ensures { result ≡ spec.group_of rank is_open identity.entry }
{
    if rank == 1 {
        return Some(Group {
            identity,
            rank,
            is_open: false,
            kind: None,
            url: "",
            text: "",
        });
    }
    let source = identity.source?;
    let text = text_at(rank, source)?;
    Some(Group {
        identity: PartialIdentity {
            name: identity.name,
            version: identity.version,
            source: None,
        },
        rank,
        is_open,
        kind: kind_at(rank, source),
        url: source.url().as_str(),
        text,
    })
}

// The group of the packages that have the commit of an identity and its reference.
pub(crate) fn pinned_group_of<'a>(identity: PartialIdentity<'a>) -> Option<Group<'a>>
    ensures { result ≡ spec.pinned_group_of identity.entry }
{
    match identity.source {
        Some(source) => with_kind_if(group_of(2, false, identity), source),
        None => None,
    }
}

// The group with the kind of a source, if the group is there.
fn with_kind_if<'a>(group: Option<Group<'a>>, source: &'a SourceId) -> Option<Group<'a>>
    ensures { result ≡ option_map (spec.with_kind source.now) group.entry }
{
    match group {
        Some(group) => Some(with_kind(group, source)),
        None => None,
    }
}

// The group with the kind of a source.
fn with_kind<'a>(group: Group<'a>, source: &'a SourceId) -> Group<'a>
    ensures { result ≡ spec.with_kind source.now group.entry }
{
    let own = source.kind();
    let kind = Some(own);
    let mut made = group;
    made.kind = kind;
    made
}

// The group that has each package of a dependency's own words, whatever their commits.
pub(crate) fn words_group_of<'a>(dependency: &'a Dependency) -> Option<Group<'a>>
    ensures { result ≡ spec.words_group_of dependency.now }
{
    let rank = match &dependency.source {
        Some(source) if source.is_git() => 3,
        _ => 1,
    };
    group_of(rank, false, identity(dependency))
}

// Whether two sources that are there have one kind, and a repository one reference.
pub(crate) fn have_one_kind(one: &Option<SourceId>, other: &Option<SourceId>) -> bool
    ensures { result ≡ spec.have_one_kind one.now other.now }
{
    match (one, other) {
        (Some(one), Some(other)) => {
            kinds_compare_in_order(one.kind(), other.kind()) == Ordering::Equal
        }
        _ => false,
    }
}

// The order of two kinds, an absent one before a present one.
fn cmp_kinds(one: Option<&SourceKind>, other: Option<&SourceKind>) -> Ordering
    ensures { result ≡ option_cmp kind_cmp (option_map (λ kind. kind_of kind.now) one.entry)
        (option_map (λ kind. kind_of kind.now) other.entry) }
{
    match (one, other) {
        (None, None) => Ordering::Equal,
        (None, Some(_)) => Ordering::Less,
        (Some(_), None) => Ordering::Greater,
        (Some(one), Some(other)) => kinds_compare_in_order(one, other),
    }
}

// The kind, if the rank compares its reference.
fn kind_at(rank: u8, source: &SourceId) -> Option<&SourceKind>
    ensures { option_map (λ kind. kind_of kind.now) result ≡ spec.compared_kind rank source.now }
{
    if rank == 3 { Some(source.kind()) } else { None }
}

// What a rank compares of a repository beside its URL and its reference: the commit, or nothing.
fn text_at(rank: u8, source: &SourceId) -> Option<&str>
    ensures { option_copied result ≡ spec.compared_text rank source.now }
{
    if !source.is_git() {
        return None;
    }
    match rank {
        2 => commit(source),
        _ => Some(""),
    }
}

// The commit: the precise text, or else the value of `Rev`.
fn commit(source: &SourceId) -> Option<&str>
    ensures { option_copied result ≡ commit_of source.now }
{
    match source.precise() {
        Some(precise) => Some(precise),
        None => revision(source.kind()),
    }
}

// The value of `Rev`.
fn revision(kind: &SourceKind) -> Option<&str>
    ensures { option_copied result ≡ rank.revision (kind_of kind.now) }
{
    match kind {
        SourceKind::Git(GitReference::Rev(text)) => Some(text.as_str()),
        _ => None,
    }
}
