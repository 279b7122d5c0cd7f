//! Where packages come from, as differences compare it.

ghost use Rattle.std.specs.Prelude.{◌≡◌};
ghost use Rattle.std.specs.Option.{option_cmp};
ghost use Rattle.cargo_lock_parts.specs.Source.{DefaultBranch, Git, kind_of};
ghost use Rattle.cargo_lock_parts.specs.SourceKey.{kind_cmp};
ghost use Rattle.cargo_lock_diff.specs.Place.{named_kind, origin_cmp, others_cmp, place_cmp};
ghost use Rattle.cargo_lock_diff.specs.Place.{placed_identity_cmp, repository_cmp, sources_cmp};

use cargo_lock_parts::dependency::Dependency;
use cargo_lock_parts::laws::kinds_compare_in_order;
use cargo_lock_parts::package::{GitReference, SourceId, SourceKind};
use std::cmp::Ordering;

// How sources are compared: whole, without the commit, or as dependencies name them.
#[derive(Clone, Copy)]
enum Sight {
    AsPlace,
    AsOrigin,
    AsNamed,
}

/// The order of two sources by place, an absent one before a present one. The registry of crates.io
/// is the same place by either of its two indexes and is before the other sources, which compare by
/// their keys.
pub fn cmp_places(one: &Option<SourceId>, other: &Option<SourceId>) -> Ordering
    ensures { result ≡ option_cmp place_cmp one.now other.now }
{
    cmp_sources(one, other, Sight::AsPlace)
}

/// The order of two sources by origin: by place, without the commit of a repository.
pub fn cmp_origins(one: &Option<SourceId>, other: &Option<SourceId>) -> Ordering
    ensures { result ≡ option_cmp origin_cmp one.now other.now }
{
    cmp_sources(one, other, Sight::AsOrigin)
}

/// The order of two sources as dependencies name them: by origin, with the branch `master` as the
/// default branch, as which it was written before V3.
pub fn cmp_named(one: &Option<SourceId>, other: &Option<SourceId>) -> Ordering
    ensures { result ≡ option_cmp (sources_cmp Sight.AsNamed) one.now other.now }
{
    cmp_sources(one, other, Sight::AsNamed)
}

// The order of two sources.
fn cmp_sources(one: &Option<SourceId>, other: &Option<SourceId>, sight: Sight) -> Ordering
    ensures { result ≡ option_cmp (sources_cmp sight) one.now other.now }
{
    match (one, other) {
        (None, None) => Ordering::Equal,
        (None, Some(_)) => Ordering::Less,
        (Some(_), None) => Ordering::Greater,
        (Some(one), Some(other)) => cmp_present(one, other, sight),
    }
}

// The order of two present sources.
fn cmp_present(one: &SourceId, other: &SourceId, sight: Sight) -> Ordering
    ensures { result ≡ sources_cmp sight one.now other.now }
{
    match (one.is_default_registry(), other.is_default_registry()) {
        (true, true) => Ordering::Equal,
        (true, false) => Ordering::Less,
        (false, true) => Ordering::Greater,
        (false, false) => cmp_others(one, other, sight),
    }
}

// The order of two sources other than crates.io.
fn cmp_others(one: &SourceId, other: &SourceId, sight: Sight) -> Ordering
    ensures { result ≡ others_cmp sight one.now other.now }
{
    match sight {
        Sight::AsPlace => one.cmp(other),
        Sight::AsOrigin => cmp_repositories(one, other),
        Sight::AsNamed => cmp_named_repositories(one, other),
    }
}

// The order by URL, kind and reference.
fn cmp_repositories(one: &SourceId, other: &SourceId) -> Ordering
    ensures { result ≡ repository_cmp (λ kind. kind) one.now other.now }
{
    one.url()
        .cmp(other.url())
        .then(kinds_compare_in_order(one.kind(), other.kind()))
}

// The order by URL, kind and reference, with the branch `master` as the default branch.
fn cmp_named_repositories(one: &SourceId, other: &SourceId) -> Ordering
    ensures { result ≡ repository_cmp named_kind one.now other.now }
{
    one.url()
        .cmp(other.url())
        .then(cmp_named_kinds(one.kind(), other.kind()))
}

// The order of two kinds, with the branch `master` as the default branch.
fn cmp_named_kinds(one: &SourceKind, other: &SourceKind) -> Ordering
    ensures { result ≡ kind_cmp (named_kind (kind_of one.now)) (named_kind (kind_of other.now)) }
{
    let default = SourceKind::Git(GitReference::DefaultBranch);
    kinds_compare_in_order(named(one, &default), named(other, &default))
}

// The kind by which a dependency names a repository: the default one for the branch `master`.
fn named<'a>(kind: &'a SourceKind, default: &'a SourceKind) -> &'a SourceKind
    requires { kind_of default.now ≡ Git DefaultBranch }
    ensures { kind_of result.now ≡ named_kind (kind_of kind.now) }
{
    match kind {
        SourceKind::Git(GitReference::Branch(text)) if text.as_str() == "master" => default,
        _ => kind,
    }
}

/// The order of two replacements by name, version and place, an absent one before a present one.
pub fn cmp_replacements(one: &Option<Dependency>, other: &Option<Dependency>) -> Ordering
    ensures { result ≡ option_cmp placed_identity_cmp one.now other.now }
{
    match (one, other) {
        (None, None) => Ordering::Equal,
        (None, Some(_)) => Ordering::Less,
        (Some(_), None) => Ordering::Greater,
        (Some(one), Some(other)) => cmp_dependencies(one, other),
    }
}

// The order of two dependencies by name, version and place.
fn cmp_dependencies(one: &Dependency, other: &Dependency) -> Ordering
    ensures { result ≡ placed_identity_cmp one.now other.now }
{
    one.name
        .cmp(&other.name)
        .then(one.version.cmp(&other.version))
        .then(cmp_places(&one.source, &other.source))
}
