//! The references that a merge moved.

ghost use Rattle.std.specs.Prelude.{◌≡◌, ◌⊎◌, IfOk, IsOkUnless, map, string_bytes};
ghost use Rattle.std.specs.Bool.{Decides};
ghost use Rattle.cargo_lock_parts.specs.declared.error.Error.TheVariants.{Memory};
ghost use Rattle.cargo_lock_merge_core.specs.Kept.{AreInPlace};
ghost use Rattle.cargo_lock_merge_core.specs.Merged.{merged_data};
ghost use Rattle.cargo_lock_merge_core.specs.Moved.{AreListedPackages};
ghost use Rattle.cargo_lock_merge_core.specs.Numbered.{all_data};
ghost use Rattle.cargo_lock_merge.specs.Lines.{moved_lines};
ghost use Rattle.cargo_lock_merge.specs.Moved.{AreMarkedMoved, AreMovedReferences, AreNamedMoved};
ghost use Rattle.cargo_lock_merge.specs.Moved.{HasNamesake};

use crate::order::{Ordered, put_in_order};
use crate::words::{SourceBehind, WithCommit};
use cargo_lock_graph::versions::Versions;
use cargo_lock_merge_core::merged::Merged;
use cargo_lock_merge_core::moved::{Moved as Found, Reference, moved_references};
use cargo_lock_merge_core::placed::Placed;
use cargo_lock_order::{dependency_order, package_order};
use cargo_lock_parts::dependency::Dependency;
use cargo_lock_parts::error::Result;
use cargo_lock_parts::package::Package;
use std::alloc::{AllocError, Global};
use std::cmp::Ordering;
use std::fmt;

/// A reference that a merge moved: a merged package depends on another one with a source, and
/// neither side has this dependency.
#[derive(Clone, Copy)]
pub struct Moved<'a> {
    pub(crate) found: Found<'a>,
    with_sources: bool,
}

impl<'a> Moved<'a> {
    /// The reference, between a package of a side with the identity of each merged one.
    pub fn merged(&self) -> Reference<'a>
        ensures { result ≡ self.now.found.merged }
    {
        self.found.merged
    }

    /// The reference that ours has between the packages at the places of the merged ones, if it has
    /// one.
    pub fn ours(&self) -> Option<Reference<'a>>
        ensures { result ≡ self.now.found.ours }
    {
        self.found.ours
    }

    /// The one that theirs has.
    pub fn theirs(&self) -> Option<Reference<'a>>
        ensures { result ≡ self.now.found.theirs }
    {
        self.found.theirs
    }
}

/// The references that a merge moved, in the order of the packages. The one error is `Memory`.
pub(crate) fn moved_of<'a>(
    alloc: Global,
    merged: &[Merged<'a>],
    ours: &[Placed<'a, '_>],
    theirs: &[Placed<'a, '_>],
    packages: &[Package],
) -> Result<Vec<Moved<'a>>>
    requires merged { AreInPlace merged.now }
    requires ours { AreListedPackages (all_data ours.now) }
    requires theirs { AreListedPackages (all_data theirs.now) }
    ensures ok { IfOk result (λ all. AreMovedReferences (all_data ours.now) (all_data theirs.now)
        (map merged_data merged.now) packages.now all.items) }
    ensures err { IsOkUnless result Memory }
{
    let found = moved_references(alloc, merged, ours, theirs)?;
    let mut named = with_identities(alloc, &found)?;
    put_in_order(alloc, &mut named)?;
    Ok(marked(alloc, &named, packages)?)
}

/// The lines of moved references, as standard error of the program has them.
pub fn moved_lines(alloc: Global, moved: &[Moved<'_>]) -> std::result::Result<String, AllocError>
    ensures { IfOk result (λ lines. string_bytes lines ≡ moved_lines moved.now) }
{
    let mut lines = String::new(alloc);
    for one in moved {
        let line = format!(in alloc; "{one}\n")?;
        lines.push_str(line.as_str())?;
    }
    Ok(lines)
}

// A reference with the identities of its merged packages.
#[derive(Drop)]
struct Named<'a> {
    found: Found<'a>,
    from: Dependency,
    to: Dependency,
}

impl Ordered for Named<'_> {
    ghost use Rattle.cargo_lock_merge.specs.Order.{named_order};

    ghost order = { named_order };

    fn order(&self, alloc: Global, other: &Self) -> std::result::Result<Ordering, AllocError> {
        let order = package_order(alloc, self.found.merged.from, other.found.merged.from)?;
        if order != Ordering::Equal {
            return Ok(order);
        }
        dependency_order(alloc, &self.to, &other.to)
    }
}

// The references with their identities.
fn with_identities<'a>(alloc: Global, found: &[Found<'a>]) -> Result<Vec<Named<'a>>>
    ensures ok { IfOk result (λ all. AreNamedMoved found.now all.items) }
    ensures err { IsOkUnless result Memory }
{
    let mut all = Vec::with_capacity(alloc, found.len())?;
    for one in found {
        let from = Dependency::of(one.merged.from)?;
        let to = Dependency::of(one.merged.to)?;
        all.push(Named {
            found: *one,
            from,
            to,
        })?;
    }
    Ok(all)
}

// The references, each with whether its line has sources.
fn marked<'a, 'd>(
    alloc: Global,
    named: &'d [Named<'a>],
    packages: &'d [Package],
) -> std::result::Result<Vec<Moved<'a>>, AllocError>
    ensures { IfOk result (λ all. AreMarkedMoved packages.now named.now all.items) }
{
    let versions = Versions::of(alloc, packages)?;
    let mut all = Vec::with_capacity(alloc, named.len())?;
    for one in named {
        all.push(Moved {
            found: one.found,
            with_sources: have_namesake(&versions, one),
        })?;
    }
    Ok(all)
}

// Whether another package has the name and the version of one of the two.
fn have_namesake<'a, 'd>(versions: &Versions<'d>, one: &'d Named<'a>) -> bool
    ensures { Decides result
        (HasNamesake versions.now one.now.from ⊎ HasNamesake versions.now one.now.to) }
{
    has_namesake(versions, &one.from) || has_namesake(versions, &one.to)
}

// Whether several packages have the name and the version of the identity.
fn has_namesake<'d>(versions: &Versions<'d>, identity: &'d Dependency) -> bool
    ensures { Decides result (HasNamesake versions.now identity.now) }
{
    match versions.last(identity) {
        Some(at) => versions.before(at).is_some(),
        None => false,
    }
}

impl fmt::Display for Moved<'_> {
    ghost use Rattle.std.specs.Prelude.{Some};
    ghost use Rattle.cargo_lock_merge.specs.Lines.{moved_line};

    ghost output = { λ moved. Some (moved_line moved) };

    fn fmt<W: fmt::Write>(&self, f: &mut fmt::Formatter<W>) -> fmt::Result {
        let reference = ReferenceText(self.found.merged, self.with_sources);
        let before = Before(self.found.ours, self.found.theirs);
        write!(f, "moved: {reference}{before}")
    }
}

// Both packages of a reference, each with its source if that is asked.
#[derive(Clone, Copy)]
struct ReferenceText<'a>(Reference<'a>, bool);

impl fmt::Display for ReferenceText<'_> {
    ghost use Rattle.std.specs.Prelude.{Some};
    ghost use Rattle.cargo_lock_merge.specs.Lines.{moved_text};

    ghost output = { λ shown. Some (moved_text shown.0 shown.1) };

    fn fmt<W: fmt::Write>(&self, f: &mut fmt::Formatter<W>) -> fmt::Result {
        let ReferenceText(reference, with_sources) = *self;
        let Reference { from, to } = reference;
        let from_text = WithCommit(from);
        let to_text = WithCommit(to);
        if with_sources {
            let from_source = SourceBehind(&from.source);
            let to_source = SourceBehind(&to.source);
            return write!(f, "{from_text}{from_source} on {to_text}{to_source}");
        }
        write!(f, "{from_text} on {to_text}")
    }
}

// The references that the sides have at the places of a moved one, in round brackets.
#[derive(Clone, Copy)]
struct Before<'a>(Option<Reference<'a>>, Option<Reference<'a>>);

impl fmt::Display for Before<'_> {
    ghost use Rattle.std.specs.Prelude.{Some};
    ghost use Rattle.cargo_lock_merge.specs.Lines.{before_text};

    ghost output = { λ shown. Some (before_text shown.0 shown.1) };

    fn fmt<W: fmt::Write>(&self, f: &mut fmt::Formatter<W>) -> fmt::Result {
        let Before(ours, theirs) = *self;
        match (ours, theirs) {
            (None, None) => Ok(()),
            (Some(ours), None) => {
                let ours = ReferenceText(ours, false);
                write!(f, " (ours: {ours})")
            }
            (None, Some(theirs)) => {
                let theirs = ReferenceText(theirs, false);
                write!(f, " (theirs: {theirs})")
            }
            (Some(ours), Some(theirs)) => {
                let ours = ReferenceText(ours, false);
                let theirs = ReferenceText(theirs, false);
                write!(f, " (ours: {ours}, theirs: {theirs})")
            }
        }
    }
}
