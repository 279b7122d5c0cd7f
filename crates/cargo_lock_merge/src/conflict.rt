//! What the two sides are in conflict about.

ghost use Rattle.std.specs.Prelude.{◌≡◌, ◌++◌, ℕ, IfOk, IsOkUnless, OnOk, is_some, map, option_map};
ghost use Rattle.cargo_lock_parts.specs.declared.error.Error.TheVariants.{Memory};
ghost use Rattle.cargo_lock_merge_core.specs.Merge.{Triple, lockfiles_of};
ghost use Rattle.cargo_lock_merge_core.specs.Merged.{HasPlan};
ghost use Rattle.cargo_lock_merge.specs.Conflict.{AreConflictsAtPlaces, AreConflictsOf};
ghost use Rattle.cargo_lock_merge.specs.declared.conflict.Conflict.TheVariants.{AtPlace, OfSource};
ghost use Rattle.cargo_lock_merge.specs.Lines.{absent, two_checksums_line, checksum_of_side};
ghost use Rattle.cargo_lock_merge.specs.Lines.{side_checksum, commit_value, commit_values, line_of};
ghost use Rattle.cargo_lock_merge.specs.Lines.{other_commit_line};
ghost use Rattle.cargo_lock_merge.specs.Lines.{replacement_value, same_if};
ghost use Rattle.cargo_lock_merge.specs.declared.words.Value.TheVariants.{Version};

use crate::words::{BareSource, Value, Values};
use cargo_lock_display::NameVersion;
use cargo_lock_merge_core::commits::{Commits, SourceCommits};
use cargo_lock_merge_core::conflicts::{Conflict as PlaceConflict, Kind, conflicts};
use cargo_lock_merge_core::disputes::disputes;
use cargo_lock_merge_core::placed::{are_same, cmp_identities};
use cargo_lock_merge_core::plan::Plan;
use cargo_lock_parts::error::Result;
use cargo_lock_parts::package::{Package, SourceId};
use printing::Shown;
use std::alloc::{AllocError, Global};
use std::cmp::Ordering;
use std::fmt;

/// What the two sides are in conflict about.
#[derive(Clone, Copy)]
pub enum Conflict<'a> {
    /// What is at a place: the package, its checksum or its replacement.
    AtPlace(PlaceConflict<'a>),

    /// The commit of a git source.
    OfSource(SourceCommits<'a>),
}

/// All conflicts, those at places in the order of their packages, and then those of sources. The one
/// error is `Memory`.
pub(crate) fn conflicts_of<'a, 'd>(
    alloc: Global,
    commits: &Commits<'a, 'd>,
    plan: &Plan<'a, 'd>,
) -> Result<Vec<Conflict<'a>>>
    ensures ok { IfOk result (λ all. (s : Triple ℕ) → HasPlan s plan.now
        → commits.now ≡ lockfiles_of s → AreConflictsOf s all.items) }
    ensures err { IsOkUnless result Memory }
{
    let at_places = conflicts_at_places(alloc, commits, plan)?;
    let mut sources = disputes(alloc, commits, plan)?;
    sources.sort_by(|one, other| one.source.cmp(other.source))?;
    Ok(joined(alloc, &at_places, &sources)?)
}

// The conflicts at places, in the order of their packages.
fn conflicts_at_places<'a, 'd>(
    alloc: Global,
    commits: &Commits<'a, 'd>,
    plan: &Plan<'a, 'd>,
) -> Result<Vec<PlaceConflict<'a>>>
    ensures ok { IfOk result (λ all. (s : Triple ℕ) → HasPlan s plan.now
        → commits.now ≡ lockfiles_of s → AreConflictsAtPlaces s all.items) }
    ensures err { IsOkUnless result Memory }
{
    let mut all = conflicts(alloc, commits, plan, Kind::Package)?;
    all.extend_from_slice(&conflicts(alloc, commits, plan, Kind::Checksum)?)?;
    all.extend_from_slice(&conflicts(alloc, commits, plan, Kind::Replacement)?)?;
    all.sort_by(|one, other| cmp_conflicts(one, other))?;
    Ok(all)
}

// The order of the packages of two conflicts: ours, or theirs where we have none.
pub(crate) fn cmp_conflicts(one: &PlaceConflict, other: &PlaceConflict) -> Ordering {
    match (one.ours.or(one.theirs), other.ours.or(other.theirs)) {
        (Some(one), Some(other)) => cmp_identities(one, other),
        _ => Ordering::Equal,
    }
}

// All of them.
fn joined<'a>(
    alloc: Global,
    at_places: &[PlaceConflict<'a>],
    sources: &[SourceCommits<'a>],
) -> std::result::Result<Vec<Conflict<'a>>, AllocError>
    ensures { IfOk result (λ all. all.items
        ≡ map AtPlace at_places.now ++ map OfSource sources.now) }
{
    let mut all = Vec::with_capacity(alloc, at_places.len())?;
    put_at_places(&mut all, at_places)?;
    put_sources(&mut all, sources)?;
    Ok(all)
}

fn put_at_places<'a>(
    all: &mut Vec<Conflict<'a>>,
    at_places: &[PlaceConflict<'a>],
) -> std::result::Result<(), AllocError>
    ensures { OnOk result (all.new.items ≡ all.old.items ++ map AtPlace at_places.now) }
{
    for one in at_places {
        all.push(Conflict::AtPlace(*one))?;
    }
    Ok(())
}

fn put_sources<'a>(
    all: &mut Vec<Conflict<'a>>,
    sources: &[SourceCommits<'a>],
) -> std::result::Result<(), AllocError>
    ensures { OnOk result (all.new.items ≡ all.old.items ++ map OfSource sources.now) }
{
    for one in sources {
        all.push(Conflict::OfSource(*one))?;
    }
    Ok(())
}

impl fmt::Display for Conflict<'_> {
    ghost use Rattle.std.specs.Prelude.{Some};
    ghost use Rattle.cargo_lock_merge.specs.Lines.{conflict_line};

    ghost output = { λ conflict. Some (conflict_line conflict) };

    fn fmt<W: fmt::Write>(&self, f: &mut fmt::Formatter<W>) -> fmt::Result {
        match *self {
            Conflict::AtPlace(conflict) => {
                let Line { subject, values } = line_of(conflict);
                write!(f, "conflict: {subject}: {values}")
            }
            Conflict::OfSource(commits) => {
                let source = BareSource(commits.source);
                let values = commit_values(commits.base, commits);
                write!(f, "conflict: {source}: {values}")
            }
        }
    }
}

// The parts of the line of a conflict at a place.
#[derive(Clone, Copy)]
struct Line<'a> {
    subject: Subject<'a>,
    values: Values<'a>,
}

// What a conflict at a place is about.
#[derive(Clone, Copy)]
enum Subject<'a> {
    // This package.
    Package(&'a Package),

    // The source of this package, which one side alone has.
    Source(&'a Package),

    // The checksum of this package.
    Checksum(&'a Package),

    // The replacement of this package.
    Replacement(&'a Package),

    // Nothing that a side has.
    Nothing,
}

impl fmt::Display for Subject<'_> {
    ghost use Rattle.std.specs.Prelude.{Some};
    ghost use Rattle.cargo_lock_merge.specs.Lines.{subject_text};

    ghost output = { λ subject. Some (subject_text subject) };

    fn fmt<W: fmt::Write>(&self, f: &mut fmt::Formatter<W>) -> fmt::Result {
        match *self {
            Subject::Package(package) => {
                let name = Shown(&package.name);
                write!(f, "{name}")
            }
            Subject::Source(package) => {
                let name = Shown(&package.name);
                write!(f, "source of {name}")
            }
            Subject::Checksum(package) => {
                let package = NameVersion(package);
                write!(f, "checksum of {package}")
            }
            Subject::Replacement(package) => {
                let package = NameVersion(package);
                write!(f, "replacement of {package}")
            }
            Subject::Nothing => f.write_str("none"),
        }
    }
}

// The parts of the line of a conflict.
fn line_of<'a>(conflict: PlaceConflict<'a>) -> Line<'a>
    ensures { result ≡ line_of conflict.entry }
{
    match (conflict.kind, conflict.ours, conflict.theirs) {
        (Kind::Package, Some(ours), Some(theirs)) => Line {
            subject: Subject::Package(ours),
            values: Values {
                old: version_if(conflict.base),
                ours: Value::Version(ours),
                theirs: Value::Version(theirs),
            },
        },
        (Kind::Package, Some(only), None) => source_line(only, conflict.source),
        (Kind::Package, None, Some(only)) => source_line(only, conflict.source),
        (Kind::Checksum, _, _) => two_checksums_line(conflict, conflict.chosen),
        (Kind::Replacement, Some(ours), Some(theirs)) => Line {
            subject: Subject::Replacement(ours),
            values: Values {
                old: replacement_if(same_if(conflict.base, ours)),
                ours: Value::Replacement(ours),
                theirs: Value::Replacement(theirs),
            },
        },
        _ => Line {
            subject: Subject::Nothing,
            values: absent(),
        },
    }
}

// The line of the checksums that the identity of the chosen package has.
fn two_checksums_line<'a>(conflict: PlaceConflict<'a>, chosen: Option<&'a Package>) -> Line<'a>
    ensures { result ≡ two_checksums_line conflict.entry chosen.entry }
{
    match chosen {
        Some(chosen) => Line {
            subject: Subject::Checksum(chosen),
            values: Values {
                old: checksum_if(same_if(conflict.base, chosen)),
                ours: side_checksum(same_if(conflict.ours, chosen)),
                theirs: side_checksum(same_if(conflict.theirs, chosen)),
            },
        },
        None => Line {
            subject: Subject::Nothing,
            values: absent(),
        },
    }
}

fn side_checksum<'a>(package: Option<&'a Package>) -> Value<'a>
    ensures { result ≡ side_checksum «package».entry }
{
    match package {
        Some(package) => Value::Checksum(package),
        None => Value::Absent,
    }
}

// The line of a package that one side alone has, at another commit of its source than the merged
// one.
fn source_line<'a>(only: &'a Package, source: Option<SourceCommits<'a>>) -> Line<'a>
    ensures { result ≡ other_commit_line only.entry source.entry }
{
    match source {
        Some(commits) => Line {
            subject: Subject::Source(only),
            values: commit_values(None, commits),
        },
        None => Line {
            subject: Subject::Source(only),
            values: absent(),
        },
    }
}

fn absent<'a>() -> Values<'a>
    ensures { result ≡ absent }
{
    Values {
        old: None,
        ours: Value::Absent,
        theirs: Value::Absent,
    }
}

// The commits of a source, after an old one.
fn commit_values<'a>(old: Option<&'a SourceId>, commits: SourceCommits<'a>) -> Values<'a>
    ensures { result ≡ commit_values old.entry commits.entry }
{
    Values {
        old: match old {
            Some(old) => Some(Value::Commit(old)),
            None => None,
        },
        ours: commit_if(commits.ours),
        theirs: commit_if(commits.theirs),
    }
}

fn commit_if<'a>(source: Option<&'a SourceId>) -> Value<'a>
    ensures { result ≡ commit_value source.entry }
{
    match source {
        Some(source) => Value::Commit(source),
        None => Value::Absent,
    }
}

fn version_if<'a>(package: Option<&'a Package>) -> Option<Value<'a>>
    ensures { result ≡ option_map Version «package».entry }
{
    match package {
        Some(package) => Some(Value::Version(package)),
        None => None,
    }
}

// The package, if it has the identity of another one.
fn same_if<'a>(package: Option<&'a Package>, other: &Package) -> Option<&'a Package>
    ensures { result ≡ same_if «package».entry other.now }
{
    match package {
        Some(package) => if are_same(package, other) {
            Some(package)
        } else {
            None
        },
        None => None,
    }
}

// The checksum of the package, if it has one.
fn checksum_if<'a>(package: Option<&'a Package>) -> Option<Value<'a>>
    ensures { result ≡ checksum_of_side «package».entry }
{
    match package {
        Some(package) => {
            if has_checksum(package) {
                Some(Value::Checksum(package))
            } else {
                None
            }
        }
        None => None,
    }
}

fn has_checksum(package: &Package) -> bool
    ensures { result ≡ is_some «package».now.checksum }
{
    package.checksum.is_some()
}

// The replacement of the package, if it has one.
fn replacement_if<'a>(package: Option<&'a Package>) -> Option<Value<'a>>
    ensures { result ≡ replacement_value «package».entry }
{
    match package {
        Some(package) => {
            if is_replaced(package) {
                Some(Value::Replacement(package))
            } else {
                None
            }
        }
        None => None,
    }
}

fn is_replaced(package: &Package) -> bool
    ensures { result ≡ is_some «package».now.replace }
{
    package.replace.is_some()
}
