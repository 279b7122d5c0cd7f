//! Requirements of advisories, from their texts.

ghost use Rattle.std.specs.Prelude.{◌≡◌, ◌↔◌, [], ◌∷◌, IfOk, IsTrue, Some, codes, map};
ghost use Rattle.std.specs.Result.{result_ok};
ghost use Rattle.semver.specs.Identifiers.{comparator_view, parts_of, pre_text};
ghost use Rattle.semver.specs.Parse.{memory_error, req_of};
ghost use Rattle.cargo_lock_parts.specs.Error.{IsParseOrMemory, Reads};
ghost use Rattle.cargo_lock_audit.specs.RequirementReading.{all_bounds, bound_of, bounds_alone};
ghost use Rattle.cargo_lock_audit.specs.RequirementReading.{bounds_of, caret_end, end_of, next};
ghost use Rattle.cargo_lock_audit.specs.RequirementReading.{lowest_of, range, relation_of};
ghost use Rattle.cargo_lock_audit.specs.RequirementReading.{requirement_of, tilde_end};
ghost use Rattle.cargo_lock_audit.specs.RequirementReading.{comparator_version};

use crate::requirement::{Bound, Relation, Requirement};
use cargo_lock_parts::error::{Error, Result};
use printing::Quoted;
use semver::{
    BuildMetadata, Comparator, Error as VersionError, Op, Prerelease, Version, VersionReq,
};
use std::alloc::{AllocError, Global};

impl Requirement {
    /// The requirement that a text is, as `>= 1.2.3, < 2.0.0`. A number that is left out is 0, and
    /// `^1.2.3` and `~1.2.3` are ranges that end before the lowest pre-release of the next version,
    /// `2.0.0-0` or `1.3.0-0`. `Parse` says that the text is none: `semver` does not read it, it
    /// has `*`, it has `^` or `~` beside another comparator, or the next number does not fit 64
    /// bits. The other error is `Memory`.
    ///
    /// ```
    /// let requirement = Requirement::parse(alloc, ">= 0.6.14, < 1.0.0")?;
    /// ```
    #[tactic(auto, unfolding(crate::specs::RequirementReading::requirement_of))]
    pub fn parse(alloc: Global, text: &str) -> Result<Requirement>
        ensures { Reads (λ r. r) result (requirement_of text.now) }
    {
        let comparators = comparators_of(alloc, text)?;
        let bounds = bounds_of(alloc, &comparators, text)?;
        let text = String::from_str(alloc, text)?;
        Ok(Requirement { text, bounds })
    }
}

// The comparators of a text.
fn comparators_of(alloc: Global, text: &str) -> Result<Vec<Comparator>>
    ensures { Reads (λ v. map comparator_view v.items) result (result_ok (req_of text.now)) }
{
    match VersionReq::parse(alloc, text) {
        Ok(VersionReq { comparators }) => Ok(comparators),
        Err(fault) if is_memory(&fault) => Err(Error::Memory),
        Err(_) => Err(no_requirement(alloc, text)),
    }
}

// Whether `semver` ran out of memory.
fn is_memory(fault: &VersionError) -> bool
    ensures { IsTrue result ↔ (fault.now ≡ memory_error) }
{
    *fault == VersionError::from(AllocError)
}

// The error for a text that is no requirement.
fn no_requirement(alloc: Global, text: &str) -> Error
    ensures { IsParseOrMemory result }
{
    let text = Quoted(text);
    Error::parse(format!(in alloc; "no requirement of an advisory: `{text}`"))
}

// The bounds of comparators, of which there is one or more.
fn bounds_of(alloc: Global, comparators: &[Comparator], text: &str) -> Result<Vec<Bound>>
    ensures { Reads (λ v. v.items) result (bounds_of (map comparator_view comparators.now)) }
{
    match comparators {
        [] => Err(no_requirement(alloc, text)),
        [only] => bounds_alone(alloc, only, text),
        _ => all_bounds(alloc, comparators, text),
    }
}

// The bounds of the only comparator.
fn bounds_alone(alloc: Global, only: &Comparator, text: &str) -> Result<Vec<Bound>>
    ensures { Reads (λ v. v.items) result (bounds_alone (comparator_view only.now)) }
{
    match end_of(only) {
        Some(end) => range(alloc, only, end),
        None => one_bound(alloc, only, text),
    }
}

// The bounds of a range: it begins at the version of a comparator, and ends before the lowest
// pre-release of the version with these numbers.
fn range(alloc: Global, comparator: &Comparator, end: Numbers) -> Result<Vec<Bound>>
    ensures { Reads (λ v. v.items) result
        (Some (range (comparator_version (comparator_view comparator.now)) (lowest_of end))) }
{
    let version = version_of(comparator)?;
    let start = Bound {
        relation: Relation::GreaterEq,
        version,
    };
    let version = lowest_of(alloc, end)?;
    let end = Bound {
        relation: Relation::Less,
        version,
    };
    both(alloc, start, end)
}

// Two bounds.
fn both(alloc: Global, first: Bound, second: Bound) -> Result<Vec<Bound>>
    ensures { Reads (λ v. v.items) result (Some (first ∷ second ∷ [])) }
{
    let mut bounds = Vec::with_capacity(alloc, 2)?;
    bounds.push(first)?;
    bounds.push(second)?;
    Ok(bounds)
}

// The bound of the only comparator, which has one.
fn one_bound(alloc: Global, only: &Comparator, text: &str) -> Result<Vec<Bound>>
    ensures { Reads (λ v. v.items) result (all_bounds (comparator_view only.now ∷ [])) }
{
    let bound = bound_of(alloc, only, text)?;
    let mut bounds = Vec::with_capacity(alloc, 1)?;
    bounds.push(bound)?;
    Ok(bounds)
}

// The bounds of comparators, each with one.
fn all_bounds(alloc: Global, comparators: &[Comparator], text: &str) -> Result<Vec<Bound>>
    ensures { Reads (λ v. v.items) result (all_bounds (map comparator_view comparators.now)) }
{
    let mut bounds = Vec::new(alloc);
    for comparator in comparators {
        let bound = bound_of(alloc, comparator, text)?;
        bounds.push(bound)?;
    }
    Ok(bounds)
}

// The bound of a comparator with one.
fn bound_of(alloc: Global, comparator: &Comparator, text: &str) -> Result<Bound>
    ensures { Reads (λ b. b) result (bound_of (comparator_view comparator.now)) }
{
    let Some(relation) = relation_of(comparator.op) else {
        return Err(no_requirement(alloc, text));
    };
    let version = version_of(comparator)?;
    Ok(Bound { relation, version })
}

// How versions in a comparator relate to its version, for the operators with one bound.
fn relation_of(op: Op) -> Option<Relation>
    ensures { result ≡ relation_of op }
{
    match op {
        Op::Exact => Some(Relation::Exact),
        Op::Greater => Some(Relation::Greater),
        Op::GreaterEq => Some(Relation::GreaterEq),
        Op::Less => Some(Relation::Less),
        Op::LessEq => Some(Relation::LessEq),
        Op::Tilde | Op::Caret | Op::Wildcard => None,
    }
}

// The version of a comparator.
fn version_of(comparator: &Comparator) -> std::result::Result<Version, AllocError>
    ensures { IfOk result (λ v. parts_of v ≡ comparator_version (comparator_view comparator.now)) }
{
    Ok(Version {
        major: comparator.major,
        minor: comparator.minor.unwrap_or(0),
        patch: comparator.patch.unwrap_or(0),
        pre: comparator.pre.clone()?,
        build: BuildMetadata::empty(),
    })
}

// The lowest pre-release of the version with these numbers.
fn lowest_of(alloc: Global, numbers: Numbers) -> std::result::Result<Version, AllocError>
    ensures { IfOk result (λ v. parts_of v ≡ lowest_of numbers) }
{
    let pre = lowest_pre_release(alloc)?;
    let (major, minor, patch) = numbers;
    Ok(Version {
        major,
        minor,
        patch,
        pre,
        build: BuildMetadata::empty(),
    })
}

// The pre-release before all others.
fn lowest_pre_release(alloc: Global) -> std::result::Result<Prerelease, AllocError>
    ensures { IfOk result (λ pre. pre_text pre ≡ codes "0") }
{
    match Prerelease::new(alloc, "0") {
        Ok(pre) => Ok(pre),
        Err(_) => Err(AllocError),
    }
}

// ---- where ranges end

// A major, a minor and a patch number.
type Numbers = (u64, u64, u64);

// Where the range of a comparator ends, if its operator has one and the numbers fit 64 bits.
fn end_of(comparator: &Comparator) -> Option<Numbers>
    ensures { result ≡ end_of (comparator_view comparator.now) }
{
    match comparator.op {
        Op::Tilde => tilde_end(comparator.major, comparator.minor),
        Op::Caret => caret_end(comparator.major, comparator.minor, comparator.patch),
        _ => None,
    }
}

// Where `~` ends.
fn tilde_end(major: u64, minor: Option<u64>) -> Option<Numbers>
    ensures { result ≡ tilde_end major minor }
{
    match minor {
        Some(minor) => next(minor).map(|minor| (major, minor, 0)),
        None => next(major).map(|major| (major, 0, 0)),
    }
}

// Where `^` ends.
fn caret_end(major: u64, minor: Option<u64>, patch: Option<u64>) -> Option<Numbers>
    ensures { result ≡ caret_end major minor patch }
{
    if major > 0 {
        return next(major).map(|major| (major, 0, 0));
    }
    let Some(minor) = minor else {
        return Some((1, 0, 0));
    };
    if minor > 0 {
        return next(minor).map(|minor| (0, minor, 0));
    }
    match patch {
        Some(patch) => next(patch).map(|patch| (0, 0, patch)),
        None => Some((0, 1, 0)),
    }
}

// The next number, if it fits 64 bits.
fn next(number: u64) -> Option<u64>
    ensures { result ≡ next number }
{
    number.checked_add(1)
}
