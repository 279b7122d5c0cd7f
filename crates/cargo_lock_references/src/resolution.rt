//! The dependency to which a reference resolves among packages.

ghost use Rattle.std.specs.Prelude.{◌≡◌, ◌↔◌, ◌⊎◌, ◌++◌, List, None, IfErr, IfOk, IsOk, IsSome};
ghost use Rattle.std.specs.Prelude.{codes, map, option_copied, option_map};
ghost use Rattle.std.specs.List.{find};
ghost use Rattle.cargo_lock_parts.specs.declared.error.Error.TheVariants.{Memory};
ghost use Rattle.cargo_lock_parts.specs.Error.{IsParse, IsParseOrMemory, Reads};
ghost use Rattle.cargo_lock_references.specs.Records.{unmarked_source, encoded_identity};
ghost use Rattle.cargo_lock_references.specs.ResolutionSearch.{fits, own_words, resolution_of};

use crate::identified::{Identified, copy_source, identity};
use crate::index::Indexed;
use crate::{EncodableDependency, EncodableDependencyRef, EncodablePackage};
use cargo_lock_parts::dependency::Dependency;
use cargo_lock_parts::error::{Error, Result};
use cargo_lock_parts::package::source::SourceIdAsUrl;
use cargo_lock_parts::package::{Name, SourceId};
use std::alloc::{AllocError, Global};

/// The dependency to which a reference resolves: without a source the first item that it matches;
/// with a source, or if it matches no item, its own parts. It is `None` if these have no version.
/// Fails when out of memory.
pub fn dependency_among<T: Identified>(
    reference: &EncodableDependencyRef<'_>,
    list: &Indexed<'_, T>,
) -> std::result::Result<Option<Dependency>, AllocError>
    ensures { IfOk result (λ found. found ≡ resolution_of reference.now (map T.identity list.now)) }
{
    dependency_by_first(reference, list.first_fit(reference))
}

/// The same, with `first`, the first item that the reference matches, already found. Fails when out
/// of memory.
pub fn dependency_by_first<T: Identified>(
    reference: &EncodableDependencyRef<'_>,
    first: Option<&T>,
) -> std::result::Result<Option<Dependency>, AllocError>
    ensures { (list : List T) → option_copied first.entry ≡ find
        (λ x. fits reference.now (T.identity x)) list
        → IfOk result (λ found. found ≡ resolution_of reference.now (map T.identity list)) }
{
    if reference.source.is_some() {
        return own_dependency(reference);
    }
    match first {
        Some(item) => Ok(Some(identity(item)?)),
        None => own_dependency(reference),
    }
}

/// The same as `dependency_among`, of a reference that is not used again: where an item matches it,
/// the dependency has the reference's own copy of the name. Fails when out of memory.
pub fn into_dependency<T: Identified>(
    reference: EncodableDependency,
    list: &Indexed<'_, T>,
) -> std::result::Result<Option<Dependency>, AllocError>
    ensures { IfOk result (λ found. found ≡ resolution_of reference (map T.identity list.now)) }
{
    let borrowed = reference.by_ref();
    let first = list.first_fit(&borrowed);
    if borrowed.source.is_some() {
        return dependency_by_first(&borrowed, first);
    }
    match first {
        Some(item) => Ok(Some(named(reference.name, item)?)),
        None => own_dependency(&borrowed),
    }
}

// The identity of an item, with this copy of its name.
fn named<T: Identified>(name: Name, item: &T) -> std::result::Result<Dependency, AllocError>
    ensures { name ≡ (T.identity item.now).name → IfOk result (λ copy. copy ≡ T.identity item.now) }
{
    Ok(Dependency {
        name,
        version: item.version().clone()?,
        source: copy_source(item.source())?,
    })
}

/// The reference's own parts as a dependency, if a version is written. Fails when out of memory.
pub fn own_dependency(
    reference: &EncodableDependencyRef<'_>,
) -> std::result::Result<Option<Dependency>, AllocError>
    ensures { IfOk result (λ found. found ≡ own_words reference.now) }
{
    match reference.version {
        Some(version) => Ok(Some(Dependency {
            name: reference.name.clone()?,
            version: version.clone()?,
            source: copy_source(without_mark(&reference.source))?,
        })),
        None => Ok(None),
    }
}

fn without_mark<'a>(source: &'a Option<SourceIdAsUrl<'_>>) -> Option<&'a SourceId>
    ensures { option_map (λ s. s.now) result ≡ unmarked_source source.now }
{
    match source {
        Some(source) => Some(source.source()),
        None => None,
    }
}

/// The dependency to which a reference of a table resolves among the packages of the table. `Parse`
/// means that it resolves to none. The other error is `Memory`.
pub fn resolve_among(
    alloc: Global,
    reference: &EncodableDependency,
    list: &Indexed<'_, EncodablePackage>,
) -> Result<Dependency>
    ensures { Reads (λ d. d) result (resolution_of reference.now (map encoded_identity list.now)) }
{
    let found = dependency_among(&reference.by_ref(), list)?;
    require(alloc, &reference.name, found)
}

/// The dependency that was found for a reference of this name, which allocates nothing. `Parse`
/// means that none was found, and names the reference; if memory for that text runs out, the error
/// is `Memory`.
pub fn require(alloc: Global, name: &Name, found: Option<Dependency>) -> Result<Dependency>
    ensures read { Reads (λ d. d) result found }
    ensures accepted { IsOk result ↔ IsSome found }
    ensures refused { found ≡ None → IfErr result (λ fault. (fault ≡ Memory)
        ⊎ IsParse fault (codes "couldn't resolve dependency: " ++ name.now)) }
{
    match found {
        Some(dependency) => Ok(dependency),
        None => Err(resolution_refusal(alloc, name)),
    }
}

// The error for a reference that needs a version.
fn resolution_refusal(alloc: Global, name: &Name) -> Error
    ensures kind { IsParseOrMemory result }
    ensures text { (result ≡ Memory)
        ⊎ IsParse result (codes "couldn't resolve dependency: " ++ name.now) }
{
    Error::parse(format!(in alloc; "couldn't resolve dependency: {name}"))
}
