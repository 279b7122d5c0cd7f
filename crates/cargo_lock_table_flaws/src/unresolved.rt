//! References of packages that resolve to nothing.

ghost use Rattle.std.specs.Prelude.{◌≡◌, ◌++◌, [], IfOk, OnOk, is_some, map, option_map};
ghost use Rattle.cargo_lock_encoding.specs.Means.{reading_list};
ghost use Rattle.cargo_lock_references.specs.Records.{encoded_identity};
ghost use Rattle.cargo_lock_references.specs.ResolutionSearch.{resolution_of};
ghost use Rattle.cargo_lock_table_flaws.specs.declared.finding.Role.TheVariants.{FullDependency};
ghost use Rattle.cargo_lock_table_flaws.specs.Finding.{table_finding_of};
ghost use Rattle.cargo_lock_table_flaws.specs.Unresolved as spec;
ghost use Rattle.cargo_lock_table_flaws.specs.Unresolved.{unresolved_dependencies, unresolved_in};
ghost use Rattle.cargo_lock_table_flaws.specs.Unresolved.{unresolved_of, unresolved_of_each};
ghost use Rattle.cargo_lock_table_flaws.specs.Unresolved.{unresolved_of_root, role_in};
ghost use Rattle.cargo_lock_table_flaws.specs.Unresolved.{unresolved_replacement};

use crate::finding::{Place, Role, TableFinding};
use cargo_lock_encoding::EncodableLockfile;
use cargo_lock_references::index::Indexed;
use cargo_lock_references::resolution::dependency_among;
use cargo_lock_references::{EncodableDependency, EncodablePackage, ResolveVersion};
use std::alloc::{AllocError, Global};

// The findings so far.
type Found<'a> = Vec<TableFinding<'a>>;

/// The references of values that resolve to nothing in a format, in order. Fails when out of
/// memory.
#[tactic(auto, unfolding(crate::specs::Unresolved::unresolved_references))]
pub(crate) fn unresolved_references<'a>(
    alloc: Global,
    format: ResolveVersion,
    values: &'a EncodableLockfile,
) -> Result<Found<'a>, AllocError>
    ensures { IfOk result (λ found. map table_finding_of found.items
        ≡ spec.unresolved_references format values.now) }
{
    let mut found = Vec::new(alloc);
    put_listed(alloc, &mut found, format, values.package.as_slice())?;
    put_root(alloc, &mut found, &values.root)?;
    Ok(found)
}

// Adds the references of the packages, which are in full in V1.
fn put_listed<'a>(
    alloc: Global,
    found: &mut Found<'a>,
    format: ResolveVersion,
    listed: &'a [EncodablePackage],
) -> Result<(), AllocError>
    ensures { OnOk result (map table_finding_of found.new.items ≡ map table_finding_of
        found.old.items ++ unresolved_of_each
        (reading_list format (map encoded_identity listed.now)) (role_in format) 1 listed.now) }
{
    match format {
        ResolveVersion::V1 => {
            put_each(
                alloc,
                found,
                &Indexed::empty(alloc),
                Role::FullDependency,
                listed,
            )
        }
        ResolveVersion::V2 | ResolveVersion::V3 | ResolveVersion::V4 => {
            put_among(alloc, found, listed)
        }
    }
}

// Adds the references of packages, which are among these.
fn put_among<'a>(
    alloc: Global,
    found: &mut Found<'a>,
    listed: &'a [EncodablePackage],
) -> Result<(), AllocError>
    ensures { OnOk result (map table_finding_of found.new.items
        ≡ map table_finding_of found.old.items ++ unresolved_of_each
        (map encoded_identity listed.now) (role_in ResolveVersion.V2) 1 listed.now) }
{
    let list = Indexed::of(alloc, listed)?;
    put_each(alloc, found, &list, Role::Dependency, listed)
}

// Adds the references of the root, which are in full.
fn put_root<'a>(
    alloc: Global,
    found: &mut Found<'a>,
    root: &'a Option<EncodablePackage>,
) -> Result<(), AllocError>
    ensures { OnOk result (map table_finding_of found.new.items
        ≡ map table_finding_of found.old.items ++ unresolved_of_root root.now) }
{
    match root {
        Some(root) => put_one(
            alloc,
            found,
            &Indexed::empty(alloc),
            Role::FullDependency,
            Place::Root,
            root,
        ),
        None => Ok(()),
    }
}

fn put_each<'a>(
    alloc: Global,
    found: &mut Found<'a>,
    list: &Indexed<'_, EncodablePackage>,
    role: Role,
    listed: &'a [EncodablePackage],
) -> Result<(), AllocError>
    ensures { OnOk result (map table_finding_of found.new.items ≡ map table_finding_of
        found.old.items
        ++ unresolved_of_each (map encoded_identity list.now) role 1 listed.now) }
{
    for (place, one) in listed.iter().enumerate() {
        put_one(alloc, found, list, role, Place::Listed(place + 1), one)?;
    }
    Ok(())
}

// Adds the references of the package at a place.
fn put_one<'a>(
    alloc: Global,
    found: &mut Found<'a>,
    list: &Indexed<'_, EncodablePackage>,
    role: Role,
    place: Place,
    one: &'a EncodablePackage,
) -> Result<(), AllocError>
    ensures { OnOk result (map table_finding_of found.new.items
        ≡ map table_finding_of found.old.items
        ++ unresolved_of (map encoded_identity list.now) role place one.now) }
{
    put_dependencies(found, list, role, place, one, one.dependencies.as_slice())?;
    put_replacement(alloc, found, place, one, &one.replace)
}

// Adds the dependencies of a package.
fn put_dependencies<'a>(
    found: &mut Found<'a>,
    list: &Indexed<'_, EncodablePackage>,
    role: Role,
    place: Place,
    one: &'a EncodablePackage,
    references: &'a [EncodableDependency],
) -> Result<(), AllocError>
    ensures { OnOk result (map table_finding_of found.new.items
        ≡ map table_finding_of found.old.items ++ unresolved_dependencies
        (map encoded_identity list.now) role place one.now references.now) }
{
    for reference in references {
        put_unless_resolved(found, list, role, place, one, reference)?;
    }
    Ok(())
}

// Adds the replacement of a package, which is in full.
fn put_replacement<'a>(
    alloc: Global,
    found: &mut Found<'a>,
    place: Place,
    one: &'a EncodablePackage,
    replace: &'a Option<EncodableDependency>,
) -> Result<(), AllocError>
    requires { replace.now ≡ one.now.replace }
    ensures { OnOk result (map table_finding_of found.new.items
        ≡ map table_finding_of found.old.items ++ unresolved_replacement place one.now) }
{
    match replace {
        Some(reference) => {
            put_unless_resolved(
                found,
                &Indexed::empty(alloc),
                Role::Replacement,
                place,
                one,
                reference,
            )
        }
        None => Ok(()),
    }
}

// Adds a reference of a package, unless it resolves in the list.
fn put_unless_resolved<'a>(
    found: &mut Found<'a>,
    list: &Indexed<'_, EncodablePackage>,
    role: Role,
    place: Place,
    one: &'a EncodablePackage,
    reference: &'a EncodableDependency,
) -> Result<(), AllocError>
    ensures { OnOk result (map table_finding_of found.new.items
        ≡ map table_finding_of found.old.items
        ++ unresolved_in (map encoded_identity list.now) place one.now role reference.now) }
{
    if !does_resolve(list, reference)? {
        found.push(TableFinding::Unresolved(place, one, reference, role))?;
    }
    Ok(())
}

fn does_resolve(
    list: &Indexed<'_, EncodablePackage>,
    reference: &EncodableDependency,
) -> Result<bool, AllocError>
    ensures { IfOk result (λ found. found
        ≡ is_some (resolution_of reference.now (map encoded_identity list.now))) }
{
    let found = dependency_among(&reference.by_ref(), list)?;
    Ok(found.is_some())
}
