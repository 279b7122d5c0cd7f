//! Packages in JSON.

ghost use Rattle.std.specs.Prelude.{◌∷◌, [], codes, decimal, is_none, map};
ghost use Rattle.std.specs.Prelude.{if◌then◌else◌};
ghost use Rattle.std.specs.List.{flat_map};
ghost use Rattle.std.specs.Option.{option_to_list};
ghost use Rattle.json.specs.Json.{array};
ghost use Rattle.json.specs.Token.{key, number};
ghost use Rattle.json.specs.Tree.{json_tokens};
ghost use Rattle.cargo_lock_json.specs.Linked.{places, unresolved};
ghost use Rattle.cargo_lock_json.specs.Package.{listed_dependencies_json, listed_package_json};
ghost use Rattle.cargo_lock_json.specs.Package.{listed_package_or_null, places_json};
ghost use Rattle.cargo_lock_json.specs.Dependency.{listed_dependency_json};
ghost use Rattle.printing.specs.Json.{Adds, items_of};

use crate::dependency::{put_dependency, put_dependency_or_null};
use crate::linked::{Lead, Linked};
use cargo_lock_display::{begin_identity, put_digest_or_null, put_origin};
use cargo_lock_parts::dependency::Dependency;
use cargo_lock_parts::package::Package;
use printing::{JsonWriter, ToJson, write_array};
use std::alloc::AllocError;

// Writes the member with the packages.
pub(crate) fn put_packages(out: &mut JsonWriter, packages: &[Linked<'_>]) -> Result<(), AllocError>
    ensures { Adds result out.old out.new (key (codes "packages")
        ∷ json_tokens (array (items_of (map listed_package_json packages.now)))) }
{
    out.key("packages")?;
    write_array(out, packages)
}

impl ToJson for Linked<'_> {
    ghost use Rattle.cargo_lock_json.specs.Package.{listed_package_json};

    ghost json = { listed_package_json };

    fn write_json(&self, out: &mut JsonWriter) -> Result<(), AllocError> {
        put_parts(out, self.package, self.leads.as_slice())
    }
}

// Writes the member with the root, or null.
pub(crate) fn put_root(out: &mut JsonWriter, root: &Option<Linked<'_>>) -> Result<(), AllocError>
    ensures { Adds result out.old out.new (key (codes "root")
        ∷ json_tokens (listed_package_or_null root.now)) }
{
    out.key("root")?;
    match root {
        Some(root) => root.write_json(out),
        None => out.null(),
    }
}

#[tactic(auto, unfolding(crate::specs::Package::listed_package_json))]
fn put_parts(out: &mut JsonWriter, package: &Package, leads: &[Lead<'_>]) -> Result<(), AllocError>
    ensures { Adds result out.old out.new (json_tokens
        (listed_package_json (record { listed = «package».now; leads = leads.now }))) }
{
    begin_identity(out, &package.name, &package.version, &package.source)?;
    put_origin(out, &package.source)?;
    put_digest_or_null(out, "checksum", &package.checksum)?;
    put_dependencies_of(out, leads)?;
    put_unresolved_of(out, leads)?;
    out.key("replace")?;
    put_dependency_or_null(out, &package.replace)?;
    out.end_object()
}

// Writes the member with the places to which dependencies lead.
fn put_dependencies_of(out: &mut JsonWriter, leads: &[Lead<'_>]) -> Result<(), AllocError>
    ensures { Adds result out.old out.new (key (codes "dependencies")
        ∷ json_tokens (places_json (places leads.now))) }
{
    out.key("dependencies")?;
    put_places(out, leads)
}

fn put_places(out: &mut JsonWriter, leads: &[Lead<'_>]) -> Result<(), AllocError>
    ensures { Adds result out.old out.new (json_tokens (places_json (places leads.now))) }
{
    out.begin_array()?;
    for lead in leads {
        put_place(out, lead)?;
    }
    out.end_array()
}

// Writes the place to which a dependency leads, if it leads to one.
fn put_place(out: &mut JsonWriter, lead: &Lead<'_>) -> Result<(), AllocError>
    ensures { Adds result out.old out.new
        (flat_map (λ n. number (decimal n) ∷ []) (option_to_list lead.now.place)) }
{
    match lead.place {
        Some(place) => out.number(place as u64),
        None => Ok(()),
    }
}

// Writes the member with the dependencies that lead nowhere.
fn put_unresolved_of(out: &mut JsonWriter, leads: &[Lead<'_>]) -> Result<(), AllocError>
    ensures { Adds result out.old out.new (key (codes "unresolved")
        ∷ json_tokens (listed_dependencies_json (unresolved leads.now))) }
{
    out.key("unresolved")?;
    put_unresolved(out, leads)
}

fn put_unresolved(out: &mut JsonWriter, leads: &[Lead<'_>]) -> Result<(), AllocError>
    ensures { Adds result out.old out.new
        (json_tokens (listed_dependencies_json (unresolved leads.now))) }
{
    out.begin_array()?;
    for lead in leads {
        put_if_unresolved(out, lead)?;
    }
    out.end_array()
}

// Writes a dependency if it leads nowhere.
fn put_if_unresolved(out: &mut JsonWriter, lead: &Lead<'_>) -> Result<(), AllocError>
    ensures { Adds result out.old out.new (if is_none lead.now.place
        then json_tokens (listed_dependency_json lead.now.dependency) else []) }
{
    match lead.place {
        Some(_) => Ok(()),
        None => put_dependency(out, lead.dependency),
    }
}

// Writes dependencies.
pub(crate) fn put_dependencies(
    out: &mut JsonWriter,
    dependencies: &[Dependency],
) -> Result<(), AllocError>
    ensures { Adds result out.old out.new
        (json_tokens (listed_dependencies_json dependencies.now)) }
{
    out.begin_array()?;
    for dependency in dependencies {
        put_dependency(out, dependency)?;
    }
    out.end_array()
}
