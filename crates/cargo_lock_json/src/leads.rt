//! Where the dependencies of packages lead.

ghost use Rattle.std.specs.Prelude.{IfOk};
ghost use Rattle.std.specs.List.{AllZip};
ghost use Rattle.cargo_lock_json.specs.Leads.{IsLead, IsLinked, IsLinkedRoot};

use crate::linked::{Lead, Linked};
use cargo_lock_edges::Groups;
use cargo_lock_parts::dependency::Dependency;
use cargo_lock_parts::package::Package;
use std::alloc::{AllocError, Global};

/// Where the dependencies of a package lead. Fails when out of memory.
pub fn link<'a>(
    alloc: Global,
    groups: &Groups<'a>,
    package: &'a Package,
) -> Result<Linked<'a>, AllocError>
    ensures { IfOk result (λ linked. IsLinked groups.now.packages «package».now linked) }
{
    let leads = leads_of(alloc, groups, package.dependencies.as_slice())?;
    Ok(Linked { package, leads })
}

// Where these dependencies lead.
fn leads_of<'a>(
    alloc: Global,
    groups: &Groups<'a>,
    dependencies: &'a [Dependency],
) -> Result<Vec<Lead<'a>>, AllocError>
    ensures { IfOk result
        (λ leads. AllZip (IsLead groups.now.packages) dependencies.now leads.items) }
{
    let mut leads = Vec::with_capacity(alloc, dependencies.len())?;
    for dependency in dependencies {
        leads.push(lead(groups, dependency))?;
    }
    Ok(leads)
}

// Where a dependency leads.
fn lead<'a>(groups: &Groups<'a>, dependency: &'a Dependency) -> Lead<'a>
    ensures { IsLead groups.now.packages dependency.now result }
{
    Lead {
        dependency,
        place: groups.lead(dependency),
    }
}

/// Where the dependencies of these packages lead. Fails when out of memory.
pub fn link_each<'a>(
    alloc: Global,
    groups: &Groups<'a>,
    packages: &'a [Package],
) -> Result<Vec<Linked<'a>>, AllocError>
    ensures { IfOk result
        (λ linked. AllZip (IsLinked groups.now.packages) packages.now linked.items) }
{
    let mut linked = Vec::with_capacity(alloc, packages.len())?;
    for package in packages {
        linked.push(link(alloc, groups, package)?)?;
    }
    Ok(linked)
}

/// Where the dependencies of the root lead, if there is a root. Fails when out of memory.
pub fn link_root<'a>(
    alloc: Global,
    groups: &Groups<'a>,
    root: &'a Option<Package>,
) -> Result<Option<Linked<'a>>, AllocError>
    ensures { IfOk result (λ linked. IsLinkedRoot groups.now.packages root.now linked) }
{
    match root {
        Some(root) => Ok(Some(link(alloc, groups, root)?)),
        None => Ok(None),
    }
}
