//! The references of a merge as Cargo writes them: one in full is without a commit.

ghost use Rattle.std.specs.Prelude.{◌≡◌, IfOk, IsOkUnless};
ghost use Rattle.std.specs.List.{AllZip};
ghost use Rattle.cargo_lock_merge.specs.Referring.{IsReferenceTo, IsReferring, unpinned_identity};
ghost use Rattle.cargo_lock_parts.specs.declared.error.Error.TheVariants.{Memory};
ghost use Rattle.cargo_lock_parts.specs.Optional.{BothOrNone};

use cargo_lock::ResolveVersion;
use cargo_lock_parts::dependency::Dependency;
use cargo_lock_parts::error::Result;
use cargo_lock_parts::package::Package;
use std::alloc::Global;
use std::collections::BTreeMap;

/// The packages with their references as Cargo writes them. A reference is in full in V1, and where
/// several packages have its name and its version, and it is then without a commit, as each
/// replacement is. The one error is `Memory`.
pub(crate) fn refer_as_cargo(
    alloc: Global,
    format: ResolveVersion,
    packages: &[Package],
) -> Result<Vec<Package>>
    ensures ok { IfOk result (λ all. AllZip IsReferring packages.now all.items) }
    ensures err { IsOkUnless result Memory }
{
    let names = Names::of(alloc, format, packages)?;
    let mut all = Vec::with_capacity(alloc, packages.len())?;
    for package in packages {
        all.push(referring(alloc, &names, package)?)?;
    }
    Ok(all)
}

// The package with its references as Cargo writes them.
fn referring(alloc: Global, names: &Names, package: &Package) -> Result<Package>
    ensures ok { IfOk result (IsReferring «package».now) }
    ensures err { IsOkUnless result Memory }
{
    let dependencies = dependencies(alloc, names, &package.dependencies)?;
    let replace = replacement(&package.replace)?;
    let Dependency {
        name,
        version,
        source,
    } = Dependency::of(package)?;
    Ok(Package {
        name,
        version,
        source,
        checksum: package.checksum,
        dependencies,
        replace,
    })
}

// The dependencies as Cargo writes them.
fn dependencies(alloc: Global, names: &Names, list: &[Dependency]) -> Result<Vec<Dependency>>
    ensures ok { IfOk result (λ all. AllZip IsReferenceTo list.now all.items) }
    ensures err { IsOkUnless result Memory }
{
    let mut all = Vec::with_capacity(alloc, list.len())?;
    for dependency in list {
        all.push(reference(names, dependency)?)?;
    }
    Ok(all)
}

// The dependency as Cargo writes it.
fn reference(names: &Names, dependency: &Dependency) -> Result<Dependency>
    ensures ok { IfOk result (IsReferenceTo dependency.now) }
    ensures err { IsOkUnless result Memory }
{
    if names.are_in_full(dependency)? {
        unpinned(dependency)
    } else {
        Ok(dependency.clone()?)
    }
}

// The replacement as Cargo writes it.
fn replacement(replace: &Option<Dependency>) -> Result<Option<Dependency>>
    ensures ok { IfOk result (BothOrNone IsReferenceTo replace.now) }
    ensures err { IsOkUnless result Memory }
{
    match replace {
        Some(replace) => Ok(Some(unpinned(replace)?)),
        None => Ok(None),
    }
}

// The dependency without the commit of its source.
fn unpinned(dependency: &Dependency) -> Result<Dependency>
    ensures ok { IfOk result (λ d. d ≡ unpinned_identity dependency.now) }
    ensures err { IsOkUnless result Memory }
{
    let source = match &dependency.source {
        Some(source) => Some(source.with_precise(None)?),
        None => None,
    };
    Ok(Dependency {
        name: dependency.name.clone()?,
        version: dependency.version.clone()?,
        source,
    })
}

// Whether references are in full: in V1 each, and from V2 on those to a name and a version, here
// dependencies without a source, that several packages have.
#[derive(Drop)]
struct Names {
    are_all_in_full: bool,
    are_several: BTreeMap<Dependency, bool>,
}

impl Names {
    // The names and versions of these packages, in this format.
    fn of(alloc: Global, format: ResolveVersion, packages: &[Package]) -> Result<Names>
        ensures { IsOkUnless result Memory }
    {
        let mut are_several = BTreeMap::new(alloc);
        for package in packages {
            put_name(&mut are_several, package)?;
        }
        Ok(Names {
            are_all_in_full: matches!(format, ResolveVersion::V1),
            are_several,
        })
    }

    // Whether the reference to the dependency is in full.
    fn are_in_full(&self, dependency: &Dependency) -> Result<bool>
        ensures { IsOkUnless result Memory }
    {
        if self.are_all_in_full {
            return Ok(true);
        }
        let name = Dependency {
            name: dependency.name.clone()?,
            version: dependency.version.clone()?,
            source: None,
        };
        Ok(self.are_several.get(&name).copied().unwrap_or(false))
    }
}

// Adds the name and the version of a package.
fn put_name(are_several: &mut BTreeMap<Dependency, bool>, package: &Package) -> Result<()>
    ensures { IsOkUnless result Memory }
{
    let name = Dependency {
        name: package.name.clone()?,
        version: package.version.clone()?,
        source: None,
    };
    let is_there = are_several.contains_key(&name);
    are_several.insert(name, is_there)?;
    Ok(())
}
