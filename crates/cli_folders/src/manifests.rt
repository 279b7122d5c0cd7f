//! The manifests of packages in a folder.

ghost use Rattle.std.specs.Prelude.{◌≡◌, IfOk, if◌then◌else◌, map};
ghost use Rattle.std.specs.List.{flat_map, list_any};
ghost use Rattle.cargo_lock_licenses.specs.Subjects.{manifest_of};
ghost use Rattle.cli_folders.specs.Manifests.{counts, found_of, is_sought, is_without};
ghost use Rattle.cli_folders.specs.Manifests.{manifests_by, manifests_if, manifests_of, reach_of};
ghost use Rattle.cli_folders.specs.Manifests.{sought_for, sought_of};
ghost use Rattle.cli_folders.specs.declared.sought.Reach.TheVariants.{All, Near};

use crate::files::{Entry, entry_at, fault_of, host_in, names_in, path_of};
use crate::first_fault::FirstFault;
use crate::folders::{Folders, Kind, VENDORED, has};
use crate::found::{Found, copied};
use crate::manifest::{manifest_at, manifest_path};
use crate::sought::{Reach, Sought};
use cargo_lock_licenses::Manifest;
use cargo_lock_parts::package::Package;
use cargo_lock_verify::Hosts;
use cli_support::Fault;
use std::alloc::{AllocError, Global};
use std::collections::BTreeMap;
use std::rt::Files;

/// The manifests that were found in a folder.
#[derive(Drop)]
pub struct Manifests {
    found: Vec<Found>,
}

impl Manifests {
    /// Reads the manifests of these packages in a folder: one of vendored folders, an index folder of
    /// Cargo's `registry/src`, or a folder of such. In the first a manifest is of the package whose
    /// name and version it has. In the others it also is in the folder `NAME-VERSION`.
    ///
    /// No path is made of a name of a lockfile, no link is followed, and entries that begin with a
    /// dot are passed over. Fails if the folder is not read, and if packages have a source, and no
    /// manifest is of one of them.
    ///
    /// A fault is kept where a folder in it or a manifest is not read, and where there may be a
    /// manifest that nobody looked at: at a folder that is a link, in a vendored folder at a manifest
    /// that is no file or has no name and no version, and at a vendored folder in an index folder. A
    /// package that such a folder of Cargo may have then has no manifest.
    pub fn of<R: Files + AllocGlobal>(
        rt: &R,
        folder: &str,
        packages: &[Package],
        first: &mut FirstFault,
    ) -> Result<Manifests, Fault> {
        let mut manifests = Manifests {
            found: Vec::new(rt.alloc()),
        };
        let folders = Folders::of(rt, folder, first)?;
        match folders.kind(rt, first) {
            Kind::Vendored => manifests.put_vendored(rt, &folders.known, first)?,
            Kind::Unpacked => manifests.put_index(rt, folder, &None, packages, first)?,
            Kind::Indices => manifests.put_indices(rt, &folders, packages, first)?,
            Kind::Other => {}
        }
        if manifests.is_of_none(rt.alloc(), packages)? {
            let fault = fault_of(rt.alloc(), folder, "no manifest in it is of a package");
            return Err(first.or(fault));
        }
        Ok(manifests)
    }

    /// What the manifests of a package with a source say of its licence: those of its name and
    /// version, if each folder that is named so has one. Where one lies in an index folder of the
    /// package's registry, others do not count. Fails when out of memory.
    pub fn of_package(&self, alloc: Global, package: &Package) -> Result<Vec<Manifest>, AllocError>
        ensures { IfOk result (λ manifests. map manifest_of manifests.items
            ≡ manifests_of «package».now (map found_of self.now.found.items)) }
    {
        let sought = sought_in(alloc, &self.found, package)?;
        manifests_by(alloc, &self.found, &sought)
    }

    // Whether packages have a source, and nothing was found of one of them.
    fn is_of_none(&self, alloc: Global, packages: &[Package]) -> Result<bool, AllocError> {
        if packages.iter().all(|package| package.source.is_none()) {
            return Ok(false);
        }
        for package in packages {
            if !self.of_package(alloc, package)?.is_empty() {
                return Ok(false);
            }
        }
        Ok(true)
    }

    // ---- folders

    // Adds what is in the folders of packages.
    fn put_vendored<R: Files + AllocGlobal>(
        &mut self,
        rt: &R,
        folders: &[String],
        first: &mut FirstFault,
    ) -> Result<(), AllocError> {
        for folder in folders {
            match vendored_at(rt, folder) {
                Ok(Some(found)) => self.found.push(found)?,
                Ok(None) => {}
                Err(fault) => first.keep(fault),
            }
        }
        Ok(())
    }

    // Adds what is in the folders of packages in these folders.
    fn put_indices<R: Files + AllocGlobal>(
        &mut self,
        rt: &R,
        folders: &Folders,
        packages: &[Package],
        first: &mut FirstFault,
    ) -> Result<(), AllocError> {
        let mut unread = hosts_of(rt.alloc(), &folders.unknown)?;
        for folder in &folders.known {
            let host = host_of(rt.alloc(), folder)?;
            if let Err(fault) = self.put_index(rt, folder, &host, packages, first) {
                first.keep(fault);
                unread.push(host)?;
            }
        }
        self.put_unread(rt.alloc(), &unread, packages)
    }

    // Adds what is in the folders in a folder that are named as Cargo names those of packages. The
    // folder has this host in its name, if it is an index folder. Fails if its names are not read.
    fn put_index<R: Files + AllocGlobal>(
        &mut self,
        rt: &R,
        folder: &str,
        host: &Option<String>,
        packages: &[Package],
        first: &mut FirstFault,
    ) -> Result<(), Fault> {
        let wanted = by_folder(rt.alloc(), packages)?;
        let names = names_in(rt, folder)?;
        self.put_wanted(rt, folder, host, &wanted, &names, first)?;
        Ok(())
    }

    // Adds what has one of these names in such a folder, where the name is that of a wanted package.
    fn put_wanted<R: Files + AllocGlobal>(
        &mut self,
        rt: &R,
        folder: &str,
        host: &Option<String>,
        wanted: &BTreeMap<String, &Package>,
        names: &[String],
        first: &mut FirstFault,
    ) -> Result<(), AllocError> {
        for name in names {
            if let Some(package) = wanted.get(name.as_str()) {
                let path = path_of(rt.alloc(), folder, name)?;
                let found = unpacked_or_none(rt, &path, package, first)?;
                self.found.push(found.at(copied(rt.alloc(), host)?))?;
            }
        }
        Ok(())
    }

    // Adds for each package that it may lie in one of the index folders of these hosts, which were not
    // read, where nothing else was found where Cargo has it.
    fn put_unread(
        &mut self,
        alloc: Global,
        hosts: &[Option<String>],
        packages: &[Package],
    ) -> Result<(), AllocError> {
        for package in packages {
            if let Some(host) = host_without(alloc, &self.found, hosts, package)? {
                let found = Found::without_manifest(alloc, package)?;
                self.found.push(found.at(copied(alloc, host)?))?;
            }
        }
        Ok(())
    }
}

// What the manifest in the vendored folder at a path says, if it has one.
fn vendored_at<R: Files + AllocGlobal>(rt: &R, path: &str) -> Result<Option<Found>, Fault> {
    let manifest = manifest_path(rt.alloc(), path)?;
    match entry_at(rt, &manifest)? {
        None => Ok(None),
        Some(Entry::File) => match manifest_at(rt, &manifest)? {
            Some(found) => Ok(Some(found)),
            None => {
                let why = "it has no name and version as text";
                Err(fault_of(rt.alloc(), &manifest, why))
            }
        },
        Some(_) => Err(fault_of(rt.alloc(), &manifest, "it is no file")),
    }
}

// What is at the path that has the name of the folder of a package. Where it is not read, the fault is
// kept, and the package has no manifest there.
fn unpacked_or_none<R: Files + AllocGlobal>(
    rt: &R,
    path: &str,
    package: &Package,
    first: &mut FirstFault,
) -> Result<Found, AllocError> {
    match unpacked_one(rt, path, package) {
        Ok(found) => Ok(found),
        Err(fault) => {
            first.keep(fault);
            Found::without_manifest(rt.alloc(), package)
        }
    }
}

// What is at the path that has the name of the folder of a package.
fn unpacked_one<R: Files + AllocGlobal>(
    rt: &R,
    path: &str,
    package: &Package,
) -> Result<Found, Fault> {
    match unpacked_at(rt, path)? {
        Some(found) if found.is_named_as(package) => Ok(found),
        _ => Ok(Found::without_manifest(rt.alloc(), package)?),
    }
}

// The host in the name of an index folder.
fn host_of(alloc: Global, folder: &str) -> Result<Option<String>, AllocError> {
    let name = match folder.rsplit_once('/') {
        Some((_, name)) => name,
        None => folder,
    };
    Ok(Some(String::from_str(alloc, host_in(name))?))
}

// The hosts in the names of index folders.
fn hosts_of(alloc: Global, folders: &[String]) -> Result<Vec<Option<String>>, AllocError> {
    let mut hosts = Vec::with_capacity(alloc, folders.len())?;
    for folder in folders {
        hosts.push(host_of(alloc, folder)?)?;
    }
    Ok(hosts)
}

// That of these hosts which is one of a package, if one is and nothing was found where Cargo has the
// package.
fn host_without<'a>(
    alloc: Global,
    found: &[Found],
    hosts: &'a [Option<String>],
    package: &Package,
) -> Result<Option<&'a Option<String>>, AllocError> {
    let near = near_of(alloc, package)?;
    for host in hosts {
        if near.reaches(host) && !has_one(found, &near) {
            return Ok(Some(host));
        }
    }
    Ok(None)
}

// ---- the manifests of a package

// A package, and which manifests of it count.
fn sought_in<'p>(
    alloc: Global,
    found: &[Found],
    package: &'p Package,
) -> Result<Sought<'p>, AllocError>
    ensures { IfOk result (λ sought. sought_of sought
        ≡ sought_for «package».now (reach_of «package».now (map found_of found.now))) }
{
    let near = near_of(alloc, package)?;
    let reach = reach_by(has_one(found, &near));
    Ok(Sought { reach, ..near })
}

// A package, of which the manifests count that lie where Cargo has it.
fn near_of<'p>(alloc: Global, package: &'p Package) -> Result<Sought<'p>, AllocError>
    ensures { IfOk result (λ sought. sought_of sought ≡ sought_for «package».now Near) }
{
    let hosts = Hosts::of(alloc, package)?;
    Ok(Sought {
        package,
        hosts,
        reach: Reach::Near,
    })
}

// Which manifests count, by whether one is near.
fn reach_by(has_one_near: bool) -> Reach
    ensures { result ≡ (if has_one_near then Near else All) }
{
    if has_one_near {
        Reach::Near
    } else {
        Reach::All
    }
}

// Whether something that was found counts.
fn has_one(found: &[Found], sought: &Sought<'_>) -> bool
    ensures { result ≡ list_any (counts (sought_of sought.now)) (map found_of found.now) }
{
    has_one_of(found, sought)
}

// The same, as a test of each that was found.
fn has_one_of(found: &[Found], sought: &Sought<'_>) -> bool
    ensures { result ≡ list_any (λ f. counts (sought_of sought.now) (found_of f)) found.now }
{
    found.iter().any(|found| found.counts(sought))
}

// The manifests that count.
fn manifests_by(
    alloc: Global,
    found: &[Found],
    sought: &Sought<'_>,
) -> Result<Vec<Manifest>, AllocError>
    ensures { IfOk result (λ manifests. map manifest_of manifests.items
        ≡ manifests_by (sought_of sought.now) (map found_of found.now)) }
{
    if !is_sought(found, sought) {
        return Ok(Vec::new(alloc));
    }
    manifests_in(alloc, found, sought)
}

// Whether a package has a source, and each that counts has a manifest.
fn is_sought(found: &[Found], sought: &Sought<'_>) -> bool
    ensures { result ≡ is_sought (sought_of sought.now) (map found_of found.now) }
{
    let package = sought.package;
    package.source.is_some() && !is_one_without(found, sought)
}

// Whether something that counts has no manifest that does.
fn is_one_without(found: &[Found], sought: &Sought<'_>) -> bool
    ensures { result ≡ list_any (is_without (sought_of sought.now)) (map found_of found.now) }
{
    has_one_without(found, sought)
}

// The same, as a test of each that was found.
fn has_one_without(found: &[Found], sought: &Sought<'_>) -> bool
    ensures { result ≡ list_any (λ f. is_without (sought_of sought.now) (found_of f)) found.now }
{
    found.iter().any(|found| found.is_without(sought))
}

// The manifests of all that counts.
fn manifests_in(
    alloc: Global,
    found: &[Found],
    sought: &Sought<'_>,
) -> Result<Vec<Manifest>, AllocError>
    ensures { IfOk result (λ manifests. map manifest_of manifests.items
        ≡ flat_map (manifests_if (sought_of sought.now)) (map found_of found.now)) }
{
    let mut manifests = Vec::new(alloc);
    for one in found {
        one.put_if(alloc, &mut manifests, sought)?;
    }
    Ok(manifests)
}

// What the manifest in the folder at a path says, if it is a folder with one. Fails at one that is
// vendored, beside which there may be others of the package.
fn unpacked_at<R: Files + AllocGlobal>(rt: &R, path: &str) -> Result<Option<Found>, Fault> {
    if entry_at(rt, path)? != Some(Entry::Folder) {
        return Ok(None);
    }
    if has(rt, path, VENDORED)? {
        return Err(fault_of(rt.alloc(), path, "it is a vendored folder"));
    }
    let manifest = manifest_path(rt.alloc(), path)?;
    if entry_at(rt, &manifest)? != Some(Entry::File) {
        return Ok(None);
    }
    manifest_at(rt, &manifest)
}

// The packages with a source, by the names that Cargo gives their folders.
fn by_folder(
    alloc: Global,
    packages: &[Package],
) -> Result<BTreeMap<String, &Package>, AllocError> {
    let mut wanted = BTreeMap::new(alloc);
    for package in packages {
        if package.source.is_some() {
            wanted.insert(folder_name(alloc, package)?, package)?;
        }
    }
    Ok(wanted)
}

// The name of the folder in which Cargo unpacks a package.
fn folder_name(alloc: Global, package: &Package) -> Result<String, AllocError> {
    let name = &package.name;
    let version = &package.version;
    format!(in alloc; "{name}-{version}")
}
