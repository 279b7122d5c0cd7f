//! The archives in a folder that is like Cargo's `registry/cache`.

ghost use Rattle.std.specs.Prelude.{◌≡◌, [], IfOk, None};

use crate::files::{Entry, digest_at, fault_at, fault_of, host_in, names_in, path_of, target_at};
use crate::first_fault::FirstFault;
use crate::found::copied;
use cargo_lock_parts::package::Package;
use cargo_lock_verify::Archive;
use cli_support::Fault;
use std::alloc::{AllocError, Global};
use std::collections::BTreeMap;
use std::rt::Files;

/// What is in a folder, and in each folder in it, by its name. No path is made of a name of a
/// lockfile.
#[derive(Drop)]
pub struct Entries {
    places: BTreeMap<String, Vec<Place>>,
}

// A path, and the host in the name of the index folder that it is in, if it is in one.
#[derive(Drop)]
struct Place {
    path: String,
    host: Option<String>,
}

impl Entries {
    /// Reads the names in a folder, and in each folder in it. Fails if the folder is not read. Where
    /// one in it is not read, its fault is kept, and what it holds is not among the entries.
    pub fn of<R: Files + AllocGlobal>(
        rt: &R,
        folder: &str,
        first: &mut FirstFault,
    ) -> Result<Entries, Fault> {
        let mut entries = Entries {
            places: BTreeMap::new(rt.alloc()),
        };
        for name in &names_in(rt, folder)? {
            let path = path_of(rt.alloc(), folder, name)?;
            if let Err(fault) = entries.put_entry(rt, path, name) {
                first.keep(fault);
            }
        }
        Ok(entries)
    }

    // Adds what is at a path, and what is in it, if it is a folder.
    fn put_entry<R: Files + AllocGlobal>(
        &mut self,
        rt: &R,
        path: String,
        name: &str,
    ) -> Result<(), Fault> {
        if target_at(rt, &path)? == Some(Entry::Folder) {
            self.put_all(rt, &path, host_in(name))?;
        }
        self.put(rt.alloc(), name, Place { path, host: None })?;
        Ok(())
    }

    // Adds what is in an index folder of this host.
    fn put_all<R: Files + AllocGlobal>(
        &mut self,
        rt: &R,
        folder: &str,
        host: &str,
    ) -> Result<(), Fault> {
        for name in &names_in(rt, folder)? {
            let path = path_of(rt.alloc(), folder, name)?;
            let host = Some(String::from_str(rt.alloc(), host)?);
            self.put(rt.alloc(), name, Place { path, host })?;
        }
        Ok(())
    }

    // Adds a place with this name.
    fn put(&mut self, alloc: Global, name: &str, place: Place) -> Result<(), AllocError> {
        if let Some(places) = self.places.get_mut(name) {
            places.push(place)?;
            return Ok(());
        }
        let places = list_of(alloc, place)?;
        self.places.insert(String::from_str(alloc, name)?, places)?;
        Ok(())
    }

    /// The archives of a package with a checksum, each with the digest of its bytes. Fails if one
    /// is not read, and if what has its name is no file and no link to one.
    pub fn archives_of<R: Files + AllocGlobal>(
        &self,
        rt: &R,
        package: &Package,
    ) -> Result<Vec<Archive>, Fault>
        ensures { IfOk result (λ archives. «package».now.checksum ≡ None → archives.items ≡ []) }
    {
        let mut archives = Vec::new(rt.alloc());
        if package.checksum.is_none() {
            return Ok(archives);
        }
        let name = archive_name(rt.alloc(), package)?;
        for place in self.places_of(&name) {
            put_archive(rt, place, &mut archives)?;
        }
        Ok(archives)
    }

    // The places with this name.
    fn places_of(&self, name: &str) -> &[Place] {
        match self.places.get(name) {
            Some(places) => places.as_slice(),
            None => &[],
        }
    }
}

// A list of one place.
fn list_of(alloc: Global, place: Place) -> Result<Vec<Place>, AllocError> {
    let mut places = Vec::new(alloc);
    places.push(place)?;
    Ok(places)
}

// The name of the archive of a package.
fn archive_name(alloc: Global, package: &Package) -> Result<String, AllocError> {
    let name = &package.name;
    let version = &package.version;
    format!(in alloc; "{name}-{version}.crate")
}

// Adds the archive at a place. Fails if what is there, or at the end of the link there, is no file.
fn put_archive<R: Files + AllocGlobal>(
    rt: &R,
    place: &Place,
    archives: &mut Vec<Archive>,
) -> Result<(), Fault> {
    let path = place.path.as_str();
    if target_at(rt, path)? != Some(Entry::File) {
        return Err(fault_of(rt.alloc(), path, "it is no file"));
    }
    match digest_at(rt, path) {
        Ok(digest) => {
            let path = String::from_str(rt.alloc(), path)?;
            let host = copied(rt.alloc(), &place.host)?;
            archives.push(Archive { path, digest, host })?;
            Ok(())
        }
        Err(error) => Err(fault_at(rt.alloc(), path, error)),
    }
}
