//! The files of a database of advisories.

ghost use Rattle.std.specs.Prelude.{◌<◌, IfOk};

use crate::files::{Entry, fault_of, names_in, path_of, target_at, text_at};
use crate::first_fault::FirstFault;
use cargo_lock_audit::{Advisory, AdvisoryFile, DatabaseFault};
use cargo_lock_parts::Error;
use cargo_lock_parts::package::Package;
use cli_support::Fault;
use std::alloc::{AllocError, Global};
use std::collections::BTreeSet;
use std::rt::Files;

/// The folder of a database that has a folder for each package.
const CRATES: &str = "crates";

/// What was read of a database of advisories.
#[derive(Drop)]
pub struct AdvisoryFiles {
    /// The advisories about packages of the names that are wanted.
    pub wanted: Vec<AdvisoryFile>,

    /// How many advisories the database has, about packages of all names.
    pub count: usize,
}

/// Reads the advisories about packages with the name of one of these, in a folder like a checkout of
/// the database of RustSec, and counts all of its advisories. No path is made of a name of a
/// lockfile. An entry that begins with a dot is passed over. Fails if the folder has no folder
/// `crates`, or if that has no advisory.
///
/// In `crates` each other entry is a folder, and in that of a wanted name each is an advisory about
/// this name, with an id of its own. Where one is not, or is not read, its fault is kept, and it is
/// not among those that are wanted.
pub fn advisory_files<R: Files + AllocGlobal>(
    rt: &R,
    folder: &str,
    packages: &[Package],
    first: &mut FirstFault,
) -> Result<AdvisoryFiles, Fault>
    ensures { IfOk result (λ found. 0 < found.count) }
{
    let crates = path_of(rt.alloc(), folder, CRATES)?;
    let found = files_in(rt, &crates, packages, first)?;
    if found.count == 0 {
        return Err(first.or(fault_of(rt.alloc(), &crates, "it has no advisory")));
    }
    Ok(found)
}

// Reads the folders of packages in a folder, and counts their advisories.
fn files_in<R: Files + AllocGlobal>(
    rt: &R,
    crates: &str,
    packages: &[Package],
    first: &mut FirstFault,
) -> Result<AdvisoryFiles, Fault> {
    let mut reading = Reading {
        names: wanted_names(rt.alloc(), packages)?,
        ids: BTreeSet::new(rt.alloc()),
        files: Vec::new(rt.alloc()),
        count: 0,
    };
    for name in &names_in(rt, crates)? {
        if !is_hidden(name) {
            let folder = path_of(rt.alloc(), crates, name)?;
            reading.put_folder(rt, &folder, name, first)?;
        }
    }
    Ok(AdvisoryFiles {
        wanted: reading.files,
        count: reading.count,
    })
}

/// Why a database is refused, as an error of the program.
pub fn database_fault(alloc: Global, fault: &DatabaseFault) -> Fault {
    match fault {
        DatabaseFault::Memory | DatabaseFault::Unread(_, Error::Memory) => {
            Fault::Library(Error::Memory)
        }
        fault => match format!(in alloc; "{fault}") {
            Ok(text) => Fault::Refused(text),
            Err(refused) => Fault::from(refused),
        },
    }
}

// The names of packages, in order.
fn wanted_names<'a>(alloc: Global, packages: &'a [Package]) -> Result<Vec<&'a str>, AllocError> {
    let mut names = Vec::with_capacity(alloc, packages.len())?;
    for package in packages {
        names.push(package.name.as_str())?;
    }
    names.sort_unstable();
    Ok(names)
}

// Whether an entry of this name is passed over.
fn is_hidden(name: &str) -> bool {
    name.starts_with('.')
}

// Whether an entry of this name is to be an advisory.
fn is_advisory(name: &str) -> bool {
    name.starts_with("RUSTSEC-") && name.ends_with(".md")
}

// What is read of a database.
#[derive(Drop)]
struct Reading<'a> {
    // The names that are wanted, in order.
    names: Vec<&'a str>,

    // The ids of the advisories that were read.
    ids: BTreeSet<String>,

    // These advisories.
    files: Vec<AdvisoryFile>,

    // How many advisories there are, about packages of all names.
    count: usize,
}

impl Reading<'_> {
    // Counts the advisories in the folder of a package, and reads them if its name is wanted.
    fn put_folder<R: Files + AllocGlobal>(
        &mut self,
        rt: &R,
        folder: &str,
        name: &str,
        first: &mut FirstFault,
    ) -> Result<(), Fault> {
        match names_in(rt, folder) {
            Ok(names) => self.put_names(rt, folder, name, &names, first),
            Err(fault) => {
                first.keep(fault);
                Ok(())
            }
        }
    }

    // The same of the folder of a package that has these names.
    fn put_names<R: Files + AllocGlobal>(
        &mut self,
        rt: &R,
        folder: &str,
        package: &str,
        names: &[String],
        first: &mut FirstFault,
    ) -> Result<(), Fault> {
        let count = names.iter().filter(|name| is_advisory(name)).count();
        self.count = self.count.saturating_add(count);
        if self.names.binary_search(&package).is_ok() {
            self.put_files(rt, folder, package, names, first)?;
        }
        Ok(())
    }

    // Adds the advisories with these names in the folder of a package.
    fn put_files<R: Files + AllocGlobal>(
        &mut self,
        rt: &R,
        folder: &str,
        package: &str,
        names: &[String],
        first: &mut FirstFault,
    ) -> Result<(), Fault> {
        for name in names {
            if !is_hidden(name) {
                let path = path_of(rt.alloc(), folder, name)?;
                if let Err(fault) = self.put_file(rt, package, name, path) {
                    first.keep(fault);
                }
            }
        }
        Ok(())
    }

    // Adds the advisory at a path. Fails if what is there is none.
    fn put_file<R: Files + AllocGlobal>(
        &mut self,
        rt: &R,
        package: &str,
        name: &str,
        path: String,
    ) -> Result<(), Fault> {
        let text = advisory_text(rt, name, &path)?;
        let file = file_of(rt.alloc(), package, path, &text)?;
        self.put(rt.alloc(), file)
    }

    // Adds an advisory. Fails if it is about another package than the folder it is in, and if another
    // one has its id.
    fn put(&mut self, alloc: Global, file: AdvisoryFile) -> Result<(), Fault> {
        if file.advisory.package.as_str() != file.folder.as_str() {
            return Err(database_fault(alloc, &DatabaseFault::OtherPackage(file)));
        }
        if !self.put_id(alloc, file.advisory.id.as_str())? {
            return Err(database_fault(alloc, &DatabaseFault::Twice(file)));
        }
        self.files.push(file)?;
        Ok(())
    }

    // Adds an id, and returns whether it is new.
    fn put_id(&mut self, alloc: Global, id: &str) -> Result<bool, AllocError> {
        Ok(self.ids.insert(String::from_str(alloc, id)?)?)
    }
}

// The text of the file of this name at a path. Fails if it is not to be an advisory, or is no file.
fn advisory_text<R: Files + AllocGlobal>(rt: &R, name: &str, path: &str) -> Result<String, Fault> {
    if !is_advisory(name) || target_at(rt, path)? != Some(Entry::File) {
        return Err(fault_of(rt.alloc(), path, "it is no file RUSTSEC-*.md"));
    }
    text_at(rt, path)
}

// The advisory that a text at a path has, in the folder of a package. Fails if it has none.
fn file_of(alloc: Global, package: &str, path: String, text: &str) -> Result<AdvisoryFile, Fault> {
    let folder = String::from_str(alloc, package)?;
    match Advisory::parse(alloc, text) {
        Ok(advisory) => Ok(AdvisoryFile {
            path,
            folder,
            advisory,
        }),
        Err(error) => Err(database_fault(alloc, &DatabaseFault::Unread(path, error))),
    }
}
