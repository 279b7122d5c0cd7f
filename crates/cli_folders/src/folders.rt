//! The folders in a folder of manifests, and of which kind they are.

use crate::files::{Entry, entry_at, fault_of, names_in, path_of};
use crate::first_fault::FirstFault;
use crate::manifest::MANIFEST;
use cli_support::Fault;
use std::alloc::AllocError;
use std::rt::Files;

/// What Cargo leaves in each folder that it unpacks, and `cargo vendor` in none.
const UNPACKED: &str = ".cargo-ok";

/// What `cargo vendor` leaves in each folder, and Cargo asks of each vendored one.
pub(crate) const VENDORED: &str = ".cargo-checksum.json";

/// What the folders in a folder are.
#[derive(Clone, Copy, PartialEq, Eq)]
pub(crate) enum Kind {
    /// Folders of packages, as `cargo vendor` leaves them: one has a manifest.
    Vendored,

    /// Folders of packages that Cargo unpacked: one has a manifest and `.cargo-ok`, and none a
    /// manifest and `.cargo-checksum.json`.
    Unpacked,

    /// Folders of such folders, as in Cargo's `registry/src`.
    Indices,

    /// Other folders: neither they nor those in them have a manifest.
    Other,
}

/// The folders in a folder, by their paths, but for those whose names begin with a dot.
#[derive(Drop)]
pub(crate) struct Folders {
    /// What is a folder.
    pub(crate) known: Vec<String>,

    /// What may be one: a link, and what the system did not say.
    pub(crate) unknown: Vec<String>,
}

impl Folders {
    /// Reads what is in a folder. Fails if its names are not read. The fault of what may be a folder is
    /// kept.
    pub(crate) fn of<R: Files + AllocGlobal>(
        rt: &R,
        folder: &str,
        first: &mut FirstFault,
    ) -> Result<Folders, Fault> {
        let mut folders = Folders {
            known: Vec::new(rt.alloc()),
            unknown: Vec::new(rt.alloc()),
        };
        for name in &names_in(rt, folder)? {
            if !name.starts_with('.') {
                folders.put(rt, path_of(rt.alloc(), folder, name)?, first)?;
            }
        }
        Ok(folders)
    }

    /// Adds what is at a path, if it is a folder or may be one.
    fn put<R: Files + AllocGlobal>(
        &mut self,
        rt: &R,
        path: String,
        first: &mut FirstFault,
    ) -> Result<(), AllocError> {
        match entry_at(rt, &path) {
            Ok(Some(Entry::Folder)) => self.known.push(path)?,
            Ok(Some(Entry::Link)) => {
                first.keep(fault_of(rt.alloc(), &path, "it is a link"));
                self.unknown.push(path)?;
            }
            Ok(_) => {}
            Err(fault) => {
                first.keep(fault);
                self.unknown.push(path)?;
            }
        }
        Ok(())
    }

    /// What the folders are, as far as they are read.
    pub(crate) fn kind<R: Files + AllocGlobal>(&self, rt: &R, first: &mut FirstFault) -> Kind {
        let mut kind = Kind::Other;
        for folder in &self.known {
            if first.is_so(has(rt, folder, MANIFEST)) {
                if first.is_so(has(rt, folder, VENDORED)) {
                    return Kind::Vendored;
                }
                kind = with_folder(kind, first.is_so(has(rt, folder, UNPACKED)));
            }
        }
        if kind == Kind::Other && self.has_index(rt, first) {
            kind = Kind::Indices;
        }
        kind
    }

    /// Whether a folder in one of these has a manifest.
    fn has_index<R: Files + AllocGlobal>(&self, rt: &R, first: &mut FirstFault) -> bool {
        for folder in &self.known {
            if is_index(rt, folder, first) {
                return true;
            }
        }
        false
    }
}

/// What folders are with one more that has a manifest, and that Cargo unpacked or not.
fn with_folder(kind: Kind, is_unpacked: bool) -> Kind {
    if is_unpacked || kind == Kind::Unpacked {
        Kind::Unpacked
    } else {
        Kind::Vendored
    }
}

/// Whether something of this name is in a folder.
pub(crate) fn has<R: Files + AllocGlobal>(rt: &R, folder: &str, name: &str) -> Result<bool, Fault> {
    let path = path_of(rt.alloc(), folder, name)?;
    Ok(entry_at(rt, &path)?.is_some())
}

/// Whether a folder in this one has a manifest.
fn is_index<R: Files + AllocGlobal>(rt: &R, folder: &str, first: &mut FirstFault) -> bool {
    match names_in(rt, folder) {
        Ok(names) => is_one_package(rt, folder, &names, first),
        Err(fault) => {
            first.keep(fault);
            false
        }
    }
}

/// Whether one of these names in a folder is that of a folder with a manifest.
fn is_one_package<R: Files + AllocGlobal>(
    rt: &R,
    folder: &str,
    names: &[String],
    first: &mut FirstFault,
) -> bool {
    for name in names {
        if first.is_so(is_package(rt, folder, name)) {
            return true;
        }
    }
    false
}

/// Whether what has this name in a folder is a folder with a manifest.
fn is_package<R: Files + AllocGlobal>(rt: &R, folder: &str, name: &str) -> Result<bool, Fault> {
    let path = path_of(rt.alloc(), folder, name)?;
    Ok(entry_at(rt, &path)? == Some(Entry::Folder) && has(rt, &path, MANIFEST)?)
}
