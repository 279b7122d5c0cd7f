//! The folders in a folder that `cargo vendor` made.

ghost use Rattle.std.specs.Prelude.{◌≡◌, [], IfOk, None};

use crate::files::{self, digest_at, entry_at, fault_at, fault_of, names_in, path_of, text_at};
use crate::first_fault::FirstFault;
use crate::manifest::{manifest_path, table_at, text_in};
use cargo_lock_parts::Error;
use cargo_lock_parts::package::{Checksum, Name, Package};
use cargo_lock_references::package_version::version_of;
use cargo_lock_verify::{Content, Entry, Folder};
use cli_support::Fault;
use serde_json::{Category, Value};
use std::alloc::{AllocError, Global};
use std::collections::BTreeMap;
use std::rt::Files;
use toml::Table;

/// The list of the files of a folder.
const LIST: &str = ".cargo-checksum.json";

/// The entries of a folder that `cargo vendor` made, and the paths of those that are folders of a
/// name and a version. No path is made of a name of a lockfile.
#[derive(Drop)]
pub struct Vendor {
    entries: Vec<Entry>,
    folders: BTreeMap<String, Vec<String>>,
}

impl Vendor {
    /// Reads what is in a folder, and the manifests of the folders in it. Fails if the folder is not
    /// read, and if a name is not UTF-8. Where a manifest is not read, or an entry that Cargo may read is
    /// neither a file nor a folder nor a link, the fault is kept, and it is not among the entries.
    pub fn of<R: Files + AllocGlobal>(
        rt: &R,
        folder: &str,
        first: &mut FirstFault,
    ) -> Result<Vendor, Fault> {
        let mut vendor = Vendor {
            entries: Vec::new(rt.alloc()),
            folders: BTreeMap::new(rt.alloc()),
        };
        for name in &names_in(rt, folder)? {
            let path = path_of(rt.alloc(), folder, name)?;
            match content_at(rt, &path, name) {
                Ok(content) => vendor.put(rt.alloc(), Entry { path, content })?,
                Err(fault) => first.keep(fault),
            }
        }
        Ok(vendor)
    }

    /// Adds an entry.
    fn put(&mut self, alloc: Global, entry: Entry) -> Result<(), Fault> {
        if let Content::Folder(name, version) = &entry.content {
            let identity = format!(in alloc; "{name} {version}")?;
            self.put_path(alloc, identity, entry.path.clone()?)?;
        }
        self.entries.push(entry)?;
        Ok(())
    }

    /// The entries, in the order of their names.
    pub fn entries(&self) -> &[Entry] {
        self.entries.as_slice()
    }

    /// Adds the path of a folder of this name and version.
    fn put_path(&mut self, alloc: Global, identity: String, path: String) -> Result<(), Fault> {
        if let Some(paths) = self.folders.get_mut(identity.as_str()) {
            paths.push(path)?;
            return Ok(());
        }
        let mut paths = Vec::new(alloc);
        paths.push(path)?;
        self.folders.insert(identity, paths)?;
        Ok(())
    }

    /// Whether no folder has a manifest.
    pub fn is_empty(&self) -> bool {
        self.folders.is_empty()
    }

    /// The folders of a package with a source. Fails if one is not read.
    pub fn folders_of<R: Files + AllocGlobal>(
        &self,
        rt: &R,
        package: &Package,
    ) -> Result<Vec<Folder>, Fault>
        ensures { IfOk result (λ folders. «package».now.source ≡ None → folders.items ≡ []) }
    {
        let mut folders = Vec::new(rt.alloc());
        if package.source.is_none() {
            return Ok(folders);
        }
        for path in self.folder_paths(rt.alloc(), package)? {
            folders.push(folder_at(rt, path)?)?;
        }
        Ok(folders)
    }

    /// The paths of the folders whose manifest has the name and the version of a package.
    pub(crate) fn folder_paths(
        &self,
        alloc: Global,
        package: &Package,
    ) -> Result<&[String], AllocError> {
        let identity = identity_of(alloc, package)?;
        match self.folders.get(identity.as_str()) {
            Some(paths) => Ok(paths.as_slice()),
            None => Ok(&[]),
        }
    }
}

/// The name and the version of a package.
fn identity_of(alloc: Global, package: &Package) -> Result<String, AllocError> {
    let name = &package.name;
    let version = &package.version;
    format!(in alloc; "{name} {version}")
}

// ---- an entry

/// What the entry of this name at a path is.
fn content_at<R: Files + AllocGlobal>(rt: &R, path: &str, name: &str) -> Result<Content, Fault> {
    if name.starts_with('.') {
        return Ok(Content::PassedOver);
    }
    match entry_at(rt, path)? {
        Some(files::Entry::File) => Ok(Content::PassedOver),
        Some(files::Entry::Folder) => content_of_folder(rt, path),
        Some(files::Entry::Link) => Ok(Content::Link),
        _ => Err(fault_of(rt.alloc(), path, "it is neither a file nor a folder")),
    }
}

/// What the folder at a path is.
fn content_of_folder<R: Files + AllocGlobal>(rt: &R, path: &str) -> Result<Content, Fault> {
    let manifest = manifest_path(rt.alloc(), path)?;
    match entry_at(rt, &manifest)? {
        Some(files::Entry::File) => content_by_manifest(rt, &manifest),
        Some(files::Entry::Link) => Ok(Content::LinkedManifest),
        None => Ok(Content::PassedOver),
        _ => Err(fault_of(rt.alloc(), &manifest, "it is no file")),
    }
}

/// What a folder is by its manifest at a path.
fn content_by_manifest<R: Files + AllocGlobal>(rt: &R, path: &str) -> Result<Content, Fault> {
    let table = table_at(rt, path)?;
    content_in(rt.alloc(), &table)
}

/// What a folder is by the table of its manifest.
fn content_in(alloc: Global, manifest: &Table) -> Result<Content, Fault> {
    match (text_in(manifest, "name"), text_in(manifest, "version")) {
        (Some(name), Some(version)) => content_with(alloc, name, version),
        _ => Ok(Content::Nameless),
    }
}

/// What a folder is whose manifest has these texts as its name and its version. Cargo trims a version;
/// here one with a space is none.
fn content_with(alloc: Global, name: &str, version: &str) -> Result<Content, Fault> {
    match version_of(alloc, version) {
        Ok(version) => Ok(Content::Folder(Name::from_str(alloc, name)?, version)),
        Err(Error::Memory) => Err(Fault::Library(Error::Memory)),
        Err(_) => Ok(Content::Nameless),
    }
}

// ---- a folder

/// The list of the folder at a path, and the files and links in it.
fn folder_at<R: Files + AllocGlobal>(rt: &R, path: &str) -> Result<Folder, Fault> {
    let mut folder = Folder {
        path: String::from_str(rt.alloc(), path)?,
        archive: None,
        listed: BTreeMap::new(rt.alloc()),
        files: BTreeMap::new(rt.alloc()),
        links: Vec::new(rt.alloc()),
    };
    put_list(rt, &mut folder)?;
    put_all_files(rt, &mut folder)?;
    Ok(folder)
}

/// Adds what is in the folder, and in each folder in it.
fn put_all_files<R: Files + AllocGlobal>(rt: &R, folder: &mut Folder) -> Result<(), Fault> {
    let mut waiting = Vec::new(rt.alloc());
    waiting.push(String::new(rt.alloc()))?;
    for _ in 0..u64::MAX {
        match waiting.pop() {
            Some(inner) => put_files_in(rt, folder, &mut waiting, &inner)?,
            None => return Ok(()),
        }
    }
    Ok(())
}

/// Adds what is in a folder in the folder, where the folders in it go to those that are waiting.
fn put_files_in<R: Files + AllocGlobal>(
    rt: &R,
    folder: &mut Folder,
    waiting: &mut Vec<String>,
    inner: &str,
) -> Result<(), Fault> {
    let at = joined(rt.alloc(), &folder.path, inner)?;
    for name in &names_in(rt, &at)? {
        let path = joined(rt.alloc(), inner, name)?;
        put_at(rt, folder, waiting, path)?;
    }
    Ok(())
}

/// The path of what is at a path in a folder, where one of the two may be empty.
fn joined(alloc: Global, folder: &str, path: &str) -> Result<String, AllocError> {
    if folder.is_empty() {
        String::from_str(alloc, path)
    } else if path.is_empty() {
        String::from_str(alloc, folder)
    } else {
        path_of(alloc, folder, path)
    }
}

/// Adds what is at a path in the folder.
fn put_at<R: Files + AllocGlobal>(
    rt: &R,
    folder: &mut Folder,
    waiting: &mut Vec<String>,
    path: String,
) -> Result<(), Fault> {
    let at = path_of(rt.alloc(), &folder.path, &path)?;
    put_entry(rt, folder, waiting, path, &at)
}

/// The same, where this is the path of it as the program opens it.
fn put_entry<R: Files + AllocGlobal>(
    rt: &R,
    folder: &mut Folder,
    waiting: &mut Vec<String>,
    path: String,
    at: &str,
) -> Result<(), Fault> {
    match entry_at(rt, at)? {
        Some(files::Entry::Folder) => waiting.push(path)?,
        Some(files::Entry::Link) => folder.links.push(path)?,
        Some(files::Entry::File) if path.as_str() == LIST => {}
        Some(files::Entry::File) => put_file(rt, folder, path, at)?,
        _ => return Err(fault_of(rt.alloc(), at, "it is no file")),
    }
    Ok(())
}

/// Adds the file at a path in the folder, with the digest of its bytes.
fn put_file<R: Files + AllocGlobal>(
    rt: &R,
    folder: &mut Folder,
    path: String,
    at: &str,
) -> Result<(), Fault> {
    match digest_at(rt, at) {
        Ok(digest) => {
            folder.files.insert(path, digest)?;
            Ok(())
        }
        Err(error) => Err(fault_at(rt.alloc(), at, error)),
    }
}

// ---- the list of a folder

/// Adds what the list of the folder says.
fn put_list<R: Files + AllocGlobal>(rt: &R, folder: &mut Folder) -> Result<(), Fault> {
    let path = path_of(rt.alloc(), &folder.path, LIST)?;
    match entry_at(rt, &path)? {
        Some(files::Entry::File) | None => {}
        Some(_) => return Err(fault_of(rt.alloc(), &path, "it is no file")),
    }
    let text = text_at(rt, &path)?;
    match Value::from_str(rt.alloc(), text.as_str()) {
        Ok(list) => put_list_of(rt.alloc(), folder, &path, &list),
        Err(error) if error.classify() == Category::Memory => Err(Fault::Library(Error::Memory)),
        Err(_) => Err(fault_of(rt.alloc(), &path, "it is not JSON")),
    }
}

/// Adds what this list says.
fn put_list_of(alloc: Global, folder: &mut Folder, path: &str, list: &Value) -> Result<(), Fault> {
    folder.archive = archive_in(alloc, path, list)?;
    let files = match list.get("files").and_then(Value::as_object) {
        Some(files) => files,
        None => return Err(fault_of(alloc, path, "it has no `files`")),
    };
    for (file, digest) in files {
        if !is_inside(file) {
            return Err(fault_of(alloc, path, "a path in it leads out of the folder"));
        }
        let digest = digest_in(alloc, path, digest)?;
        folder.listed.insert(file.clone()?, digest)?;
    }
    Ok(())
}

/// The digest of the archive in a list, if it has one.
fn archive_in(alloc: Global, path: &str, list: &Value) -> Result<Option<Checksum>, Fault> {
    match list.get("package") {
        Some(Value::Null) | None => Ok(None),
        Some(digest) => Ok(Some(digest_in(alloc, path, digest)?)),
    }
}

/// The digest that a value of a list is.
fn digest_in(alloc: Global, path: &str, digest: &Value) -> Result<Checksum, Fault> {
    let text = digest.as_str().unwrap_or("");
    match Checksum::from_str(alloc, text) {
        Ok(digest) => Ok(digest),
        Err(Error::Memory) => Err(Fault::Library(Error::Memory)),
        Err(_) => Err(fault_of(alloc, path, "a digest in it is not SHA-256")),
    }
}

/// Whether a path stays in its folder: it is not absolute, and no part of it is `..`.
fn is_inside(path: &str) -> bool {
    !path.starts_with('/') && path.split('/').all(|part| part != "..")
}
