//! The manifests of packages.

use crate::files::{fault_of, path_of, text_at};
use crate::found::Found;
use cargo_lock_licenses::Manifest;
use cargo_lock_parts::Error;
use cargo_lock_references::package_version::version_of;
use cli_support::Fault;
use std::alloc::{AllocError, Global};
use std::rt::Files;
use toml::{Table, Value};

/// The name of a manifest.
pub(crate) const MANIFEST: &str = "Cargo.toml";

/// The path of the manifest in a folder.
pub(crate) fn manifest_path(alloc: Global, folder: &str) -> Result<String, AllocError> {
    path_of(alloc, folder, MANIFEST)
}

/// The table of the manifest at a path. Fails if it is not read, or is not TOML.
pub(crate) fn table_at<R: Files + AllocGlobal>(rt: &R, path: &str) -> Result<Table, Fault> {
    let text = text_at(rt, path)?;
    match toml::table_from_str(rt.alloc(), text.as_str()) {
        Ok(table) => Ok(table),
        Err(error) if error.is_memory() => Err(Fault::Library(Error::Memory)),
        Err(_) => Err(fault_of(rt.alloc(), path, "it is not TOML")),
    }
}

/// The text at a key of the table `package` of a manifest.
pub(crate) fn text_in<'a>(manifest: &'a Table, key: &str) -> Option<&'a str> {
    manifest
        .get("package")
        .and_then(|package| package.get(key))
        .and_then(Value::as_str)
}

/// What the manifest at a path says, if it has a name and a version as Cargo writes them.
pub(crate) fn manifest_at<R: Files + AllocGlobal>(
    rt: &R,
    path: &str,
) -> Result<Option<Found>, Fault> {
    let table = table_at(rt, path)?;
    found_in(rt.alloc(), &table)
}

// What a manifest says.
fn found_in(alloc: Global, table: &Table) -> Result<Option<Found>, Fault> {
    let (Some(name), Some(version)) = (text_in(table, "name"), text_in(table, "version")) else {
        return Ok(None);
    };
    match version_of(alloc, version) {
        Ok(version) => Ok(Some(Found {
            name: String::from_str(alloc, name)?,
            version,
            manifest: Some(licenses_in(alloc, table)?),
            host: None,
        })),
        Err(Error::Memory) => Err(Fault::Library(Error::Memory)),
        Err(_) => Ok(None),
    }
}

// What a manifest says of the licence.
fn licenses_in(alloc: Global, table: &Table) -> Result<Manifest, AllocError> {
    let license = owned(alloc, text_in(table, "license"))?;
    let license_file = owned(alloc, text_in(table, "license-file"))?;
    Ok(Manifest {
        license,
        license_file,
    })
}

// The text, if there is one.
fn owned(alloc: Global, text: Option<&str>) -> Result<Option<String>, AllocError> {
    text.map(|text| String::from_str(alloc, text)).transpose()
}
