//! Files and folders: their names, digests and texts, and the errors of those that are not read.

ghost use Rattle.std.specs.Prelude.{◌≡◌, ◌≢◌, Err, IfErr, IfOk, IsErr, None, Ok, Some};
ghost use Rattle.std.specs.IoError.{error_kind};
ghost use Rattle.std.specs.declared.io.ErrorKind.TheVariants.{NotFound};

use cargo_lock_parts::Error;
use cargo_lock_parts::package::Checksum;
use cargo_lock_verify::digest;
use cli_support::Fault;
use cli_support::fault::path_shown;
use std::alloc::{AllocError, Global};
use std::fs::{self, Metadata, OpenOptions};
use std::io::{self, ErrorKind, Read};
use std::path::Path;
use std::rt::Files;

/// How many bytes of names are read at once. The system refuses a read that a name does not fit.
const PIECE: usize = 4096;

/// The length in bytes from which on a manifest or a list of files is refused.
const LIMIT: u64 = 1 << 24;

/// The digest of the file at a path.
pub(crate) fn digest_at<R: Files>(rt: &R, path: &str) -> io::Result<Checksum> {
    let mut file = OpenOptions::new().read(true).open(rt, Path::new(path))?;
    digest(&mut file)
}

/// The names in a folder, in order. Fails if the folder is not read, and if one is not UTF-8: what
/// it names could be looked at by nobody.
pub(crate) fn names_in<R: Files + AllocGlobal>(rt: &R, folder: &str) -> Result<Vec<String>, Fault> {
    let bytes = read_or_fault(rt.alloc(), folder, bytes_in(rt, folder))?;
    match str::from_utf8(&bytes) {
        Ok(text) => Ok(names_of(rt.alloc(), text)?),
        Err(_) => Err(fault_of(rt.alloc(), folder, "a name in it is not UTF-8")),
    }
}

/// The names in a folder, each with a zero byte after it. The path is opened with a slash at its end,
/// so that it may be a link to a folder.
fn bytes_in<R: Files + AllocGlobal>(rt: &R, folder: &str) -> io::Result<Vec<u8>> {
    if folder.is_empty() {
        return Err(io::Error::from(ErrorKind::NotFound));
    }
    let folder = path_of(rt.alloc(), folder, "")?;
    let mut names = rt.open_dir(&folder)?;
    let mut bytes = Vec::new(rt.alloc());
    let mut piece = [0; PIECE];
    for _ in 0..u64::MAX {
        let count = names.read(&mut piece)?;
        if count == 0 {
            return Ok(bytes);
        }
        bytes.extend_from_slice(&piece[..count])?;
    }
    Err(io::Error::from(ErrorKind::FileTooLarge))
}

/// The names in such a text, in order, but for the folder itself and the one above.
fn names_of(alloc: Global, text: &str) -> Result<Vec<String>, AllocError> {
    let mut names = Vec::new(alloc);
    for name in text.split('\0') {
        if !matches!(name, "" | "." | "..") {
            names.push(String::from_str(alloc, name)?)?;
        }
    }
    names.sort()?;
    Ok(names)
}

/// The path of a name in a folder.
pub(crate) fn path_of(alloc: Global, folder: &str, name: &str) -> Result<String, AllocError> {
    if folder.ends_with('/') {
        format!(in alloc; "{folder}{name}")
    } else {
        format!(in alloc; "{folder}/{name}")
    }
}

/// The host in the name of an index folder, which Cargo names `HOST-HASH`: the text before the last
/// hyphen.
pub(crate) fn host_in(name: &str) -> &str {
    match name.rsplit_once('-') {
        Some((host, _)) => host,
        None => name,
    }
}

/// What is at a path.
#[derive(Clone, Copy, PartialEq, Eq)]
pub(crate) enum Entry {
    /// A file.
    File,

    /// A folder.
    Folder,

    /// A link.
    Link,

    /// Nothing of these.
    Other,
}

/// What the system found, or nothing where it says that nothing is there. Only `NotFound` says so: any
/// other error, as of a folder that may not be looked into, stays the error that it is.
fn unless_absent<T>(found: io::Result<T>) -> io::Result<Option<T>>
    ensures found { IfOk found (λ value. result ≡ Ok (Some value)) }
    ensures absent { IfErr found (λ error. error_kind error ≡ NotFound → result ≡ Ok None) }
    ensures fault { IfErr found (λ error. error_kind error ≢ NotFound → result ≡ Err error) }
{
    match found {
        Ok(value) => Ok(Some(value)),
        Err(error) if error.kind() == ErrorKind::NotFound => Ok(None),
        Err(error) => Err(error),
    }
}

/// What the system read at a path. Each of its errors is a fault, with the path.
fn read_or_fault<T>(alloc: Global, path: &str, read: io::Result<T>) -> Result<T, Fault>
    ensures read { IfOk read (λ value. result ≡ Ok value) }
    ensures fault { IfErr read (λ _. IsErr result) }
{
    match read {
        Ok(value) => Ok(value),
        Err(error) => Err(fault_at(alloc, path, error)),
    }
}

/// What is at a path, if something is there. A link is not followed. Only where the system finds
/// nothing there, nothing is there: any other error of it is one of this function.
pub(crate) fn entry_at<R: Files + AllocGlobal>(rt: &R, path: &str) -> Result<Option<Entry>, Fault> {
    let found = unless_absent(fs::symlink_metadata(rt, Path::new(path)));
    match read_or_fault(rt.alloc(), path, found)? {
        Some(found) => Ok(Some(entry_of(&found))),
        None => Ok(None),
    }
}

/// What is at a path, if something is there, or at the end of a link that is there. Fails if such a
/// link leads to nothing.
pub(crate) fn target_at<R: Files + AllocGlobal>(
    rt: &R,
    path: &str,
) -> Result<Option<Entry>, Fault> {
    if entry_at(rt, path)?.is_none() {
        return Ok(None);
    }
    let found = read_or_fault(rt.alloc(), path, fs::metadata(rt, Path::new(path)))?;
    Ok(Some(entry_of(&found)))
}

/// What a path has by its metadata.
fn entry_of(found: &Metadata) -> Entry {
    if found.is_file() {
        Entry::File
    } else if found.is_dir() {
        Entry::Folder
    } else if found.is_symlink() {
        Entry::Link
    } else {
        Entry::Other
    }
}

/// The error of a file or folder, with its path.
pub(crate) fn fault_at(alloc: Global, path: &str, error: io::Error) -> Fault {
    if error.kind() == ErrorKind::OutOfMemory {
        return Fault::Library(Error::Memory);
    }
    match path_shown(alloc, Path::new(path)) {
        Ok(path) => Fault::File(path, Error::from(error)),
        Err(refused) => Fault::from(refused),
    }
}

/// The error of a file or folder whose content is refused, with its path and the reason.
pub(crate) fn fault_of(alloc: Global, path: &str, why: &str) -> Fault {
    match refusal_of(alloc, path, why) {
        Ok(fault) => fault,
        Err(refused) => Fault::from(refused),
    }
}

fn refusal_of(alloc: Global, path: &str, why: &str) -> Result<Fault, AllocError> {
    let path = path_shown(alloc, Path::new(path))?;
    let why = String::from_str(alloc, why)?;
    Ok(Fault::File(path, Error::Parse(why)))
}

/// The text of a file. Fails if it is not read, is not UTF-8, or has 16 MiB or more.
pub(crate) fn text_at<R: Files + AllocGlobal>(rt: &R, path: &str) -> Result<String, Fault> {
    let bytes = read_or_fault(rt.alloc(), path, bytes_at(rt, path))?;
    text_of(rt.alloc(), path, bytes)
}

/// The first bytes of a file, at most as many as the limit.
fn bytes_at<R: Files + AllocGlobal>(rt: &R, path: &str) -> io::Result<Vec<u8>> {
    let file = OpenOptions::new().read(true).open(rt, Path::new(path))?;
    let mut bytes = Vec::new(rt.alloc());
    file.take(LIMIT).read_to_end(&mut bytes)?;
    Ok(bytes)
}

/// The text of the bytes of a file.
fn text_of(alloc: Global, path: &str, bytes: Vec<u8>) -> Result<String, Fault> {
    if bytes.len() as u64 >= LIMIT {
        return Err(fault_of(alloc, path, "it has 16 MiB or more"));
    }
    match String::from_utf8(bytes) {
        Ok(text) => Ok(text),
        Err(_) => Err(fault_of(alloc, path, "it is not UTF-8")),
    }
}
