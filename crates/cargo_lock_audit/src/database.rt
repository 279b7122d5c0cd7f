//! A database of advisories: the files in the folders of packages.

ghost use Rattle.std.specs.Prelude.{◌≡◌, IfErr, IfOk, IsPermutation, IsSorted, MatchOption, Some};
ghost use Rattle.std.specs.Fmt.{DisplaysOnOk};
ghost use Rattle.cargo_lock_audit.specs.Database.{AllPlaced, AreInOrderOfIds, IsDatabase};
ghost use Rattle.cargo_lock_audit.specs.Database.{IsMisplacedFileAt, IsRefused, IsTwiceAt};
ghost use Rattle.cargo_lock_audit.specs.Database.{advisories_of, file_cmp, is_misplaced};
ghost use Rattle.cargo_lock_audit.specs.Lines.{other_package_line, twice_line};

use crate::advisory::Advisory;
use cargo_lock_parts::error::Error;
use printing::{Quoted, Shown};
use std::alloc::{AllocError, Global};
use std::cmp::Ordering;
use std::fmt;

/// A file of a database.
#[derive(Drop)]
pub struct AdvisoryFile {
    /// Its path.
    pub path: String,

    /// The name of the package whose folder it is in.
    pub folder: String,

    /// The advisory that it is.
    pub advisory: Advisory,
}

/// A database of advisories, as far as some packages ask for it.
#[derive(Drop)]
pub struct Database {
    /// The advisories about packages of their names, in the order of their ids.
    pub advisories: Vec<Advisory>,

    /// How many advisories it has, about packages of all names.
    pub size: usize,
}

/// Why a database is refused. `Display` writes a line without a newline, `advisory PATH: WHAT`, or
/// `out of memory`.
#[derive(Drop)]
pub enum DatabaseFault {
    /// The file at this path is no advisory.
    Unread(String, Error),

    /// The advisory is about another package than the folder it is in.
    OtherPackage(AdvisoryFile),

    /// Another advisory has the id of this one.
    Twice(AdvisoryFile),

    /// Memory ran out.
    Memory,
}

impl From<AllocError> for DatabaseFault {
    ghost use Rattle.std.specs.Prelude.{◌≡◌};
    ghost use Rattle.cargo_lock_audit.specs.declared.database.DatabaseFault.TheVariants.{Memory};

    ghost from_gives = { λ _ fault. fault ≡ Memory };

    fn from(_: AllocError) -> DatabaseFault {
        DatabaseFault::Memory
    }
}

impl fmt::Display for DatabaseFault {
    ghost use Rattle.cargo_lock_audit.specs.Lines.{fault_line};

    ghost output = { fault_line };

    fn fmt<W: fmt::Write>(&self, f: &mut fmt::Formatter<W>) -> fmt::Result {
        match self {
            DatabaseFault::Unread(path, fault) => {
                let path = Quoted(path);
                let fault = Quoted(fault);
                write!(f, "advisory {path}: {fault}")
            }
            DatabaseFault::OtherPackage(file) => write_other_package(file, f),
            DatabaseFault::Twice(file) => write_twice(file, f),
            DatabaseFault::Memory => f.write_str("out of memory"),
        }
    }
}

fn write_other_package<W: fmt::Write>(file: &AdvisoryFile, f: &mut fmt::Formatter<W>) -> fmt::Result
    ensures { DisplaysOnOk W.write_str_gives f.old result
        (Some (other_package_line file.now)) f.new }
{
    let path = Quoted(&file.path);
    let folder = Quoted(&file.folder);
    let advisory = &file.advisory;
    let package = Quoted(&advisory.package);
    write!(
        f,
        "advisory {path}: about `{package}`, in the folder of `{folder}`"
    )
}

fn write_twice<W: fmt::Write>(file: &AdvisoryFile, f: &mut fmt::Formatter<W>) -> fmt::Result
    ensures { DisplaysOnOk W.write_str_gives f.old result (Some (twice_line file.now)) f.new }
{
    let path = Quoted(&file.path);
    let advisory = &file.advisory;
    let id = Shown(&advisory.id);
    write!(f, "advisory {path}: another one is {id} too")
}

/// The advisories of a database, in the order of their ids. Refused is an advisory about another
/// package than the folder it is in, and an id of two advisories. `Memory` comes when out of
/// memory.
///
/// ```
/// let advisories = database_of(alloc, files)?;
/// ```
pub fn database_of(alloc: Global, files: Vec<AdvisoryFile>) -> Result<Vec<Advisory>, DatabaseFault>
    ensures ok { IfOk result (λ all. IsDatabase files.items all.items) }
    ensures err { IfErr result (IsRefused files.items) }
{
    let files = placed(files)?;
    let files = in_order(files)?;
    let files = apart(files)?;
    Ok(advisories_of(alloc, files)?)
}

// The files, if each is in the folder of its package.
fn placed(files: Vec<AdvisoryFile>) -> Result<Vec<AdvisoryFile>, DatabaseFault>
    ensures same { IfOk result (λ all. all.items ≡ files.items) }
    ensures placed { IfOk result (λ all. AllPlaced files.items) }
    ensures err { IfErr result (IsRefused files.items) }
{
    let mut files = files;
    match first_misplaced(&files) {
        Some(place) => Err(DatabaseFault::OtherPackage(files.swap_remove(place))),
        None => Ok(files),
    }
}

// The place of the first file that is in the folder of another package.
fn first_misplaced(files: &[AdvisoryFile]) -> Option<usize>
    ensures { MatchOption result (AllPlaced files.now) (IsMisplacedFileAt files.now) }
{
    for (place, file) in files.iter().enumerate() {
        if is_misplaced(file) {
            return Some(place);
        }
    }
    None
}

// Whether the file is in the folder of another package.
fn is_misplaced(file: &AdvisoryFile) -> bool
    ensures { result ≡ is_misplaced file.now }
{
    let advisory = &file.advisory;
    advisory.package.as_str() != file.folder.as_str()
}

// The files in the order of their ids.
fn in_order(files: Vec<AdvisoryFile>) -> Result<Vec<AdvisoryFile>, AllocError>
    ensures permuted { IfOk result (λ all. IsPermutation files.items all.items) }
    ensures sorted { IfOk result (λ all. IsSorted file_cmp all.items) }
{
    let mut files = files;
    files.sort_by(|one, other| cmp_ids(one, other))?;
    Ok(files)
}

// The order of the ids of two files.
fn cmp_ids(one: &AdvisoryFile, other: &AdvisoryFile) -> Ordering
    ensures { result ≡ file_cmp one.now other.now }
{
    let one = &one.advisory;
    let other = &other.advisory;
    one.id.as_str().cmp(other.id.as_str())
}

// The files, if each has an id before that of the next one.
fn apart(files: Vec<AdvisoryFile>) -> Result<Vec<AdvisoryFile>, DatabaseFault>
    ensures same { IfOk result (λ all. all.items ≡ files.items) }
    ensures apart { IfOk result (λ all. AreInOrderOfIds (advisories_of files.items)) }
    ensures err { IfErr result (λ e. IsSorted file_cmp files.items → IsRefused files.items e) }
{
    let mut files = files;
    match first_twice(&files) {
        Some(place) => Err(DatabaseFault::Twice(files.swap_remove(place))),
        None => Ok(files),
    }
}

// The place of the first file whose id is not after that of the one before it.
fn first_twice(files: &[AdvisoryFile]) -> Option<usize>
    ensures { MatchOption result (AreInOrderOfIds (advisories_of files.now)) (IsTwiceAt files.now) }
{
    for place in 1..files.len() {
        if cmp_ids(&files[place - 1], &files[place]) != Ordering::Less {
            return Some(place);
        }
    }
    None
}

// The advisories of files.
fn advisories_of(alloc: Global, files: Vec<AdvisoryFile>) -> Result<Vec<Advisory>, AllocError>
    ensures { IfOk result (λ all. all.items ≡ advisories_of files.items) }
{
    let mut advisories = Vec::with_capacity(alloc, files.len())?;
    for file in files {
        let AdvisoryFile {
            path: _,
            folder: _,
            advisory,
        } = file;
        advisories.push(advisory)?;
    }
    Ok(advisories)
}
