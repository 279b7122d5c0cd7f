//! What is found of packages and their archives, each as a line.

use cargo_lock_display::{ChecksumText, PackageText};
use cargo_lock_parts::package::{Checksum, Package};
use printing::{Quoted, Shown};
use std::fmt;

/// An archive of a package.
#[derive(Drop)]
pub struct Archive {
    /// Its path.
    pub path: String,

    /// The SHA-256 of its bytes, as `digest` returns it.
    pub digest: Checksum,

    /// The host in the name of the index folder that it lies in, such as `index.crates.io`. None if it
    /// lies in the folder of archives itself.
    pub host: Option<String>,
}

/// What is wrong with the archives of a package. `Display` writes a line without a newline:
/// `NAME VERSION SRC` as in a difference, where a package of crates.io has no `SRC`; texts of a
/// stranger, the path among them, are shown as the crate `shown` does.
#[derive(Drop)]
pub enum Finding<'p, 'a> {
    /// This archive lies where those of the package do, and is of no package of that name and version:
    /// ``! NAME VERSION SRC: `PATH` is DIGEST, not CHECKSUM``.
    Changed(&'p Package, &'a Archive),

    /// No archive has the checksum of the package, and none is changed:
    /// `- NAME VERSION SRC: no archive`.
    Missing(&'p Package),

    /// The package is of a registry, and the lockfile has no checksum of it:
    /// `! NAME VERSION SRC: no checksum in the lockfile`.
    NoChecksum(&'p Package),
}

impl fmt::Display for Finding<'_, '_> {
    ghost use Rattle.std.specs.Prelude.{Some};
    ghost use Rattle.cargo_lock_verify.specs.Archives.{archive_finding_of};
    ghost use Rattle.cargo_lock_verify.specs.Lines.{archive_finding_line};

    ghost output = { λ finding. Some (archive_finding_line (archive_finding_of finding)) };

    fn fmt<W: fmt::Write>(&self, f: &mut fmt::Formatter<W>) -> fmt::Result {
        match self {
            Finding::Changed(package, archive) => {
                let checksum = ChecksumText(package);
                let package = PackageText(package);
                let path = Quoted(&archive.path);
                let digest = Shown(&archive.digest);
                write!(f, "! {package}: `{path}` is {digest}, not {checksum}")
            }
            Finding::Missing(package) => {
                let package = PackageText(package);
                write!(f, "- {package}: no archive")
            }
            Finding::NoChecksum(package) => {
                let package = PackageText(package);
                write!(f, "! {package}: no checksum in the lockfile")
            }
        }
    }
}
