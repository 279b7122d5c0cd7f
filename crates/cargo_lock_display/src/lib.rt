//! A package, a dependency, a source, a checksum and a lockfile, in a line and in JSON.
//!
//! What comes from a lockfile is shown as `Shown` shows it, and JSON escapes it.
#![tactic(auto)]

pub mod file;
pub mod line;
pub mod package_json;
pub mod source_json;

pub use crate::file::{File, begin_document, list_document, put_file};
pub use crate::line::{
    ChecksumText, DependencyText, NameVersion, PackageAmong, PackageText, ReplacementText,
    SourceAmong, SourceBehind, SourceText,
};
pub use crate::package_json::{
    begin_identity, put_dependency, put_digest_or_null, put_package, put_package_or_null,
    put_packages,
};
pub use crate::source_json::put_origin;
