//! Whether the archives of packages are those that a lockfile names, by the SHA-256 of their bytes.
#![tactic(auto)]

pub mod archives_document;
pub mod class;
mod document;
pub mod entry;
pub mod finding;
pub mod folder;
pub mod folders_document;
pub mod hashing;
pub mod hosts;
mod judge;
pub mod laws;
mod passed_over;
pub mod report;
pub mod reporting;
pub mod subject;
mod summary;
pub mod vendor_report;
pub mod vendored;

pub use crate::archives_document::archives_json;
pub use crate::class::{Class, Counts};
pub use crate::entry::{Content, Entry, Flaw, Others, entry_findings};
pub use crate::finding::{Archive, Finding};
pub use crate::folder::{FileDigests, Folder, FolderFinding, Vendored};
pub use crate::folders_document::folders_json;
pub use crate::hashing::digest;
pub use crate::hosts::Hosts;
pub use crate::report::Report;
pub use crate::reporting::{reported_archives, reported_folders};
pub use crate::subject::{Cache, Subject, findings};
pub use crate::vendor_report::VendorReport;
pub use crate::vendored::vendored_findings;
