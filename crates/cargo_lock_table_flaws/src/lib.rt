//! What keeps the table of a text from being read as a lockfile: each value of a package that does
//! not read, and, where all of them read, each reference that resolves to nothing. Besides, the
//! marks of a conflict in a text that is no table.
//!
//! ```
//! if let Some(report) = unread_report(rt.alloc(), table)? {
//!     println!(rt; "{report}")?;
//! }
//! ```
//!
//! `laws` says how these are related to reading: a table that means a lockfile has none of them,
//! and a package of a table reads exactly if none of its values is among them.
#![tactic(auto)]

pub mod document;
pub mod finding;
mod format;
pub mod laws;
pub mod marks;
pub mod names;
mod reads;
pub mod report;
pub mod reporting;
mod table;
mod unread;
mod unresolved;

pub use crate::document::table_findings_json;
pub use crate::finding::{Key, Owner, Place, Role, TableFinding, Written};
pub use crate::marks::conflict_mark_line;
pub use crate::names::listed_lines;
pub use crate::report::{TableReport, table_values, unread_report, unresolved_report};
pub use crate::reporting::reported_table_findings;
