//! Which advisories of a database concern which packages of a lockfile.
#![tactic(auto)]

pub mod advisory;
mod advisory_reading;
pub mod audited;
pub mod coverage;
pub mod database;
pub mod details;
mod details_reading;
pub mod document;
pub mod finding;
mod front_matter;
pub mod laws;
pub mod pair;
pub mod report;
pub mod reporting;
pub mod requirement;
mod requirement_reading;
pub mod settings;
mod texts;
mod values;

pub use crate::advisory::Advisory;
pub use crate::audited::Audited;
pub use crate::coverage::Coverage;
pub use crate::database::{AdvisoryFile, Database, DatabaseFault, database_of};
pub use crate::details::{Affected, Details, Function};
pub use crate::document::advisories_json;
pub use crate::finding::Finding;
pub use crate::pair::{Pair, pairs};
pub use crate::report::{Report, Unmet, write_rest};
pub use crate::reporting::reported_advisories;
pub use crate::requirement::{Bound, Relation, Requirement};
pub use crate::settings::{Settings, registry_of};
