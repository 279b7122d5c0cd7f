//! Which licences packages have, and whether they are allowed.
#![tactic(auto)]

pub mod document;
mod evaluation;
pub mod expression;
pub mod judged;
pub mod laws;
pub mod policy;
pub mod report;
pub mod reporting;
pub mod subject;
pub mod terms;
mod token;
mod tokens;
pub mod verdict;

pub use crate::document::licenses_json;
pub use crate::expression::Expression;
pub use crate::judged::{Judged, Word};
pub use crate::policy::{Exemption, Given, Policy};
pub use crate::report::{Report, Unmet};
pub use crate::reporting::reported_licenses;
pub use crate::subject::{Manifest, Subject};
pub use crate::terms::is_term;
pub use crate::verdict::Verdict;
