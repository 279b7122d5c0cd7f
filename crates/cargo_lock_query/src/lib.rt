//! What people ask of a graph of packages: why a package is there, which names several packages
//! have and what needs each of these; and which packages a specification fits.
#![tactic(auto)]

pub mod answers;
pub mod chain;
pub mod duplicates_document;
mod first;
pub mod lines;
pub mod listing;
pub mod need;
pub mod reason;
pub mod repeated;
pub mod spec;
mod steps;
pub mod tally;
pub mod why_document;

pub use crate::answers::Answers;
pub use crate::chain::{chains_of_each, shortest_chain};
pub use crate::duplicates_document::groups_json;
pub use crate::lines::{Answer, AnswerText, Needers, needers_of_chain};
pub use crate::listing::{Row, Rows};
pub use crate::need::needers;
pub use crate::reason::{why, why_each};
pub use crate::repeated::{Duplicate, duplicates};
pub use crate::spec::fitting;
pub use crate::tally::Listing;
pub use crate::why_document::answers_json;
