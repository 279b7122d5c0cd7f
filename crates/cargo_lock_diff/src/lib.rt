//! What differs between the packages of two lockfiles.
//!
//! Packages are distinguished by name, version, place, checksum and replacement. Their dependencies
//! are reported separately. The rest of a lockfile is not compared.
#![tactic(auto)]

pub mod accepted;
mod alarm;
pub mod change;
mod change_json;
pub mod commits;
mod dependencies;
pub mod difference;
pub mod document;
mod home;
pub mod laws;
pub mod likeness;
pub mod line;
mod matching;
mod pairing;
mod parts;
pub mod place;
mod same;
mod stranger;
pub mod summary;

pub use crate::accepted::Accepted;
pub use crate::change::Change;
pub use crate::commits::Commits;
pub use crate::difference::Difference;
pub use crate::document::difference_json;
pub use crate::likeness::Likeness;
pub use crate::line::Line;
pub use crate::summary::{Kind, Summary};
