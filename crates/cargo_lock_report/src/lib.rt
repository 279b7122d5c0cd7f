//! Findings as reports that other programs read: a log of SARIF 2.1.0, and annotations of GitHub.
//!
//! ```
//! let text = sarif_log(rt.alloc(), findings)?;
//! println!(rt; "{text}")?;
//! ```
#![tactic(auto)]

pub mod annotation;
mod escape;
mod fingerprint;
pub mod laws;
pub mod log;
pub mod report;
pub mod reported;
mod rules;
mod uri;

pub use crate::annotation::Annotations;
pub use crate::log::sarif_log;
pub use crate::report::{ToReport, reports};
pub use crate::reported::{Level, Reported, Rule, Spot};
