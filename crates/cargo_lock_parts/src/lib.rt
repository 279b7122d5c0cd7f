//! The parts of a lockfile: names, checksums, sources, packages, and the errors of reading them.
//!
//! The crate `cargo_lock` gives all of this under its own paths. Use that one.
#![tactic(auto)]

pub mod dependency;
pub mod error;
pub mod laws;
pub mod package;
pub mod patch;
pub mod serialization;

pub use crate::dependency::Dependency;
pub use crate::error::{Error, Result};
pub use crate::package::{Checksum, Name, Package, SourceId, Version};
pub use crate::patch::Patch;
