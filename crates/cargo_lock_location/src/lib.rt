//! In which line of its text each package of a lockfile begins, and what is found at a line.
//!
//! ```
//! let lines = package_lines(rt.alloc(), text, &lockfile.packages)?;
//! ```
#![tactic(auto)]

pub mod laws;
pub mod lines;
pub mod located;
pub mod location;

pub use crate::lines::PackageLines;
pub use crate::located::{Lined, Located, locate, put_line};
pub use crate::location::{lines_in, lines_of_names, package_lines};
