//! Where the dependencies of packages lead in this project's own commands.
//!
//! A dependency leads to the package of its own words first, and to what replaces that package. The
//! trees of `cargo_lock` have the rule of the Rust crate instead, which is `cargo_lock_graph`'s.
#![tactic(auto)]

pub mod graph;
mod group;
pub mod groups;
pub mod index;
pub mod laws;
mod leads;
mod likeness;
mod nearest;
pub mod settled;
mod targets;
pub mod words;

pub use crate::graph::own_graph;
pub use crate::groups::Groups;
pub use crate::settled::settled_packages;
