//! Dependencies of packages, and the tree that they form.

pub mod tree;

pub use crate::dependency::tree::Tree;
pub use cargo_lock_graph::graph;
pub use cargo_lock_parts::dependency::Dependency;
