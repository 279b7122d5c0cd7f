//! The commands of the program `cargo-lock` that print what lockfiles hold: lists, translations,
//! trees, differences, why a package is there, names of several packages, and pictures.
#![tactic(auto)]

pub mod diff;
pub mod duplicates;
pub mod graph;
pub mod list;
pub mod translate;
pub mod tree;
pub mod why;
