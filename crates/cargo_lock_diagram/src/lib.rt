//! Pictures of graphs of packages: which packages and edges a picture has, and its text, which
//! Graphviz or Mermaid draws.
#![tactic(auto)]

pub mod diagram;
pub mod label;
pub mod laws;
mod reach;
pub mod scene;

pub use crate::diagram::Diagram;
pub use crate::label::{Label, Target};
pub use crate::scene::{Arrow, Picture, picture_from};
