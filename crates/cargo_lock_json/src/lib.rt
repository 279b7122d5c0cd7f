//! A lockfile as one document of JSON, for programs in any language: its packages, and for each one
//! the packages on which it depends, by their places, as dependencies lead in this project's own
//! commands.
//!
//! `docs/JSON.md` has the document.
#![tactic(auto)]

mod dependency;
pub mod document;
pub mod leads;
pub mod linked;
mod package;

pub use crate::document::lockfile_json;
