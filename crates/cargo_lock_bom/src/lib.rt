//! The bill of materials of a lockfile, as CycloneDX 1.6 has it in JSON: a component for each
//! package, and an entry for each that says what it depends on.
//!
//! A lockfile has neither licences nor descriptions, and does not say whether a dependency is one
//! of tests or of builds, of some target or of some feature. So the bill does not say these things,
//! but for licences, which it has where the caller gives them. It has a time and authors only if
//! the caller gives them. So equal lockfiles have equal bills if the caller gives the same options.
#![tactic(auto)]

mod component;
mod contents;
mod dependencies;
pub mod document;
mod iri;
pub mod laws;
mod metadata;
pub mod options;
pub mod printed;
pub mod purl;
mod reach;
pub mod reference;
pub mod root;
mod serial;
mod user_info;
