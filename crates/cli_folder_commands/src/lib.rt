//! The commands of the program `cargo-lock` for tools: documents and bills of materials of
//! lockfiles, archives, licences and advisories.
#![tactic(auto)]

pub mod audit;
mod bill_licenses;
pub mod bom;
mod folders;
pub mod json;
pub mod licenses;
mod part;
mod policy;
mod reasoned;
mod settings;
mod texts;
pub mod verify;
