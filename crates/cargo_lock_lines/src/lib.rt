//! The words of a lockfile whose lines are as Cargo writes them, without the table that `toml`
//! reads.
//!
//! `toml` reads such a text as the table of its words (`scan::words_of`), so who has the words
//! needs no table. A text in which anything else stands has no words here.
#![tactic(auto)]

pub mod laws;
mod line;
pub mod scan;
pub mod words;
