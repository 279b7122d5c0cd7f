//! What the commands of the program `cargo-lock` share: the arguments that it takes and their help,
//! the errors that it reports, and the destination of its text.
//!
//! Nothing here depends on lockfiles, so each promise is about arguments, files and streams.
#![tactic(auto)]

pub mod colours;
pub mod departure;
pub mod destination;
pub mod fault;
pub mod laws;
pub mod message;
pub mod output;
pub mod saving;
pub mod status;
pub mod terminal;
pub mod time;
pub mod unread;
pub mod words;

pub use crate::fault::Fault;
