//! Functions over the library, as callers write them, whose contracts say what their own callers
//! rely on, or what they ask of them.
#![tactic(auto)]

pub mod asked;
pub mod check_merge;
pub mod faults;
pub mod print_and_read;

use cargo_lock::Error;

/// Prints a document of one line. The one error is `Io`.
pub fn print_line(rt: &HostRuntime, text: &String) -> Result<(), Error> {
    println!(rt; "{text}")?;
    Ok(())
}
