//! What the types of lockfiles share when `serde` writes and reads them.

use crate::error::Error;
use serde::{Deserializer, Format};
use std::alloc::Global;

pub mod version;

/// The format's error for a text that was refused. Its message is what `Display` writes of `fault`,
/// and for `Memory` it is the format's error for running out of memory.
pub fn format_error<F: Format>(
    alloc: Global,
    from: &Deserializer<'_, '_, F>,
    fault: Error,
) -> F::Error {
    if let Error::Memory = fault {
        return from.no_memory();
    }
    match fault.to_string(alloc) {
        Ok(message) => from.custom(message.as_str()),
        Err(_) => from.no_memory(),
    }
}
