//! A version as its text, for a field with `#[serde(with = ..)]`.

use semver::{Error as VersionError, Version};
use serde::{Deserializer, Format, Serializer};
use std::alloc::{AllocError, Global};

/// Writes the version's text. The errors are those of the serializer.
pub fn serialize<S: Serializer>(version: &Version, out: &mut S) -> Result<(), S::Error> {
    out.collect_str(version)
}

/// Reads a version's text. For any other text the message of the error is that of `semver`.
pub fn deserialize<F: Format>(
    alloc: Global,
    from: &mut Deserializer<'_, '_, F>,
) -> Result<Version, F::Error> {
    let text = from.string(alloc)?;
    match Version::parse(alloc, text.as_str()) {
        Ok(version) => Ok(version),
        Err(fault) => Err(format_error(alloc, from, &fault)),
    }
}

fn format_error<F: Format>(
    alloc: Global,
    from: &Deserializer<'_, '_, F>,
    fault: &VersionError,
) -> F::Error {
    if *fault == VersionError::from(AllocError) {
        return from.no_memory();
    }
    match fault.to_string(alloc) {
        Ok(message) => from.custom(message.as_str()),
        Err(_) => from.no_memory(),
    }
}
