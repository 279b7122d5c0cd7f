//! References of a lockfile, its metadata and its formats: how each is read and written, and which
//! versions, sources and references read back from their texts.
//!
//! The crate `cargo_lock` exports what its users need of this under its own paths. Use that one.
#![tactic(auto)]

pub mod borrowed;
pub mod checksums;
pub mod encodable_package;
pub mod identified;
pub mod index;
pub mod laws;
pub mod metadata;
pub mod package_version;
pub mod read_back;
pub mod read_keys;
pub mod read_sources;
pub mod reference;
pub mod resolution;
mod serialization;
pub mod source;
pub mod version;
pub mod written_metadata;

pub use crate::borrowed::{EncodableDependencyRef, EncodablePackageRef};
pub use crate::encodable_package::EncodablePackage;
pub use crate::metadata::{Metadata, MetadataKey, MetadataValue};
pub use crate::reference::EncodableDependency;
pub use crate::source::EncodableSourceId;
pub use crate::version::ResolveVersion;
