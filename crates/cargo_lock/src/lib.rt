//! Reads and writes `Cargo.lock`, in any of its four formats.
//!
//! A `Lockfile` is read from a file, a text or a TOML table. Its references are resolved, so each
//! package has the name, the version and the source of what it depends on:
//!
//! ```
//! let lockfile = Lockfile::load(rt, rt.alloc(), Path::new("Cargo.lock"))?;
//! for package in &lockfile.packages {
//!     let name = &package.name;
//!     println!(rt; "{name}")?;
//! }
//! ```
//!
//! `rt` is the runtime that `main` is given. A call that takes memory takes an allocator, or uses
//! the one that a value holds, and returns a `Result`: `Error::Memory` says that memory was
//! refused.
//!
//! # Formats
//!
//! A lockfile is written in the format of its field `version`. `Lockfile::survives` says whether a
//! format keeps it, and `translate_through` gives the lockfile in that format:
//!
//! ```
//! if !lockfile.survives(alloc, ResolveVersion::V4)? {
//!     return Ok(None);
//! }
//! let translated = lockfile.translate_through(alloc, &[ResolveVersion::V4])?;
//! let text = translated.to_string(alloc)?;
//! ```
//!
//! # Trees
//!
//! A `dependency::Tree` has a node for each package and an edge for each dependency:
//!
//! ```
//! let tree = lockfile.dependency_tree(alloc)?;
//! let mut out: Vec<u8> = Vec::new(alloc);
//! for root in tree.roots(alloc)?.iter() {
//!     tree.render(alloc, &mut out, *root, EdgeDirection::Outgoing, false)?;
//! }
//! ```
//!
//! # Types
//!
//! | Type | What it is |
//! |---|---|
//! | `Lockfile` | a format, packages, a root, metadata and unused patches |
//! | `Package` | a name, a version, a source, a checksum and dependencies |
//! | `Dependency` | the name, the version and the source of a package |
//! | `SourceId` | where a package comes from |
//! | `Checksum` | the SHA-256 digest of a package's archive |
//! | `ResolveVersion` | one of the formats V1 to V4 |
//! | `dependency::Tree` | the graph of the packages |
//! | `Error` | why a call fails |
//!
//! The crate `uses` has small programs over this one, from which the examples are. Each promise of
//! a call is in its contract; `laws` has what follows from the definitions alone.
#![tactic(auto)]

pub mod dependency;
pub mod laws;
pub mod lockfile;

pub use crate::lockfile::{Lockfile, ResolveVersion};
pub use cargo_lock_parts::dependency::Dependency;
pub use cargo_lock_parts::error::{Error, Result};
pub use cargo_lock_parts::package::{Checksum, Name, Package, SourceId, Version};
pub use cargo_lock_parts::patch::Patch;
pub use cargo_lock_parts::{error, package, patch};
pub use cargo_lock_references::{Metadata, MetadataKey, MetadataValue, metadata};
