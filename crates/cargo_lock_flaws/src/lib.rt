//! Which packages of a list are wrong, by their places:
//!
//! - packages with the identity of an earlier one, and dependencies that are listed more than once,
//! - names that Cargo does not accept, and names on crates.io that are the same to crates.io,
//! - sources that look like crates.io but are another one, sources that Cargo takes for crates.io
//! and writes otherwise, and sources with a user name or a password,
//! - packages that no package of the workspace leads to, and dependencies that no package matches,
//! - packages without the checksum that others of their registry have, the first packages of
//! registries without checksums, and checksums of no package,
//! - packages and dependencies that are out of Cargo's order.
//!
//! These calls take a list of packages, and no lockfile. Each returns its places once and in order,
//! and none if nothing is wrong.
//!
//! ```
//! for place in orphans(rt.alloc(), &lockfile.packages, &lockfile.root)?.as_slice() {
//!     println!(rt; "package {place} is not needed")?;
//! }
//! ```
#![tactic(auto)]

pub mod alike;
pub mod dependencies;
mod index;
pub mod lost;
pub mod names;
pub mod packages;
pub mod reach;
pub mod sources;
pub mod stale;
pub mod unmatched;

pub use crate::alike::packages_alike;
pub use crate::dependencies::{misplaced_dependencies, repeated_dependencies};
pub use crate::lost::lost_dependencies;
pub use crate::names::{badly_named_packages, is_cargo_name};
pub use crate::packages::{
    misplaced_packages, packages_twice, packages_without_checksum, unchecked_registries,
};
pub use crate::reach::orphans;
pub use crate::sources::{look_alike_sources, respelt_sources, sources_with_user_info};
pub use crate::stale::stale_keys;
pub use crate::unmatched::Unmatched;
pub use cargo_lock_order::{dependency_order, package_order};
