//! Reads a lockfile, unless the versions of what its packages depend on have more bytes together
//! than a limit.
//!
//! A reference by a name alone gets the version of the package that it resolves to, and each
//! dependency holds a copy of its own. So one package with a long version and many references to it
//! take memory that grows with the square of the text.
//!
//! ```
//! let found = lockfile_within(rt.alloc(), text, 1 << 28)?;
//! if found.is_none() {
//!     println!(rt; "more than 256 MiB")?;
//! }
//! ```
#![tactic(auto)]

mod look;
mod matched;
mod reading;
mod versions;

pub use crate::reading::lockfile_within;
pub use crate::versions::is_beyond;
