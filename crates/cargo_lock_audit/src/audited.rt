//! What is audited.

use cargo_lock_parts::package::Package;

/// What is audited.
#[derive(Clone, Copy)]
pub struct Audited<'p> {
    /// The packages of a lockfile.
    pub packages: &'p [Package],

    /// The packages of an older lockfile, where only what a change since then brought is to count.
    pub older: Option<&'p [Package]>,
}
