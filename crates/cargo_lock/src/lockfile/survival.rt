//! Whether a lockfile survives a format.

ghost use Rattle.std.specs.Prelude.{◌≡◌, ◌↔◌, IfOk, IsOkUnless, IsTrue, None};
ghost use Rattle.std.specs.List.{AllByRecursion};
ghost use Rattle.cargo_lock_parts.specs.declared.error.Error.TheVariants.{Memory};
ghost use Rattle.cargo_lock_encoding.specs.PrintedTable.{HasAllPrinted};
ghost use Rattle.cargo_lock_encoding.specs.Survives.{ReadsBack, Survives};
ghost use Rattle.cargo_lock.specs.Printed.{TextReadsBack};

use crate::error::Result;
use crate::lockfile::{Lockfile, ResolveVersion};
use cargo_lock_parts::package::Package;
use std::alloc::Global;

impl Lockfile {
    /// Whether the lockfile survives a format: whether its table, written in this format, reads
    /// back as a lockfile of this format with equal packages, root and patches. This is decided
    /// part by part, without writing the table: every version and source reads back from its text,
    /// each reference, as it is written, resolves to its dependency, checksums are found again, and
    /// the table reads back as V1 or as V2 by its metadata.
    ///
    /// A path source is not written, so a package with one survives no format. The one error is
    /// `Memory`, which is also the error for a source of 4 GB or more.
    ///
    /// ```
    /// if !lockfile.survives(alloc, ResolveVersion::V4)? {
    ///     return Ok(None);
    /// }
    /// let translated = lockfile.translate_through(alloc, &[ResolveVersion::V4])?;
    /// ```
    pub fn survives(&self, alloc: Global, format: ResolveVersion) -> Result<bool>
        ensures decided { IfOk result (λ b. IsTrue b ↔ Survives self.now format) }
        ensures exact { Survives self.now format ↔ ReadsBack self.now format }
        ensures err { IsOkUnless result Memory }
    {
        self.by_ref().survives(alloc, format)
    }

    /// Whether the lockfile survives a format as text: whether the text of the lockfile, set to
    /// this format, reads back as a lockfile of this format with equal packages, root and patches.
    /// This holds exactly if the lockfile survives the format, has no root, and no package has both
    /// a replacement and dependencies (`laws::text_is_exact`).
    ///
    /// ```
    /// if !lockfile.survives_as_text(alloc, ResolveVersion::V4)? {
    ///     return Ok(None);
    /// }
    /// lockfile.version = ResolveVersion::V4;
    /// let text = lockfile.to_string(alloc)?;
    /// ```
    ///
    /// The one error is `Memory`, which is also the error for a source of 4 GB or more.
    pub fn survives_as_text(&self, alloc: Global, format: ResolveVersion) -> Result<bool>
        ensures decided { IfOk result (λ b. IsTrue b ↔ TextReadsBack self.now format) }
        ensures err { IsOkUnless result Memory }
    {
        if self.is_all_printed() {
            self.survives(alloc, format)
        } else {
            Ok(false)
        }
    }

    // Whether the text has all of the lockfile: no root, and each package printed whole.
    fn is_all_printed(&self) -> bool
        ensures { IsTrue result
            ↔ ((self.now.root ≡ None) × AllByRecursion HasAllPrinted self.now.packages) }
    {
        match self.root {
            Some(_) => false,
            None => are_printed_whole(self.packages.as_slice()),
        }
    }
}

fn are_printed_whole(packages: &[Package]) -> bool
    ensures { IsTrue result ↔ AllByRecursion HasAllPrinted packages.now }
{
    packages.iter().all(is_printed_whole)
}

// Whether the text has all of a package. It has the replacement only of a package without
// dependencies.
fn is_printed_whole(package: &Package) -> bool
    ensures { IsTrue result ↔ HasAllPrinted «package».now }
{
    package.dependencies.is_empty() || package.replace.is_none()
}
