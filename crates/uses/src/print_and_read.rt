//! A lockfile is printed, and the text is read again.

ghost use Rattle.std.specs.Prelude.{◌≡◌, IfErr, IfOk, IsOkUnless};
ghost use Rattle.std.specs.List.{AllByRecursion};
ghost use Rattle.cargo_lock_parts.specs.declared.error.Error.TheVariants.{Memory};
ghost use Rattle.cargo_lock.specs.Error.{IsLong, IsShort, RefusesUrls};
ghost use Rattle.cargo_lock.specs.Means.{TextMeans};
ghost use Rattle.cargo_lock.specs.Printed.{IsPrintedBack};
ghost use Rattle.cargo_lock.specs.PrintedTable.{HasAllPrinted};
ghost use Rattle.cargo_lock.specs.Survives.{Survives};
ghost use Rattle.cargo_lock.specs.Layout.{join_lines};
ghost use Rattle.cargo_lock.specs.Text.{lines_of};

use cargo_lock::{Error, Lockfile};
use std::alloc::Global;

/// The lockfile that the printed text of a lockfile means. If the printed lockfile survives its
/// format and no package has both a replacement and dependencies, the one that is read has the same
/// format, equal packages and patches, the written metadata and no root. The one error is then
/// `Memory`, or, for a text of 2^28 bytes or more, `Parse` for a URL of 4 GB or more.
pub fn printed_and_read(alloc: Global, lockfile: &Lockfile) -> Result<Lockfile, Error>
    ensures meant { IfOk result (TextMeans (join_lines (lines_of lockfile.now))) }
    ensures read { Survives lockfile.now lockfile.now.version
        → AllByRecursion HasAllPrinted lockfile.now.packages
        → IfOk result (IsPrintedBack lockfile.now) }
    ensures refused { Survives lockfile.now lockfile.now.version
        → AllByRecursion HasAllPrinted lockfile.now.packages
        → IfErr result (λ fault. RefusesUrls (IsLong (join_lines (lines_of lockfile.now))) fault ⊥) }
    ensures short { Survives lockfile.now lockfile.now.version
        → AllByRecursion HasAllPrinted lockfile.now.packages
        → IsShort (join_lines (lines_of lockfile.now)) → IsOkUnless result Memory }
{
    let text = lockfile.to_string(alloc)?;
    Lockfile::from_str(alloc, text.as_str())
}
