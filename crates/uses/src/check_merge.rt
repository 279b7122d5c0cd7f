//! The first steps of a merge check: the text of a lockfile is read, its own format keeps it, and
//! it is printed unchanged.

ghost use Rattle.std.specs.Prelude.{◌≡◌, IfOk, IsTrue};
ghost use Rattle.cargo_lock.specs.Means.{TextMeans};
ghost use Rattle.cargo_lock.specs.Lockfiles.{LockfileData};
ghost use Rattle.cargo_lock.specs.Layout.{join_lines};
ghost use Rattle.cargo_lock.specs.Text.{lines_of};
ghost use Rattle.cargo_lock.specs.Survives.{Survives};

use cargo_lock::{Error, Lockfile};
use std::alloc::Global;
use std::fs;
use std::path::Path;

/// Whether the lockfile in a file is kept by its format and printed as the file.
pub fn is_file_kept(rt: &HostRuntime, path: Path<'_>) -> Result<bool, Error> {
    let text = fs::read_to_string(rt, path)?;
    is_kept(rt.alloc(), text.as_str())
}

/// Whether the lockfile of a text is kept by its format and printed as the text.
pub fn is_kept(alloc: Global, text: &str) -> Result<bool, Error>
    ensures kept { IfOk result (λ kept. IsTrue kept → (lockfile : LockfileData)
        × TextMeans text.now lockfile
        × Survives lockfile lockfile.version
        × (join_lines (lines_of lockfile) ≡ text.now)) }
{
    let lockfile = Lockfile::from_str(alloc, text)?;
    if !is_kept_by_its_format(alloc, &lockfile)? {
        return Ok(false);
    }
    let printed = lockfile.to_string(alloc)?;
    Ok(printed.as_str() == text)
}

/// Whether a lockfile's own format keeps it. The one error is `Memory`.
pub fn is_kept_by_its_format(alloc: Global, lockfile: &Lockfile) -> Result<bool, Error>
    ensures { IfOk result (λ kept. IsTrue kept
        → Survives lockfile.now lockfile.now.version) }
{
    lockfile.survives(alloc, lockfile.version)
}
