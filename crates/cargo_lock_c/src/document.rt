//! Documents of JSON about a lockfile.

ghost use Rattle.std.specs.Prelude.{◌≡◌, ◌++◌, ◌∷◌, [], IfErr, IfOk, string_bytes};
ghost use Rattle.cargo_lock_parts.specs.Ascii.{newline};
ghost use Rattle.cargo_lock_c.specs.declared.refusal.Refusal.TheVariants.{NoMemory};
ghost use Rattle.cargo_lock_c.specs.Documents.{file_without_path};

use crate::refusal::Refusal;
use cargo_lock::Lockfile;
use cargo_lock_display::File;

/// The lockfile as a document has it. Its text comes from the caller, so it has no path.
pub(crate) fn file_of(lockfile: &Lockfile) -> File<'static>
    ensures { «result» ≡ file_without_path lockfile.now }
{
    File {
        path: None,
        format: lockfile.version,
    }
}

/// A document as a line.
pub(crate) fn line_of(document: String) -> Result<String, Refusal>
    ensures ok { IfOk result (λ line. string_bytes line
        ≡ string_bytes document ++ newline ∷ []) }
    ensures err { IfErr result (λ refusal. refusal ≡ NoMemory) }
{
    let mut line = document;
    line.push('\n')?;
    Ok(line)
}
