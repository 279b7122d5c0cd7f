//! A lockfile as a document of JSON.

ghost use Rattle.std.specs.Prelude.{◌≡◌, ◌≤◌, ◌⊎◌, IfErr, IfOk, None, string_bytes};
ghost use Rattle.cargo_lock.specs.CargoChecksums.{with_cargo_checksums_in};
ghost use Rattle.cargo_lock_json.specs.Document.{IsDocumentOf};
ghost use Rattle.cargo_lock_c.specs.declared.refusal.Refusal.TheVariants.{NoMemory};
ghost use Rattle.cargo_lock_c.specs.Answers.{IsHandedOut};
ghost use Rattle.cargo_lock_c.specs.Documents.{IsLine, IsLockfileText};
ghost use Rattle.cargo_lock_c.specs.Statuses.{status_of};
ghost use Rattle.cargo_lock_c.specs.Texts.{RefusesText};

use crate::difference::compared;
use crate::document::line_of;
use crate::handing::hand_out;
use crate::reading::read;
use crate::refusal::Refusal;
use cargo_lock::Lockfile;
use cargo_lock_json::lockfile_json;
use std::alloc::Global;

/// The lockfile of a text as a document, as `cargo-lock json -f -` prints it: its packages, and the
/// places of the packages on which each depends. A dependency that no package fits is in the
/// document too, so no lockfile is refused.
#[unsafe(no_mangle)]
pub extern "C" fn cargo_lock_json(
    alloc: Global,
    text: &[u8],
    out: &mut [u8],
    length: &mut usize,
) -> u32
    ensures document { IsHandedOut (IsLockfileText text.now) result out.old out.new
        length.old length.new }
    ensures refused { RefusesText text.now result }
    ensures status { (result ≤ 3) ⊎ (result ≡ 5) }
{
    match document(alloc, text) {
        Ok(document) => hand_out(document.as_bytes(), out, length),
        Err(refusal) => refusal.status(),
    }
}

/// The document of the lockfile of a text's bytes.
fn document(alloc: Global, bytes: &[u8]) -> Result<String, Refusal>
    ensures ok { IfOk result (λ document. IsLockfileText bytes.now (string_bytes document)) }
    ensures refused { IfErr result (λ refusal. RefusesText bytes.now (status_of refusal)) }
    ensures kind { IfErr result (λ refusal. status_of refusal ≤ 3) }
{
    let lockfile = read(alloc, bytes)?;
    let line = line_about(alloc, lockfile)?;
    Ok(line)
}

/// The document of a lockfile, with the checksums that Cargo reads.
fn line_about(alloc: Global, lockfile: Lockfile) -> Result<String, Refusal>
    ensures ok { IfOk result (λ line.
        IsLine (IsDocumentOf None (with_cargo_checksums_in lockfile)) (string_bytes line)) }
    ensures err { IfErr result (λ refusal. refusal ≡ NoMemory) }
{
    let lockfile = compared(alloc, lockfile)?;
    line_of_compared(alloc, &lockfile)
}

/// The document of a lockfile as it is.
fn line_of_compared(alloc: Global, lockfile: &Lockfile) -> Result<String, Refusal>
    ensures ok { IfOk result
        (λ line. IsLine (IsDocumentOf None lockfile.now) (string_bytes line)) }
    ensures err { IfErr result (λ refusal. refusal ≡ NoMemory) }
{
    let document = lockfile_json(alloc, None, lockfile)?;
    line_of(document)
}
