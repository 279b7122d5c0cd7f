//! Formats: whether a lockfile survives one, and its text in one.

ghost use Rattle.std.specs.Prelude.{◌≡◌, ◌≢◌, ◌≤◌, ◌↔◌, Some, IfErr, IfOk, IsOk, IsTrue};
ghost use Rattle.std.specs.Prelude.{string_bytes};
ghost use Rattle.cargo_lock_references.specs.Format.{format_numbered};
ghost use Rattle.cargo_lock_encoding.specs.Survives.{Survives, in_format};
ghost use Rattle.cargo_lock_lines.specs.Layout.{join_lines};
ghost use Rattle.cargo_lock_encoding.specs.Text.{lines_of};
ghost use Rattle.cargo_lock_c.specs.declared.refusal.Refusal.TheVariants.{NoFormat, NoMemory};
ghost use Rattle.cargo_lock_c.specs.Answers.{IsHandedOut};
ghost use Rattle.cargo_lock_c.specs.Statuses.{status_of};
ghost use Rattle.cargo_lock_c.specs.Texts.{IsSurvivor, IsTranslation, RefusesFormat};
ghost use Rattle.cargo_lock_c.specs.Texts.{SurvivesNumber};

use crate::handing::hand_out;
use crate::reading::read;
use crate::refusal::{DONE, Refusal};
use cargo_lock::{Lockfile, ResolveVersion};
use std::alloc::Global;

/// Whether the text is a lockfile that survives the format of a number: status 0 if it is, and 6 if
/// it does not survive.
#[unsafe(no_mangle)]
pub extern "C" fn cargo_lock_survives(alloc: Global, text: &[u8], format: u32) -> u32
    ensures survives { result ≡ 0 → SurvivesNumber text.now format }
    ensures refused { RefusesFormat text.now format result }
    ensures status { result ≢ 5 }
{
    match survivor(alloc, text, format) {
        Ok(lockfile) => {
            drop(lockfile);
            DONE
        }
        Err(refusal) => refusal.status(),
    }
}

/// The text, in the format of a number, of a lockfile that survives it. Status 6 means that the
/// lockfile does not survive. Survival is that of the table: a root, and the replacement of a
/// package with dependencies, are in no text.
#[unsafe(no_mangle)]
pub extern "C" fn cargo_lock_translate(
    alloc: Global,
    text: &[u8],
    format: u32,
    out: &mut [u8],
    length: &mut usize,
) -> u32
    ensures translation { IsHandedOut (IsTranslation text.now format) result out.old out.new
        length.old length.new }
    ensures refused { RefusesFormat text.now format result }
{
    match translation(alloc, text, format) {
        Ok(written) => hand_out(written.as_bytes(), out, length),
        Err(refusal) => refusal.status(),
    }
}

/// The text, in the format of a number, of a lockfile that survives it.
fn translation(alloc: Global, bytes: &[u8], number: u32) -> Result<String, Refusal>
    ensures ok { IfOk result (λ written. IsTranslation bytes.now number (string_bytes written)) }
    ensures refused { IfErr result
        (λ refusal. RefusesFormat bytes.now number (status_of refusal)) }
    ensures number { IsOk result → (1 ≤ number) × (number ≤ 4) }
{
    let lockfile = survivor(alloc, bytes, number)?;
    let text = text_of(alloc, &lockfile)?;
    Ok(text)
}

fn text_of(alloc: Global, lockfile: &Lockfile) -> Result<String, Refusal>
    ensures ok { IfOk result (λ text. string_bytes text ≡ join_lines (lines_of lockfile.now)) }
    ensures err { IfErr result (λ refusal. refusal ≡ NoMemory) }
{
    Ok(lockfile.to_string(alloc)?)
}

/// The lockfile of a text's bytes, set to the format of a number, which it survives. The number is
/// checked before the text.
fn survivor(alloc: Global, bytes: &[u8], number: u32) -> Result<Lockfile, Refusal>
    ensures ok { IfOk result (IsSurvivor bytes.now number) }
    ensures refused { IfErr result
        (λ refusal. RefusesFormat bytes.now number (status_of refusal)) }
    ensures number { IsOk result → (1 ≤ number) × (number ≤ 4) }
{
    let format = format_of(alloc, number)?;
    let lockfile = read(alloc, bytes)?;
    if !is_survivor(alloc, &lockfile, format)? {
        return Err(Refusal::Lost);
    }
    Ok(set_to(lockfile, format))
}

/// The format of a number, 1 to 4.
fn format_of(alloc: Global, number: u32) -> Result<ResolveVersion, Refusal>
    ensures ok { IfOk result (λ format. format_numbered number ≡ Some format) }
    ensures accepted { IsOk result ↔ ((1 ≤ number) × (number ≤ 4)) }
    ensures err { IfErr result (λ refusal. refusal ≡ NoFormat) }
{
    match ResolveVersion::from_number(alloc, number) {
        Ok(format) => Ok(format),
        Err(_) => Err(Refusal::NoFormat),
    }
}

fn is_survivor(alloc: Global, lockfile: &Lockfile, format: ResolveVersion) -> Result<bool, Refusal>
    ensures ok { IfOk result (λ survives. IsTrue survives ↔ Survives lockfile.now format) }
    ensures err { IfErr result (λ refusal. refusal ≡ NoMemory) }
{
    Ok(lockfile.survives(alloc, format)?)
}

fn set_to(lockfile: Lockfile, format: ResolveVersion) -> Lockfile
    ensures { result ≡ in_format format lockfile }
{
    let mut lockfile = lockfile;
    lockfile.version = format;
    lockfile
}
