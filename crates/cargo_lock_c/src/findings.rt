//! What is wrong with a lockfile, line by line.

ghost use Rattle.std.specs.Prelude.{◌≡◌, ◌≤◌, ◌⊎◌, IfErr, IfOk, map, string_bytes};
ghost use Rattle.cargo_lock_check.specs.Finding.{lockfile_finding_of, lockfile_findings_text};
ghost use Rattle.cargo_lock_check.specs.Findings.{AreFindings};
ghost use Rattle.cargo_lock_c.specs.declared.refusal.Refusal.TheVariants.{NoMemory};
ghost use Rattle.cargo_lock_c.specs.Answers.{IsHandedOut};
ghost use Rattle.cargo_lock_c.specs.Findings.{AreLinesOfFindings, IsFindingsText};
ghost use Rattle.cargo_lock_c.specs.Statuses.{status_of};
ghost use Rattle.cargo_lock_c.specs.Texts.{RefusesText};

use crate::handing::hand_out;
use crate::reading::read;
use crate::refusal::Refusal;
use cargo_lock::Lockfile;
use cargo_lock_check::{Finding, Findings};
use std::alloc::Global;
use std::str;

/// What is wrong with the lockfile of a text, a line for each finding, as `cargo-lock check` prints
/// it. If nothing is wrong there are no lines, and the length is 0.
#[unsafe(no_mangle)]
pub extern "C" fn cargo_lock_check(
    alloc: Global,
    text: &[u8],
    out: &mut [u8],
    length: &mut usize,
) -> u32
    ensures findings { IsHandedOut (IsFindingsText text.now) result out.old out.new
        length.old length.new }
    ensures refused { RefusesText text.now result }
    ensures status { (result ≤ 3) ⊎ (result ≡ 5) }
{
    match finding_lines(alloc, text) {
        Ok(lines) => hand_out(lines.as_bytes(), out, length),
        Err(refusal) => refusal.status(),
    }
}

/// The lines of what is wrong with the lockfile of a text's bytes.
fn finding_lines(alloc: Global, bytes: &[u8]) -> Result<String, Refusal>
    ensures ok { IfOk result (λ lines. IsFindingsText bytes.now (string_bytes lines)) }
    ensures refused { IfErr result (λ refusal. RefusesText bytes.now (status_of refusal)) }
    ensures below { IfErr result (λ refusal. status_of refusal ≤ 3) }
{
    let Ok(text) = str::from_utf8(bytes) else {
        return Err(Refusal::NoText);
    };
    match lines_of_text(alloc, text) {
        Ok(lines) => Ok(lines),
        Err(refusal) => Err(refusal),
    }
}

/// The lines of what is wrong with the lockfile of a text.
fn lines_of_text(alloc: Global, text: &str) -> Result<String, Refusal>
    ensures ok { IfOk result (λ lines. IsFindingsText text.now (string_bytes lines)) }
    ensures refused { IfErr result (λ refusal. RefusesText text.now (status_of refusal)) }
    ensures below { IfErr result (λ refusal. status_of refusal ≤ 3) }
{
    let lockfile = read(alloc, text.as_bytes())?;
    let lines = lines_about(alloc, text, &lockfile)?;
    Ok(lines)
}

/// The lines of what is wrong with a lockfile that was read from a text.
fn lines_about(alloc: Global, text: &str, lockfile: &Lockfile) -> Result<String, Refusal>
    ensures ok { IfOk result (λ lines. AreLinesOfFindings text.now lockfile.now
        (string_bytes lines)) }
    ensures err { IfErr result (λ refusal. refusal ≡ NoMemory) }
{
    let findings = findings_of(alloc, text, lockfile)?;
    let all = findings.all(alloc)?;
    let lines = lines_of(alloc, all.as_slice())?;
    Ok(lines)
}

/// What is wrong with a lockfile that was read from a text.
fn findings_of<'a>(
    alloc: Global,
    text: &str,
    lockfile: &'a Lockfile,
) -> Result<Findings<'a>, Refusal>
    ensures ok { IfOk result (AreFindings text.now lockfile.now) }
    ensures err { IfErr result (λ refusal. refusal ≡ NoMemory) }
{
    match Findings::of(alloc, text, lockfile) {
        Ok(findings) => Ok(findings),
        Err(_) => Err(Refusal::NoMemory),
    }
}

fn lines_of(alloc: Global, findings: &[Finding<'_>]) -> Result<String, Refusal>
    ensures ok { IfOk result (λ lines. string_bytes lines
        ≡ lockfile_findings_text (map lockfile_finding_of findings.now)) }
    ensures err { IfErr result (λ refusal. refusal ≡ NoMemory) }
{
    let mut lines = String::new(alloc);
    for finding in findings {
        let line = format!(in alloc; "{finding}\n")?;
        lines.push_str(line.as_str())?;
    }
    Ok(lines)
}
