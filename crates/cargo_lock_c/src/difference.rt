//! What differs between the packages of two lockfiles, line by line.

ghost use Rattle.std.specs.Prelude.{◌≡◌, ◌≤◌, ◌⊎◌, IfErr, IfOk, map, string_bytes};
ghost use Rattle.cargo_lock_diff.specs.Change.{change_of, changes_text};
ghost use Rattle.cargo_lock_encoding.specs.Means.{TextMeans};
ghost use Rattle.cargo_lock.specs.CargoChecksums.{with_cargo_checksums_in};
ghost use Rattle.cargo_lock_c.specs.declared.refusal.Refusal.TheVariants.{NoMemory};
ghost use Rattle.cargo_lock_c.specs.Answers.{IsHandedOut};
ghost use Rattle.cargo_lock_c.specs.Differences.{AreLinesBetween, AreLinesBetweenPackages};
ghost use Rattle.cargo_lock_c.specs.Differences.{IsDifferenceText, ReadsOldText, RefusesNewText};
ghost use Rattle.cargo_lock_c.specs.Statuses.{status_of};
ghost use Rattle.cargo_lock_c.specs.Texts.{RefusesText};

use crate::handing::hand_out;
use crate::reading::read;
use crate::refusal::Refusal;
use cargo_lock::{Lockfile, Package};
use cargo_lock_diff::{Change, Difference};
use std::alloc::Global;

/// What differs between the packages of two lockfiles, a line for each change, and if
/// `dependencies` is set also what differs between their dependencies. The statuses 1 and 2 are
/// about the old text. The new one is read after it: status 10 means that it is not a lockfile, and
/// 11 that it is not UTF-8.
#[unsafe(no_mangle)]
pub extern "C" fn cargo_lock_diff(
    alloc: Global,
    old: &[u8],
    new: &[u8],
    dependencies: bool,
    out: &mut [u8],
    length: &mut usize,
) -> u32
    ensures difference { IsHandedOut (IsDifferenceText old.now new.now dependencies) result
        out.old out.new length.old length.new }
    ensures refused { RefusesText old.now result }
    ensures refused_new { RefusesNewText new.now result }
    ensures read_old { ReadsOldText old.now result }
    ensures status { (result ≤ 3) ⊎ (result ≡ 5) ⊎ (result ≡ 10) ⊎ (result ≡ 11) }
{
    match difference_lines(alloc, old, new, dependencies) {
        Ok(lines) => hand_out(lines.as_bytes(), out, length),
        Err(refusal) => refusal.status(),
    }
}

/// The lines of what differs between the lockfiles of two texts' bytes.
fn difference_lines(
    alloc: Global,
    old: &[u8],
    new: &[u8],
    dependencies: bool,
) -> Result<String, Refusal>
    ensures ok { IfOk result (λ lines. IsDifferenceText old.now new.now dependencies
        (string_bytes lines)) }
    ensures refused { IfErr result (λ refusal. RefusesText old.now (status_of refusal)) }
    ensures refused_new { IfErr result (λ refusal. RefusesNewText new.now (status_of refusal)) }
    ensures read_old { IfErr result (λ refusal. ReadsOldText old.now (status_of refusal)) }
    ensures kind { IfErr result (λ refusal. (status_of refusal ≤ 3) ⊎ (status_of refusal ≡ 10)
        ⊎ (status_of refusal ≡ 11)) }
{
    let before = read(alloc, old)?;
    let after = read_new(alloc, new)?;
    let lines = lines_between(alloc, before, after, dependencies)?;
    Ok(lines)
}

/// The lockfile of the new text's bytes.
fn read_new(alloc: Global, bytes: &[u8]) -> Result<Lockfile, Refusal>
    ensures ok { IfOk result (TextMeans bytes.now) }
    ensures refused { IfErr result (λ refusal. RefusesNewText bytes.now (status_of refusal)) }
    ensures kind { IfErr result (λ refusal. (status_of refusal ≡ 3) ⊎ (status_of refusal ≡ 10)
        ⊎ (status_of refusal ≡ 11)) }
{
    match read(alloc, bytes) {
        Ok(lockfile) => Ok(lockfile),
        Err(refusal) => Err(refusal.into_new()),
    }
}

/// The lines of what differs between two lockfiles.
fn lines_between(
    alloc: Global,
    before: Lockfile,
    after: Lockfile,
    dependencies: bool,
) -> Result<String, Refusal>
    ensures ok { IfOk result (λ lines. AreLinesBetween before after dependencies
        (string_bytes lines)) }
    ensures err { IfErr result (λ refusal. refusal ≡ NoMemory) }
{
    let before = compared(alloc, before)?;
    let after = compared(alloc, after)?;
    let lines = lines_of_packages(alloc, &before.packages, &after.packages, dependencies)?;
    Ok(lines)
}

/// The lockfile with the checksums that Cargo reads.
pub(crate) fn compared(alloc: Global, lockfile: Lockfile) -> Result<Lockfile, Refusal>
    ensures ok { IfOk result (λ l. l ≡ with_cargo_checksums_in lockfile) }
    ensures err { IfErr result (λ refusal. refusal ≡ NoMemory) }
{
    match lockfile.with_cargo_checksums(alloc) {
        Ok(lockfile) => Ok(lockfile),
        Err(_) => Err(Refusal::NoMemory),
    }
}

/// The lines of what differs between two lists of packages.
fn lines_of_packages(
    alloc: Global,
    before: &Vec<Package>,
    after: &Vec<Package>,
    dependencies: bool,
) -> Result<String, Refusal>
    ensures ok { IfOk result (λ lines. AreLinesBetweenPackages before.now.items after.now.items
        dependencies (string_bytes lines)) }
    ensures err { IfErr result (λ refusal. refusal ≡ NoMemory) }
{
    let difference = Difference::of(alloc, before, after)?;
    let changes = difference.all_changes(alloc, dependencies)?;
    let lines = lines_of(alloc, changes.as_slice())?;
    Ok(lines)
}

fn lines_of(alloc: Global, changes: &[Change<'_>]) -> Result<String, Refusal>
    ensures ok { IfOk result (λ lines. string_bytes lines
        ≡ changes_text (map change_of changes.now)) }
    ensures err { IfErr result (λ refusal. refusal ≡ NoMemory) }
{
    let mut lines = String::new(alloc);
    for change in changes {
        let line = format!(in alloc; "{change}\n")?;
        lines.push_str(line.as_str())?;
    }
    Ok(lines)
}
