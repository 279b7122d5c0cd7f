//! The packages of a lockfile, line by line.

ghost use Rattle.std.specs.Prelude.{◌≡◌, ◌≤◌, ◌⊎◌, true, false, All, Any, IfErr, IfOk};
ghost use Rattle.std.specs.Prelude.{option_map, string_bytes};
ghost use Rattle.std.specs.List.{flat_map, list_all};
ghost use Rattle.std.specs.Str.{chars};
ghost use Rattle.cargo_lock_parts.specs.Checksum.{digest_of};
ghost use Rattle.cargo_lock_c.specs.declared.refusal.Refusal.TheVariants.{NoLine, NoMemory};
ghost use Rattle.cargo_lock_c.specs.Answers.{IsHandedOut};
ghost use Rattle.cargo_lock_c.specs.Packages.{IsPackageList, LacksLine, checksum_field, has_line};
ghost use Rattle.cargo_lock_c.specs.Packages.{is_line_char, source_field, tabbed_line};
ghost use Rattle.cargo_lock_c.specs.Packages as spec;
ghost use Rattle.cargo_lock_c.specs.Statuses.{status_of};
ghost use Rattle.cargo_lock_c.specs.Texts.{RefusesText};

use crate::handing::hand_out;
use crate::reading::read;
use crate::refusal::Refusal;
use cargo_lock::{Checksum, Package, SourceId};
use std::alloc::Global;

/// The packages of a lockfile in its order, a line each: name, version, source and checksum,
/// separated by tabs. A source or a checksum that is absent is empty. Status 9 means that a name or
/// a source has a control character, such as a tab or a newline, or a separator of lines or
/// paragraphs.
#[unsafe(no_mangle)]
pub extern "C" fn cargo_lock_packages(
    alloc: Global,
    text: &[u8],
    out: &mut [u8],
    length: &mut usize,
) -> u32
    ensures packages { IsHandedOut (IsPackageList text.now) result out.old out.new
        length.old length.new }
    ensures no_line { result ≡ 9 → LacksLine text.now }
    ensures refused { RefusesText text.now result }
    ensures status { (result ≤ 3) ⊎ (result ≡ 5) ⊎ (result ≡ 9) }
{
    match package_lines(alloc, text) {
        Ok(lines) => hand_out(lines.as_bytes(), out, length),
        Err(refusal) => refusal.status(),
    }
}

/// The lines of the packages of the lockfile of a text's bytes.
fn package_lines(alloc: Global, bytes: &[u8]) -> Result<String, Refusal>
    ensures ok { IfOk result (λ lines. IsPackageList bytes.now (string_bytes lines)) }
    ensures no_line { IfErr result (λ refusal. status_of refusal ≡ 9 → LacksLine bytes.now) }
    ensures refused { IfErr result (λ refusal. RefusesText bytes.now (status_of refusal)) }
    ensures kind { IfErr result (λ refusal. (status_of refusal ≤ 3) ⊎ (status_of refusal ≡ 9)) }
{
    let lockfile = read(alloc, bytes)?;
    let lines = lines_of(alloc, lockfile.packages.as_slice())?;
    Ok(lines)
}

fn lines_of(alloc: Global, packages: &[Package]) -> Result<String, Refusal>
    ensures ok { IfOk result (λ lines. All (λ p. has_line p ≡ true) packages.now
        × (string_bytes lines ≡ flat_map tabbed_line packages.now)) }
    ensures err { IfErr result (λ refusal. (refusal ≡ NoMemory)
        ⊎ ((refusal ≡ NoLine) × Any (λ p. has_line p ≡ false) packages.now)) }
{
    let mut lines = String::new(alloc);
    for package in packages {
        let line = line_of(alloc, package)?;
        lines.push_str(line.as_str())?;
    }
    Ok(lines)
}

fn line_of(alloc: Global, package: &Package) -> Result<String, Refusal>
    ensures ok { IfOk result (λ line. (has_line «package».now ≡ true)
        × (string_bytes line ≡ tabbed_line «package».now)) }
    ensures err { IfErr result (λ refusal. (refusal ≡ NoMemory)
        ⊎ ((refusal ≡ NoLine) × (has_line «package».now ≡ false))) }
{
    let name = package.name.as_str();
    let version = &package.version;
    let source = source_text(alloc, &package.source)?;
    let checksum = checksum_text(alloc, &package.checksum)?;
    if !(is_plain(name) && is_plain(source.as_str())) {
        return Err(Refusal::NoLine);
    }
    let line = format!(in alloc; "{name}\t{version}\t{source}\t{checksum}\n")?;
    Ok(line)
}

/// The text of a source, or an empty one.
fn source_text(alloc: Global, source: &Option<SourceId>) -> Result<String, Refusal>
    ensures ok { IfOk result (λ text. string_bytes text ≡ source_field source.now) }
    ensures err { IfErr result (λ refusal. refusal ≡ NoMemory) }
{
    match source {
        Some(source) => Ok(source.to_text(alloc)?),
        None => Ok(String::new(alloc)),
    }
}

/// The text of a checksum, or an empty one.
fn checksum_text(alloc: Global, checksum: &Option<Checksum>) -> Result<String, Refusal>
    ensures ok { IfOk result (λ text. string_bytes text
        ≡ checksum_field (option_map digest_of checksum.now)) }
    ensures err { IfErr result (λ refusal. refusal ≡ NoMemory) }
{
    match checksum {
        Some(checksum) => Ok(checksum.to_lower_hex(alloc)?),
        None => Ok(String::new(alloc)),
    }
}

/// Whether each character of a text can be in a line.
fn is_plain(text: &str) -> bool
    ensures { result ≡ list_all is_line_char (chars text.now) }
{
    text.chars().all(is_line_char)
}

/// Whether a character is not a control character and does not separate lines or paragraphs.
fn is_line_char(c: char) -> bool
    ensures { result ≡ spec.is_line_char c }
{
    match c {
        '\0'..='\u{1f}' | '\u{7f}'..='\u{9f}' | '\u{2028}' | '\u{2029}' => false,
        _ => true,
    }
}
