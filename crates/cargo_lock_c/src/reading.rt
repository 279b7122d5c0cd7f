//! Reading a text.

ghost use Rattle.std.specs.Prelude.{◌≡◌, ◌≢◌, ◌≤◌, ◌⊎◌, [], IfErr, IfOk, string_bytes};
ghost use Rattle.cargo_lock_parts.specs.Error.{IsParse};
ghost use Rattle.cargo_lock_references.specs.Finds.{Finds};
ghost use Rattle.cargo_lock_encoding.specs.Means.{TextMeans};
ghost use Rattle.cargo_lock_c.specs.declared.refusal.Refusal.TheVariants.{NoMemory, NoText};
ghost use Rattle.cargo_lock_c.specs.Answers.{IsHandedOut};
ghost use Rattle.cargo_lock_c.specs.Statuses.{status_of};
ghost use Rattle.cargo_lock_c.specs.Texts.{IsInFormat, MeansNothing, RefusesText};

use crate::handing::hand_out;
use crate::refusal::{DONE, Refusal};
use cargo_lock::{Error, Lockfile};
use std::alloc::Global;
use std::str;

/// The lockfile of a text. A URL of 4 GB or more is reported as out of memory: no text of fewer
/// than 2^28 bytes has one.
fn read_text(alloc: Global, text: &str) -> Result<Lockfile, Error>
    ensures { Finds (TextMeans text.now) result }
{
    match Lockfile::from_str(alloc, text) {
        Ok(lockfile) => Ok(lockfile),
        Err(fault) if fault.is_too_long() => Err(Error::Memory),
        Err(fault) => Err(fault),
    }
}

/// The lockfile of a text's bytes.
pub(crate) fn read(alloc: Global, bytes: &[u8]) -> Result<Lockfile, Refusal>
    ensures ok { IfOk result (TextMeans bytes.now) }
    ensures refused { IfErr result (λ refusal. RefusesText bytes.now (status_of refusal)) }
    ensures below { IfErr result (λ refusal. status_of refusal ≤ 3) }
{
    let Ok(text) = str::from_utf8(bytes) else {
        return Err(Refusal::NoText);
    };
    match read_text(alloc, text) {
        Ok(lockfile) => Ok(lockfile),
        Err(fault) => Err(Refusal::from(fault)),
    }
}

/// The number of the format of the text's lockfile. Status 1 means that the text is not a lockfile,
/// and 2 that it is not UTF-8.
#[unsafe(no_mangle)]
pub extern "C" fn cargo_lock_format(alloc: Global, text: &[u8], format: &mut u32) -> u32
    ensures read { result ≡ 0 → IsInFormat text.now format.new }
    ensures refused { RefusesText text.now result }
    ensures kept { result ≢ 0 → format.new ≡ format.old }
    ensures status { result ≤ 3 }
{
    match read(alloc, text) {
        Ok(lockfile) => {
            *format = u32::from(lockfile.version);
            DONE
        }
        Err(refusal) => refusal.status(),
    }
}

/// Why the text is not a lockfile, as a message. If it is one, the message is empty, and the length
/// is 0.
#[unsafe(no_mangle)]
pub extern "C" fn cargo_lock_fault(
    alloc: Global,
    text: &[u8],
    out: &mut [u8],
    length: &mut usize,
) -> u32
    ensures words { IsHandedOut (λ words. words ≢ [] → MeansNothing text.now) result
        out.old out.new length.old length.new }
    ensures refused { RefusesText text.now result }
    ensures status { (result ≡ 0) ⊎ (result ≡ 2) ⊎ (result ≡ 3) ⊎ (result ≡ 5) }
{
    match fault_words(alloc, text) {
        Ok(words) => hand_out(words.as_bytes(), out, length),
        Err(refusal) => refusal.status(),
    }
}

/// Why the bytes are not the text of a lockfile.
fn fault_words(alloc: Global, bytes: &[u8]) -> Result<String, Refusal>
    ensures ok { IfOk result (λ words. string_bytes words ≢ [] → MeansNothing bytes.now) }
    ensures refused { IfErr result (λ refusal. RefusesText bytes.now (status_of refusal)) }
    ensures kind { IfErr result (λ refusal. (refusal ≡ NoText) ⊎ (refusal ≡ NoMemory)) }
{
    let Ok(text) = str::from_utf8(bytes) else {
        return Err(Refusal::NoText);
    };
    match read_text(alloc, text) {
        Ok(_) => Ok(String::new(alloc)),
        Err(fault) => words_of(fault),
    }
}

/// The message of an error of reading, or `NoMemory`.
fn words_of(fault: Error) -> Result<String, Refusal>
    ensures ok { IfOk result (λ words. IsParse fault (string_bytes words)) }
    ensures err { IfErr result (λ refusal. refusal ≡ NoMemory) }
{
    match fault {
        Error::Parse(words) => Ok(words),
        _ => Err(Refusal::NoMemory),
    }
}
