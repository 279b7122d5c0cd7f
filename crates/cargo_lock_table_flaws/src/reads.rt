//! Whether what is under a key of a package reads.

ghost use Rattle.std.specs.Prelude.{◌≡◌, IfOk, IsOkUnless, is_some};
ghost use Rattle.cargo_lock_parts.specs.Checksum.{digest_in};
ghost use Rattle.cargo_lock_parts.specs.SourceReading.{source_of};
ghost use Rattle.cargo_lock_parts.specs.declared.error.Error.TheVariants.{Memory};
ghost use Rattle.cargo_lock_references.specs.Reference.{reference_of, version_of};
ghost use Rattle.cargo_lock_table_flaws.specs.Finding.{written_of};
ghost use Rattle.cargo_lock_table_flaws.specs.Unread as spec;

use crate::finding::{Key, Written};
use cargo_lock_parts::error::{Error, Result};
use cargo_lock_parts::package::{Checksum, SourceId};
use cargo_lock_references::EncodableDependency;
use cargo_lock_references::package_version::version_of;
use std::alloc::Global;

/// Whether what stands under a key reads. The one error is `Memory`, which is also the error for a
/// URL of 4 GB or more.
pub(crate) fn is_read(alloc: Global, key: Key, written: Written<'_>) -> Result<bool>
    ensures ok { IfOk result (λ found. found ≡ spec.is_read key (written_of written.entry)) }
    ensures err { IsOkUnless result Memory }
{
    match written {
        Written::Nothing => Ok(is_optional(key)),
        Written::Text(text) => is_read_text(alloc, key, text),
        Written::NoText | Written::NoList => Ok(false),
    }
}

// Whether a package may be without the key.
fn is_optional(key: Key) -> bool
    ensures { result ≡ spec.is_optional key }
{
    match key {
        Key::Name | Key::Version => false,
        Key::Source | Key::Checksum | Key::Dependencies | Key::Replace => true,
    }
}

// Whether a text reads as what its key has.
fn is_read_text(alloc: Global, key: Key, text: &str) -> Result<bool>
    ensures ok { IfOk result (λ found. found ≡ spec.is_read_text key text.now) }
    ensures err { IsOkUnless result Memory }
{
    match key {
        Key::Name => Ok(true),
        Key::Version => is_version(alloc, text),
        Key::Source => is_source(alloc, text),
        Key::Checksum => is_checksum(alloc, text),
        Key::Dependencies | Key::Replace => is_reference(alloc, text),
    }
}

fn is_version(alloc: Global, text: &str) -> Result<bool>
    ensures ok { IfOk result (λ found. found ≡ is_some (version_of text.now)) }
    ensures err { IsOkUnless result Memory }
{
    match version_of(alloc, text) {
        Ok(_) => Ok(true),
        Err(Error::Memory) => Err(Error::Memory),
        Err(_) => Ok(false),
    }
}

fn is_source(alloc: Global, text: &str) -> Result<bool>
    ensures ok { IfOk result (λ found. found ≡ is_some (source_of text.now)) }
    ensures err { IsOkUnless result Memory }
{
    match SourceId::from_url(alloc, text) {
        Ok(_source) => Ok(true),
        Err(Error::Memory) => Err(Error::Memory),
        Err(fault) if fault.is_too_long() => Err(Error::Memory),
        Err(_) => Ok(false),
    }
}

fn is_checksum(alloc: Global, text: &str) -> Result<bool>
    ensures ok { IfOk result (λ found. found ≡ is_some (digest_in text.now)) }
    ensures err { IsOkUnless result Memory }
{
    match Checksum::from_str(alloc, text) {
        Ok(_) => Ok(true),
        Err(Error::Memory) => Err(Error::Memory),
        Err(_) => Ok(false),
    }
}

fn is_reference(alloc: Global, text: &str) -> Result<bool>
    ensures ok { IfOk result (λ found. found ≡ is_some (reference_of text.now)) }
    ensures err { IsOkUnless result Memory }
{
    match EncodableDependency::from_str(alloc, text) {
        Ok(_reference) => Ok(true),
        Err(Error::Memory) => Err(Error::Memory),
        Err(fault) if fault.is_too_long() => Err(Error::Memory),
        Err(_) => Ok(false),
    }
}
