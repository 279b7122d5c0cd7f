//! Reading a lockfile within a limit.

ghost use Rattle.std.specs.Prelude.{◌≡◌, IfErr, IfOk, MatchOption};
ghost use Rattle.toml.specs.View.{table_view};
ghost use Rattle.cargo_lock_parts.specs.Error.{IsLong, Reads, Refuses, RefusesUrls};
ghost use Rattle.cargo_lock_encoding.specs.Lockfiles.{LockfileData};
ghost use Rattle.cargo_lock_encoding.specs.Means.{IsLocked, Means, TextMeans};
ghost use Rattle.cargo_lock_encoding.specs.TableReading.{encoded_at};
ghost use Rattle.cargo_lock_limit.specs.Limits.{AreBeyond, HoldsWithin};

use crate::look::may_be_beyond;
use crate::matched::match_beyond;
use crate::versions::is_beyond;
use cargo_lock::Lockfile;
use cargo_lock_encoding::{EncodableLockfile, encoded_at};
use cargo_lock_parts::error::{Error, Result};
use std::alloc::Global;
use toml::Table;

/// Reads the text of a lockfile in any format, as `Lockfile::from_str` does, with the same errors.
/// It is `None` where the versions of what the packages depend on have more bytes together than the
/// limit; then no dependency was made. A text that means no lockfile may be `None` too, where what
/// its references match is as much.
///
/// ```
/// let found = lockfile_within(rt.alloc(), text, 1 << 28)?;
/// if found.is_none() {
///     println!(rt; "more than 256 MiB")?;
/// }
/// ```
pub fn lockfile_within(alloc: Global, text: &str, limit: u32) -> Result<Option<Lockfile>>
    ensures ok { IfOk result (λ found. MatchOption found
        (AreBeyond limit (TextMeans text.now)) (HoldsWithin limit (TextMeans text.now))) }
    ensures err { IfErr result (λ error.
        RefusesUrls (IsLong text.now) error ((l : LockfileData) → ¬ TextMeans text.now l)) }
{
    let found = read(alloc, text, limit)?;
    match found {
        Some(lockfile) => Ok(within(lockfile, limit)),
        None => Ok(None),
    }
}

// A lockfile, unless it is beyond the limit.
fn within(lockfile: Lockfile, limit: u32) -> Option<Lockfile>
    ensures { MatchOption result
        (AreBeyond limit (λ l. l ≡ lockfile)) (HoldsWithin limit (λ l. l ≡ lockfile)) }
{
    if is_beyond(lockfile.packages.as_slice(), limit) {
        return None;
    }
    Some(lockfile)
}

// Reads a text. Where a look at it says that it may be beyond the limit, its references are matched
// before they resolve.
fn read(alloc: Global, text: &str, limit: u32) -> Result<Option<Lockfile>>
    ensures ok { IfOk result (λ found. MatchOption found
        (AreBeyond limit (TextMeans text.now)) (TextMeans text.now)) }
    ensures err { IfErr result (λ error.
        RefusesUrls (IsLong text.now) error ((l : LockfileData) → ¬ TextMeans text.now l)) }
{
    if may_be_beyond(text, limit) {
        return read_with_care(alloc, text, limit);
    }
    let lockfile = Lockfile::from_str(alloc, text)?;
    Ok(Some(lockfile))
}

// Reads a text by its table. One without a table is refused with the error of reading it.
fn read_with_care(alloc: Global, text: &str, limit: u32) -> Result<Option<Lockfile>>
    ensures ok { IfOk result (λ found. MatchOption found
        (AreBeyond limit (TextMeans text.now)) (TextMeans text.now)) }
    ensures err { IfErr result (λ error.
        RefusesUrls (IsLong text.now) error ((l : LockfileData) → ¬ TextMeans text.now l)) }
{
    match toml::table_from_str(alloc, text) {
        Ok(table) => read_table(alloc, table, limit),
        Err(error) if error.is_memory() => Err(Error::Memory),
        Err(_) => {
            let lockfile = Lockfile::from_str(alloc, text)?;
            Ok(Some(lockfile))
        }
    }
}

// Reads a table that is not used again.
fn read_table(alloc: Global, table: Table, limit: u32) -> Result<Option<Lockfile>>
    ensures ok { IfOk result (λ found. MatchOption found
        (AreBeyond limit (Means (table_view table))) (Means (table_view table))) }
    ensures err { IfErr result (λ error.
        Refuses error ((l : LockfileData) → ¬ Means (table_view table) l)) }
{
    match values_of(alloc, &table) {
        Ok(values) => {
            drop(table);
            read_values(alloc, values, limit)
        }
        Err(error) => Err(error),
    }
}

// The values of a table. A URL of 4 GB or more is reported as refused memory.
fn values_of(alloc: Global, table: &Table) -> Result<EncodableLockfile>
    ensures { Reads (λ e. e) result (encoded_at (table_view table.now)) }
{
    match encoded_at(alloc, table) {
        Ok(values) => Ok(values),
        Err(error) if error.is_too_long() => Err(Error::Memory),
        Err(error) => Err(error),
    }
}

// Reads values, unless what their references match is beyond the limit.
fn read_values(alloc: Global, values: EncodableLockfile, limit: u32) -> Result<Option<Lockfile>>
    ensures ok { IfOk result (λ found. MatchOption found
        (AreBeyond limit (IsLocked values)) (IsLocked values)) }
    ensures err { IfErr result (λ error.
        Refuses error ((l : LockfileData) → ¬ IsLocked values l)) }
{
    if match_beyond(alloc, values.package.as_slice(), limit)? {
        return Ok(None);
    }
    let lockfile = Lockfile::from_encodable(alloc, values)?;
    Ok(Some(lockfile))
}
