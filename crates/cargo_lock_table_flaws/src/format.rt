//! The format of a table whose packages may not read.

ghost use Rattle.std.specs.Prelude.{◌≡◌, IfOk, IsOkUnless, codes, false, option_map, unwrap_or};
ghost use Rattle.std.specs.Option.{option_and_then};
ghost use Rattle.toml.specs.Data.{as_integer, get_member};
ghost use Rattle.toml.specs.View.{table_view, view};
ghost use Rattle.cargo_lock_parts.specs.declared.error.Error.TheVariants.{Memory};
ghost use Rattle.cargo_lock_references.specs.Format.{format_of_number};
ghost use Rattle.cargo_lock_table_flaws.specs.Format as spec;
ghost use Rattle.cargo_lock_table_flaws.specs.Format.{has_checksum_member};

use crate::table::value_at;
use cargo_lock_parts::error::{Error, Result};
use cargo_lock_references::version::format_of_values;
use cargo_lock_references::{Metadata, MetadataKey, ResolveVersion};
use std::alloc::Global;
use toml::{Table, Value};

/// The format that a table says, if it says one. The one error is `Memory`.
#[tactic(auto, unfolding(crate::specs::Format::said_format))]
pub(crate) fn said_format(alloc: Global, table: &Table) -> Result<Option<ResolveVersion>>
    ensures ok { IfOk result (λ format. format ≡ spec.said_format (table_view table.now)) }
    ensures err { IsOkUnless result Memory }
{
    match value_at(table, "version") {
        Some(number) => numbered(alloc, number),
        None => Ok(Some(unnumbered(alloc, table)?)),
    }
}

// The format of a number.
fn numbered(alloc: Global, value: &Value) -> Result<Option<ResolveVersion>>
    ensures ok { IfOk result (λ format. format
        ≡ option_and_then format_of_number (as_integer (view value.now))) }
    ensures err { IsOkUnless result Memory }
{
    let Some(number) = value.as_integer() else {
        return Ok(None);
    };
    match format_of_values(alloc, Some(number), &[], &Metadata::new(alloc)) {
        Ok(format) => Ok(Some(format)),
        Err(Error::Memory) => Err(Error::Memory),
        Err(_) => Ok(None),
    }
}

// The format of a table without a number.
fn unnumbered(alloc: Global, table: &Table) -> Result<ResolveVersion>
    ensures ok { IfOk result (λ format. format ≡ spec.unnumbered_format (table_view table.now)) }
    ensures err { IsOkUnless result Memory }
{
    if has_checksums(alloc, table)? {
        Ok(ResolveVersion::V1)
    } else {
        Ok(ResolveVersion::V2)
    }
}

// Whether the metadata of a table have a checksum.
fn has_checksums(alloc: Global, table: &Table) -> Result<bool>
    ensures ok { IfOk result (λ found. found ≡ unwrap_or (option_map spec.has_checksums
        (get_member (codes "metadata") (table_view table.now))) false) }
    ensures err { IsOkUnless result Memory }
{
    match value_at(table, "metadata") {
        Some(metadata) => is_with_checksums(alloc, metadata),
        None => Ok(false),
    }
}

// Whether a value is a table with the key of a checksum.
fn is_with_checksums(alloc: Global, metadata: &Value) -> Result<bool>
    ensures ok { IfOk result (λ found. found ≡ spec.has_checksums (view metadata.now)) }
    ensures err { IsOkUnless result Memory }
{
    match metadata.as_table() {
        Some(table) => has_checksum_member(alloc, table),
        None => Ok(false),
    }
}

fn has_checksum_member(alloc: Global, table: &Table) -> Result<bool>
    ensures ok { IfOk result (λ found. found ≡ has_checksum_member (table_view table.now)) }
    ensures err { IsOkUnless result Memory }
{
    for (key, _) in table {
        if MetadataKey::from_str(alloc, key.as_str())?.is_checksum() {
            return Ok(true);
        }
    }
    Ok(false)
}
