//! The values of a table by their keys and types.
//!
//! Each error is `Parse`, which names the key, or `Memory`.

ghost use Rattle.std.specs.Prelude.{◌≡◌, ◌⊎◌, ◌++◌, codes, option_map};
ghost use Rattle.std.specs.Option.{option_copied};
ghost use Rattle.toml.specs.Data.{get_member};
ghost use Rattle.toml.specs.View.{items_view, table_view, view};
ghost use Rattle.cargo_lock_parts.specs.Error.{IsParse, IsParseOrMemory, Reads};
ghost use Rattle.cargo_lock_parts.specs.declared.error.Error.TheVariants.{Memory};
ghost use Rattle.toml_fields.specs.Fields.{items_in, members_in, number_in, optional_by};
ghost use Rattle.toml_fields.specs.Fields.{optional_list, optional_text, required_list};
ghost use Rattle.toml_fields.specs.Fields.{required_members, required_text, text_in};

use cargo_lock_parts::error::{Error, Result};
use std::alloc::Global;
use toml::{Table, Value};

/// The error for a value or an element of another type. For an element, `key` is that of its list.
pub fn wrong_type(alloc: Global, key: &str) -> Error
    ensures kind { IsParseOrMemory result }
    ensures text { (result ≡ Memory)
        ⊎ IsParse result (codes "wrong type: `" ++ key.now ++ codes "`") }
{
    Error::parse(format!(in alloc; "wrong type: `{key}`"))
}

/// The error for a required key that is absent.
pub fn missing_key(alloc: Global, key: &str) -> Error
    ensures kind { IsParseOrMemory result }
    ensures text { (result ≡ Memory)
        ⊎ IsParse result (codes "missing key: `" ++ key.now ++ codes "`") }
{
    Error::parse(format!(in alloc; "missing key: `{key}`"))
}

/// The value at a key.
pub fn value_at<'a>(table: &'a Table, key: &str) -> Option<&'a Value>
    ensures { option_map (λ v. view v.now) result ≡ get_member key.now (table_view table.now) }
{
    table.get(key)
}

/// The text that a value is.
pub fn text_in<'a>(alloc: Global, value: &'a Value, key: &str) -> Result<&'a str>
    ensures { Reads (λ s. s.now) result (text_in (view value.now)) }
{
    match value.as_str() {
        Some(text) => Ok(text),
        None => Err(wrong_type(alloc, key)),
    }
}

/// The list that a value is.
pub fn list_in<'a>(alloc: Global, value: &'a Value, key: &str) -> Result<&'a [Value]>
    ensures { Reads (λ s. items_view s.now) result (items_in (view value.now)) }
{
    match value.as_array() {
        Some(list) => Ok(list.as_slice()),
        None => Err(wrong_type(alloc, key)),
    }
}

/// The table that a value is.
pub fn members_in<'a>(alloc: Global, value: &'a Value, key: &str) -> Result<&'a Table>
    ensures { Reads (λ m. table_view m.now) result (members_in (view value.now)) }
{
    match value.as_table() {
        Some(table) => Ok(table),
        None => Err(wrong_type(alloc, key)),
    }
}

/// The text at a key that is required.
pub fn required_text<'a>(alloc: Global, table: &'a Table, key: &str) -> Result<&'a str>
    ensures { Reads
        (λ s. s.now) result (required_text (get_member key.now (table_view table.now))) }
{
    match value_at(table, key) {
        Some(value) => text_in(alloc, value, key),
        None => Err(missing_key(alloc, key)),
    }
}

/// The text at a key, if the key is present.
pub fn optional_text<'a>(alloc: Global, table: &'a Table, key: &str) -> Result<Option<&'a str>>
    ensures { Reads (λ o. option_copied o) result
        (optional_text (get_member key.now (table_view table.now))) }
{
    match value_at(table, key) {
        Some(value) => Ok(Some(text_in(alloc, value, key)?)),
        None => Ok(None),
    }
}

/// The whole number at a key, if the key is present.
pub fn number_at(alloc: Global, table: &Table, key: &str) -> Result<Option<i64>>
    ensures { Reads
        (λ o. o) result (optional_by number_in (get_member key.now (table_view table.now))) }
{
    let Some(value) = value_at(table, key) else {
        return Ok(None);
    };
    match value.as_integer() {
        Some(number) => Ok(Some(number)),
        None => Err(wrong_type(alloc, key)),
    }
}

/// The list at a key that is required.
pub fn required_list<'a>(alloc: Global, table: &'a Table, key: &str) -> Result<&'a [Value]>
    ensures { Reads
        (λ s. items_view s.now) result (required_list (get_member key.now (table_view table.now))) }
{
    match value_at(table, key) {
        Some(list) => list_in(alloc, list, key),
        None => Err(missing_key(alloc, key)),
    }
}

/// The list at a key, empty if the key is absent.
pub fn optional_list<'a>(alloc: Global, table: &'a Table, key: &str) -> Result<&'a [Value]>
    ensures { Reads
        (λ s. items_view s.now) result (optional_list (get_member key.now (table_view table.now))) }
{
    match value_at(table, key) {
        Some(value) => list_in(alloc, value, key),
        None => Ok(&[]),
    }
}

/// The table at a key that is required.
pub fn required_members<'a>(alloc: Global, table: &'a Table, key: &str) -> Result<&'a Table>
    ensures { Reads (λ m. table_view m.now) result
        (required_members (get_member key.now (table_view table.now))) }
{
    match value_at(table, key) {
        Some(members) => members_in(alloc, members, key),
        None => Err(missing_key(alloc, key)),
    }
}
