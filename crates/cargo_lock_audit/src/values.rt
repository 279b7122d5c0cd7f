//! Lists of texts in the table of an advisory.

ghost use Rattle.std.specs.Prelude.{◌≡◌, IfOk, option_map, string_bytes};
ghost use Rattle.std.specs.Option.{option_copied};
ghost use Rattle.toml.specs.Data.{get_member};
ghost use Rattle.toml.specs.View.{items_view, table_view, view};
ghost use Rattle.cargo_lock_parts.specs.Error.{Reads};
ghost use Rattle.toml_fields.specs.Fields.{read_all, text_in};
ghost use Rattle.cargo_lock_audit.specs.Texts.{bytes_of_texts};
ghost use Rattle.cargo_lock_audit.specs.Values.{texts_at_key, text_list_in};

use cargo_lock_parts::error::Result;
use std::alloc::{AllocError, Global};
use toml::{Table, Value};
use toml_fields::{list_in, text_in, value_at};

/// The texts at a key, or none if the key is absent.
pub(crate) fn texts_at_key(alloc: Global, table: &Table, key: &str) -> Result<Vec<String>>
    ensures { Reads (λ v. bytes_of_texts v.items) result
        (texts_at_key (get_member key.now (table_view table.now))) }
{
    match value_at(table, key) {
        Some(value) => text_list_in(alloc, value, key),
        None => Ok(Vec::new(alloc)),
    }
}

/// The texts of a list.
pub(crate) fn text_list_in(alloc: Global, value: &Value, key: &str) -> Result<Vec<String>>
    ensures { Reads (λ v. bytes_of_texts v.items) result (text_list_in (view value.now)) }
{
    let list = list_in(alloc, value, key)?;
    texts_of(alloc, list, key)
}

// The texts of a list.
fn texts_of(alloc: Global, list: &[Value], key: &str) -> Result<Vec<String>>
    ensures { Reads (λ v. bytes_of_texts v.items) result
        (read_all text_in (items_view list.now)) }
{
    let mut texts = Vec::with_capacity(alloc, list.len())?;
    for value in list {
        let text = owned_text_in(alloc, value, key)?;
        texts.push(text)?;
    }
    Ok(texts)
}

// The text that a value is, as a text of its own.
fn owned_text_in(alloc: Global, value: &Value, key: &str) -> Result<String>
    ensures { Reads string_bytes result (text_in (view value.now)) }
{
    let text = text_in(alloc, value, key)?;
    let text = String::from_str(alloc, text)?;
    Ok(text)
}

/// A copy of a text that may be absent.
pub(crate) fn copied(
    alloc: Global,
    text: Option<&str>,
) -> std::result::Result<Option<String>, AllocError>
    ensures { IfOk result
        (λ copy. option_map string_bytes copy ≡ option_copied text.entry) }
{
    match text {
        Some(text) => Ok(Some(String::from_str(alloc, text)?)),
        None => Ok(None),
    }
}
