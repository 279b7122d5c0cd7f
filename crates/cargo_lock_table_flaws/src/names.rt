//! The names of the packages that a table lists, and the lines in which these begin.

ghost use Rattle.std.specs.Prelude.{◌≡◌, IfOk, map, option_map};
ghost use Rattle.toml.specs.View.{items_view, table_view, view};
ghost use Rattle.cargo_lock_table_flaws.specs.Names as spec;

use crate::table::value_at;
use crate::unread::text_under;
use cargo_lock_location::lines_of_names;
use std::alloc::{AllocError, Global};
use toml::{Table, Value};

// The texts under `name`, each where there is one.
type Names<'a> = Vec<Option<&'a str>>;

/// The number of the line in which each package that a table lists begins in the text of the table,
/// from 1 on, in their order. It is not known where the lines of the text do not show it, as
/// `cargo_lock_location::package_lines` says, and where there is no text under `name`. Fails when out
/// of memory.
///
/// ```
/// let numbers = listed_lines(rt.alloc(), text, table)?;
/// ```
pub fn listed_lines(
    alloc: Global,
    text: &str,
    table: &Table,
) -> Result<Vec<Option<usize>>, AllocError>
    ensures { IfOk result
        (λ found. found.items ≡ spec.listed_lines text.now (table_view table.now)) }
{
    let names = listed_names(alloc, table)?;
    lines_of_names(alloc, text, &names)
}

// The names of the packages under `package`.
fn listed_names<'a>(alloc: Global, table: &'a Table) -> Result<Names<'a>, AllocError>
    ensures { IfOk result (λ names. map (option_map (λ t. t.now)) names.items
        ≡ spec.listed_names (table_view table.now)) }
{
    match value_at(table, "package") {
        Some(list) => names_in(alloc, list),
        None => Ok(Vec::new(alloc)),
    }
}

// The same of the value under `package`.
fn names_in<'a>(alloc: Global, list: &'a Value) -> Result<Names<'a>, AllocError>
    ensures { IfOk result (λ names. map (option_map (λ t. t.now)) names.items
        ≡ spec.names_in (view list.now)) }
{
    match list.as_array() {
        Some(list) => names_of_items(alloc, list.as_slice()),
        None => Ok(Vec::new(alloc)),
    }
}

fn names_of_items<'a>(alloc: Global, list: &'a [Value]) -> Result<Names<'a>, AllocError>
    ensures { IfOk result (λ names. map (option_map (λ t. t.now)) names.items
        ≡ spec.names_of_items (items_view list.now)) }
{
    let mut names = Vec::with_capacity(alloc, list.len())?;
    for value in list {
        names.push(name_in(value))?;
    }
    Ok(names)
}

// The text under `name` of a value, if it is a table, and there is one.
fn name_in<'a>(value: &'a Value) -> Option<&'a str>
    ensures { option_map (λ t. t.now) result ≡ spec.name_in (view value.now) }
{
    match value.as_table() {
        Some(table) => text_under(table, "name"),
        None => None,
    }
}
