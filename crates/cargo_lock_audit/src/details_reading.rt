//! What the file of an advisory says besides, from its table.

ghost use Rattle.std.specs.Prelude.{◌≡◌, IfOk};
ghost use Rattle.toml.specs.Data.{get_member};
ghost use Rattle.toml.specs.View.{table_view, view};
ghost use Rattle.cargo_lock_parts.specs.Error.{Reads};
ghost use Rattle.cargo_lock_audit.specs.DetailsReading.{affected_at, affected_in, details_at};
ghost use Rattle.cargo_lock_audit.specs.DetailsReading.{function_in, functions_at, functions_in};
ghost use Rattle.cargo_lock_audit.specs.DetailsReading.{joined_details, lists_at, told_at, details_told};
ghost use Rattle.toml_fields.specs.Fields.{optional_by};

use crate::details::{Affected, Details, Function};
use crate::values::{copied, text_list_in, texts_at_key};
use cargo_lock_parts::error::Result;
use std::alloc::{AllocError, Global};
use std::marker::Model;
use toml::{Table, Value};
use toml_fields::{members_in, optional_text, required_text, value_at};

/// What the table `advisory` of the whole table says besides.
#[tactic(auto, unfolding(crate::specs::DetailsReading::details_at))]
pub(crate) fn details_at(alloc: Global, members: &Table, whole: &Table) -> Result<Details>
    ensures { Reads (λ d. d) result (details_at (table_view members.now) (table_view whole.now)) }
{
    let told = told_at(alloc, members)?;
    let lists = lists_at(alloc, members)?;
    let affected = affected_at_key(alloc, whole, "affected")?;
    let details = details_of(alloc, &told, lists, affected)?;
    Ok(details)
}

// When it was disclosed, and where that is told and how severe it is, if that is said.
#[derive(Clone, Copy)]
struct Told<'a> {
    date: &'a str,
    url: Option<&'a str>,
    cvss: Option<&'a str>,
}

#[tactic(auto, unfolding(crate::specs::DetailsReading::told_at))]
fn told_at<'a>(alloc: Global, table: &'a Table) -> Result<Told<'a>>
    ensures { Reads details_told result (told_at (table_view table.now)) }
{
    let date = required_text(alloc, table, "date")?;
    let url = optional_text(alloc, table, "url")?;
    let cvss = optional_text(alloc, table, "cvss")?;
    Ok(Told { date, url, cvss })
}

// Further URLs, categories and keywords.
#[derive(Drop)]
struct Lists {
    references: Vec<String>,
    categories: Vec<String>,
    keywords: Vec<String>,
}

impl Model for Lists {
    ghost use Rattle.cargo_lock_audit.specs.DetailsReading.{ListsData};
    ghost use Rattle.cargo_lock_audit.specs.Texts.{bytes_of_texts};

    ghost Value = { ListsData };

    ghost view = { λ l. record {
      references = bytes_of_texts l.references.items;
      categories = bytes_of_texts l.categories.items;
      keywords = bytes_of_texts l.keywords.items;
    } };
}

#[tactic(auto, unfolding(crate::specs::DetailsReading::lists_at))]
fn lists_at(alloc: Global, table: &Table) -> Result<Lists>
    ensures { Reads (λ l. l) result (lists_at (table_view table.now)) }
{
    let references = texts_at_key(alloc, table, "references")?;
    let categories = texts_at_key(alloc, table, "categories")?;
    let keywords = texts_at_key(alloc, table, "keywords")?;
    Ok(Lists {
        references,
        categories,
        keywords,
    })
}

// The details of these parts.
fn details_of(
    alloc: Global,
    told: &Told<'_>,
    lists: Lists,
    affected: Option<Affected>,
) -> std::result::Result<Details, AllocError>
    ensures { IfOk result (λ d. d ≡ joined_details (details_told told.now) lists affected) }
{
    let Lists {
        references,
        categories,
        keywords,
    } = lists;
    Ok(Details {
        date: String::from_str(alloc, told.date)?,
        url: copied(alloc, told.url)?,
        cvss: copied(alloc, told.cvss)?,
        references,
        categories,
        keywords,
        affected,
    })
}

// ---- what is affected

// What a value at a key says is affected, if the key is present.
fn affected_at_key(alloc: Global, table: &Table, key: &str) -> Result<Option<Affected>>
    ensures { Reads (λ o. o) result
        (optional_by affected_in (get_member key.now (table_view table.now))) }
{
    match value_at(table, key) {
        Some(value) => Ok(Some(affected_in(alloc, value, key)?)),
        None => Ok(None),
    }
}

// What a value says is affected.
fn affected_in(alloc: Global, value: &Value, key: &str) -> Result<Affected>
    ensures { Reads (λ a. a) result (affected_in (view value.now)) }
{
    let members = members_in(alloc, value, key)?;
    affected_at(alloc, members)
}

// What a table says is affected.
#[tactic(auto, unfolding(crate::specs::DetailsReading::affected_at))]
fn affected_at(alloc: Global, table: &Table) -> Result<Affected>
    ensures { Reads (λ a. a) result (affected_at (table_view table.now)) }
{
    let functions = functions_in(alloc, table, "functions")?;
    let os = texts_at_key(alloc, table, "os")?;
    let arch = texts_at_key(alloc, table, "arch")?;
    Ok(Affected {
        functions,
        os,
        arch,
    })
}

// The functions at a key, or none if the key is absent.
fn functions_in(alloc: Global, table: &Table, key: &str) -> Result<Vec<Function>>
    ensures { Reads (λ v. v.items) result
        (functions_in (get_member key.now (table_view table.now))) }
{
    let Some(value) = value_at(table, key) else {
        return Ok(Vec::new(alloc));
    };
    let members = members_in(alloc, value, key)?;
    functions_at(alloc, members)
}

// The functions of a table, in the order of their paths.
fn functions_at(alloc: Global, table: &Table) -> Result<Vec<Function>>
    ensures { Reads (λ v. v.items) result (functions_at (table_view table.now)) }
{
    let mut functions = Vec::new(alloc);
    for (path, versions) in table {
        let function = function_in(alloc, path.as_str(), versions)?;
        functions.push(function)?;
    }
    Ok(functions)
}

// The function at a path, with its versions.
fn function_in(alloc: Global, path: &str, versions: &Value) -> Result<Function>
    ensures { Reads (λ f. f) result (function_in path.now (view versions.now)) }
{
    let versions = text_list_in(alloc, versions, "functions")?;
    let path = String::from_str(alloc, path)?;
    Ok(Function { path, versions })
}
