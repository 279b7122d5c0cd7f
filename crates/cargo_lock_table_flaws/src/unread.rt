//! What is in the tables of packages and does not read.

ghost use Rattle.std.specs.Prelude.{◌≡◌, ◌++◌, ◌+◌, IfOk, IsOkUnless, OnOk, codes, map, option_map};
ghost use Rattle.toml.specs.Data.{get_member};
ghost use Rattle.toml.specs.View.{items_view, table_view, view};
ghost use Rattle.cargo_lock_parts.specs.declared.error.Error.TheVariants.{Memory};
ghost use Rattle.cargo_lock_table_flaws.specs.Finding.{key_word, owner_of, table_finding_of};
ghost use Rattle.cargo_lock_table_flaws.specs.Finding.{written_of};
ghost use Rattle.cargo_lock_table_flaws.specs.Unread as spec;
ghost use Rattle.cargo_lock_table_flaws.specs.Unread.{text_under, unless_read, unread_at};
ghost use Rattle.cargo_lock_table_flaws.specs.Unread.{unread_each, unread_identity, unread_items};
ghost use Rattle.cargo_lock_table_flaws.specs.Unread.{unread_list, unread_listed, unread_numbered};
ghost use Rattle.cargo_lock_table_flaws.specs.Unread.{unread_package, unread_packages};
ghost use Rattle.cargo_lock_table_flaws.specs.Unread.{unread_parts, unread_patch};
ghost use Rattle.cargo_lock_table_flaws.specs.Unread.{unread_patch_table, unread_patches};
ghost use Rattle.cargo_lock_table_flaws.specs.Unread.{unread_patches_in, unread_references};
ghost use Rattle.cargo_lock_table_flaws.specs.Unread.{unread_root, unread_root_table};
ghost use Rattle.cargo_lock_table_flaws.specs.Unread.{unread_unused, unread_values};

use crate::finding::{Key, Owner, Place, TableFinding, Written};
use crate::reads::is_read;
use crate::table::value_at;
use cargo_lock_parts::error::Result;
use std::alloc::Global;
use toml::{Table, Value};

// The findings so far.
type Found<'a> = Vec<TableFinding<'a>>;

/// What does not read in a table, in order. The one error is `Memory`, which is also the error for
/// a URL of 4 GB or more.
#[tactic(auto, unfolding(crate::specs::Unread::unread_values))]
pub(crate) fn unread_values<'a>(alloc: Global, table: &'a Table) -> Result<Found<'a>>
    ensures ok { IfOk result (λ found.
        map table_finding_of found.items ≡ unread_values (table_view table.now)) }
    ensures err { IsOkUnless result Memory }
{
    let mut found = Vec::new(alloc);
    put_packages(alloc, &mut found, table)?;
    put_root(alloc, &mut found, table)?;
    put_patches(alloc, &mut found, table)?;
    Ok(found)
}

// ---- the parts of a lockfile

// Adds what does not read of the packages.
fn put_packages<'a>(alloc: Global, found: &mut Found<'a>, table: &'a Table) -> Result<()>
    ensures ok { OnOk result (map table_finding_of found.new.items
        ≡ map table_finding_of found.old.items ++ unread_packages (table_view table.now)) }
    ensures err { IsOkUnless result Memory }
{
    match value_at(table, "package") {
        Some(list) => put_list(alloc, found, list),
        None => Ok(()),
    }
}

// The same of the value under `package`.
fn put_list<'a>(alloc: Global, found: &mut Found<'a>, list: &'a Value) -> Result<()>
    ensures ok { OnOk result (map table_finding_of found.new.items
        ≡ map table_finding_of found.old.items ++ unread_each unread_listed (view list.now)) }
    ensures err { IsOkUnless result Memory }
{
    match list.as_array() {
        Some(list) => put_listed(alloc, found, list.as_slice()),
        None => Ok(()),
    }
}

fn put_listed<'a>(alloc: Global, found: &mut Found<'a>, list: &'a [Value]) -> Result<()>
    ensures ok { OnOk result (map table_finding_of found.new.items ≡ map table_finding_of
        found.old.items ++ unread_numbered unread_listed 1 (items_view list.now)) }
    ensures err { IsOkUnless result Memory }
{
    for (place, value) in list.iter().enumerate() {
        put_listed_one(alloc, found, place + 1, value)?;
    }
    Ok(())
}

// Adds what does not read of the package with this number.
fn put_listed_one<'a>(
    alloc: Global,
    found: &mut Found<'a>,
    number: usize,
    value: &'a Value,
) -> Result<()>
    ensures ok { OnOk result (map table_finding_of found.new.items
        ≡ map table_finding_of found.old.items ++ unread_listed number (view value.now)) }
    ensures err { IsOkUnless result Memory }
{
    match value.as_table() {
        Some(table) => put_package(alloc, found, Place::Listed(number), table),
        None => Ok(()),
    }
}

// Adds what does not read of the root.
fn put_root<'a>(alloc: Global, found: &mut Found<'a>, table: &'a Table) -> Result<()>
    ensures ok { OnOk result (map table_finding_of found.new.items
        ≡ map table_finding_of found.old.items ++ unread_root (table_view table.now)) }
    ensures err { IsOkUnless result Memory }
{
    match value_at(table, "root") {
        Some(root) => put_root_table(alloc, found, root),
        None => Ok(()),
    }
}

fn put_root_table<'a>(alloc: Global, found: &mut Found<'a>, root: &'a Value) -> Result<()>
    ensures ok { OnOk result (map table_finding_of found.new.items
        ≡ map table_finding_of found.old.items ++ unread_root_table (view root.now)) }
    ensures err { IsOkUnless result Memory }
{
    match root.as_table() {
        Some(table) => put_package(alloc, found, Place::Root, table),
        None => Ok(()),
    }
}

// Adds what does not read of the unused patches.
fn put_patches<'a>(alloc: Global, found: &mut Found<'a>, table: &'a Table) -> Result<()>
    ensures ok { OnOk result (map table_finding_of found.new.items
        ≡ map table_finding_of found.old.items ++ unread_patches (table_view table.now)) }
    ensures err { IsOkUnless result Memory }
{
    match value_at(table, "patch") {
        Some(patch) => put_patches_in(alloc, found, patch),
        None => Ok(()),
    }
}

fn put_patches_in<'a>(alloc: Global, found: &mut Found<'a>, patch: &'a Value) -> Result<()>
    ensures ok { OnOk result (map table_finding_of found.new.items
        ≡ map table_finding_of found.old.items ++ unread_patches_in (view patch.now)) }
    ensures err { IsOkUnless result Memory }
{
    match patch.as_table() {
        Some(table) => put_patch_table(alloc, found, table),
        None => Ok(()),
    }
}

fn put_patch_table<'a>(alloc: Global, found: &mut Found<'a>, patch: &'a Table) -> Result<()>
    ensures ok { OnOk result (map table_finding_of found.new.items
        ≡ map table_finding_of found.old.items ++ unread_patch_table (table_view patch.now)) }
    ensures err { IsOkUnless result Memory }
{
    match value_at(patch, "unused") {
        Some(list) => put_unused_list(alloc, found, list),
        None => Ok(()),
    }
}

fn put_unused_list<'a>(alloc: Global, found: &mut Found<'a>, list: &'a Value) -> Result<()>
    ensures ok { OnOk result (map table_finding_of found.new.items
        ≡ map table_finding_of found.old.items ++ unread_each unread_unused (view list.now)) }
    ensures err { IsOkUnless result Memory }
{
    match list.as_array() {
        Some(list) => put_unused(alloc, found, list.as_slice()),
        None => Ok(()),
    }
}

fn put_unused<'a>(alloc: Global, found: &mut Found<'a>, list: &'a [Value]) -> Result<()>
    ensures ok { OnOk result (map table_finding_of found.new.items ≡ map table_finding_of
        found.old.items ++ unread_numbered unread_unused 1 (items_view list.now)) }
    ensures err { IsOkUnless result Memory }
{
    for (place, value) in list.iter().enumerate() {
        put_unused_one(alloc, found, place + 1, value)?;
    }
    Ok(())
}

// Adds what does not read of the unused patch with this number.
fn put_unused_one<'a>(
    alloc: Global,
    found: &mut Found<'a>,
    number: usize,
    value: &'a Value,
) -> Result<()>
    ensures ok { OnOk result (map table_finding_of found.new.items
        ≡ map table_finding_of found.old.items ++ unread_unused number (view value.now)) }
    ensures err { IsOkUnless result Memory }
{
    match value.as_table() {
        Some(table) => put_patch(alloc, found, Place::Unused(number), table),
        None => Ok(()),
    }
}

// ---- the table of one package

// Adds what does not read of the package at a place.
fn put_package<'a>(
    alloc: Global,
    found: &mut Found<'a>,
    place: Place,
    table: &'a Table,
) -> Result<()>
    ensures ok { OnOk result (map table_finding_of found.new.items
        ≡ map table_finding_of found.old.items ++ unread_package place (table_view table.now)) }
    ensures err { IsOkUnless result Memory }
{
    let owner = owner_at(place, table);
    put_identity(alloc, found, owner, table)?;
    put_parts(alloc, found, owner, table)
}

// Adds what does not read of the unused patch at a place.
fn put_patch<'a>(alloc: Global, found: &mut Found<'a>, place: Place, table: &'a Table) -> Result<()>
    ensures ok { OnOk result (map table_finding_of found.new.items
        ≡ map table_finding_of found.old.items ++ unread_patch place (table_view table.now)) }
    ensures err { IsOkUnless result Memory }
{
    let owner = owner_at(place, table);
    put_identity(alloc, found, owner, table)
}

// The table at a place, with its name and its version.
fn owner_at<'a>(place: Place, table: &'a Table) -> Owner<'a>
    ensures { owner_of result ≡ spec.owner_at place (table_view table.now) }
{
    Owner {
        place,
        name: text_under(table, "name"),
        version: text_under(table, "version"),
    }
}

/// The text under a key, if there is one.
pub(crate) fn text_under<'a>(table: &'a Table, key: &str) -> Option<&'a str>
    ensures { option_map (λ t. t.now) result ≡ text_under key.now (table_view table.now) }
{
    match value_at(table, key) {
        Some(value) => value.as_str(),
        None => None,
    }
}

// Adds what does not read of a name, a version and a source.
fn put_identity<'a>(
    alloc: Global,
    found: &mut Found<'a>,
    owner: Owner<'a>,
    table: &'a Table,
) -> Result<()>
    ensures ok { OnOk result (map table_finding_of found.new.items ≡ map table_finding_of
        found.old.items ++ unread_identity (owner_of owner.entry) (table_view table.now)) }
    ensures err { IsOkUnless result Memory }
{
    put_at(alloc, found, owner, Key::Name, table)?;
    put_at(alloc, found, owner, Key::Version, table)?;
    put_at(alloc, found, owner, Key::Source, table)
}

// Adds what does not read of a checksum, references and a replacement.
fn put_parts<'a>(
    alloc: Global,
    found: &mut Found<'a>,
    owner: Owner<'a>,
    table: &'a Table,
) -> Result<()>
    ensures ok { OnOk result (map table_finding_of found.new.items ≡ map table_finding_of
        found.old.items ++ unread_parts (owner_of owner.entry) (table_view table.now)) }
    ensures err { IsOkUnless result Memory }
{
    put_at(alloc, found, owner, Key::Checksum, table)?;
    put_references(alloc, found, owner, table)?;
    put_at(alloc, found, owner, Key::Replace, table)
}

// Adds what does not read of the references.
fn put_references<'a>(
    alloc: Global,
    found: &mut Found<'a>,
    owner: Owner<'a>,
    table: &'a Table,
) -> Result<()>
    ensures ok { OnOk result (map table_finding_of found.new.items ≡ map table_finding_of
        found.old.items ++ unread_references (owner_of owner.entry) (table_view table.now)) }
    ensures err { IsOkUnless result Memory }
{
    match value_at(table, "dependencies") {
        Some(list) => put_reference_list(alloc, found, owner, list),
        None => Ok(()),
    }
}

fn put_reference_list<'a>(
    alloc: Global,
    found: &mut Found<'a>,
    owner: Owner<'a>,
    list: &'a Value,
) -> Result<()>
    ensures ok { OnOk result (map table_finding_of found.new.items ≡ map table_finding_of
        found.old.items ++ unread_list (owner_of owner.entry) (view list.now)) }
    ensures err { IsOkUnless result Memory }
{
    match list.as_array() {
        Some(list) => put_items(alloc, found, owner, list.as_slice()),
        None => {
            let finding = TableFinding::Unread(owner, Key::Dependencies, Written::NoList);
            found.push(finding)?;
            Ok(())
        }
    }
}

fn put_items<'a>(
    alloc: Global,
    found: &mut Found<'a>,
    owner: Owner<'a>,
    list: &'a [Value],
) -> Result<()>
    ensures ok { OnOk result (map table_finding_of found.new.items ≡ map table_finding_of
        found.old.items ++ unread_items (owner_of owner.entry) (items_view list.now)) }
    ensures err { IsOkUnless result Memory }
{
    for value in list {
        put_unless_read(alloc, found, owner, Key::Dependencies, written_as(value))?;
    }
    Ok(())
}

// ---- one value

// Adds what stands under a key, unless it reads.
fn put_at<'a>(
    alloc: Global,
    found: &mut Found<'a>,
    owner: Owner<'a>,
    key: Key,
    table: &'a Table,
) -> Result<()>
    ensures ok { OnOk result (map table_finding_of found.new.items ≡ map table_finding_of
        found.old.items ++ unread_at (owner_of owner.entry) key (table_view table.now)) }
    ensures err { IsOkUnless result Memory }
{
    let written = written_at(table, key);
    put_unless_read(alloc, found, owner, key, written)
}

fn put_unless_read<'a>(
    alloc: Global,
    found: &mut Found<'a>,
    owner: Owner<'a>,
    key: Key,
    written: Written<'a>,
) -> Result<()>
    ensures ok { OnOk result (map table_finding_of found.new.items
        ≡ map table_finding_of found.old.items
        ++ unless_read (owner_of owner.entry) key (written_of written.entry)) }
    ensures err { IsOkUnless result Memory }
{
    if !is_read(alloc, key, written)? {
        found.push(TableFinding::Unread(owner, key, written))?;
    }
    Ok(())
}

// What stands under a key.
fn written_at<'a>(table: &'a Table, key: Key) -> Written<'a>
    ensures { written_of result
        ≡ spec.written_at (get_member (key_word key) (table_view table.now)) }
{
    match value_at(table, key.as_str()) {
        Some(value) => written_as(value),
        None => Written::Nothing,
    }
}

// What a value is.
fn written_as<'a>(value: &'a Value) -> Written<'a>
    ensures { written_of result ≡ spec.written_as (view value.now) }
{
    match value.as_str() {
        Some(text) => Written::Text(text),
        None => Written::NoText,
    }
}
