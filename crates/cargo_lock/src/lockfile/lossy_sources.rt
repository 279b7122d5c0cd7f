//! Git sources that lose their tag, branch or revision.

ghost use Rattle.std.specs.Prelude.{◌≡◌, ◌<◌, ◌++◌, ◌==◌, false, IfOk, IsOkUnless, OnOk, map, option_map, string_bytes};
ghost use Rattle.std.specs.List.{after_first, filter};
ghost use Rattle.toml.specs.Data.{get_member};
ghost use Rattle.toml.specs.View.{table_view, view};
ghost use Rattle.cargo_lock_parts.specs.Ascii.{left_bracket};
ghost use Rattle.cargo_lock_parts.specs.Source.{git_reference_of};
ghost use Rattle.cargo_lock_parts.specs.SourceText.{pair_text};
ghost use Rattle.cargo_lock_parts.specs.declared.error.Error.TheVariants.{Memory};
ghost use Rattle.cargo_lock.specs.LossySources.{AreEachOnce, AreLossySources, asked, before_last, bracketed, is_lossy, is_question_mark, listed_sources, number_sign, package_sources, patch_source, patch_sources, reference_source, root_sources, sources_of_list, unused_sources, written_sources};
ghost use Rattle.cargo_lock.specs.LossySources as spec;
ghost use Rattle.cargo_lock.specs.Texts.{texts_at};

use crate::error::{Error, Result};
use crate::lockfile::Lockfile;
use cargo_lock_parts::package::{GitReference, SourceId};
use std::alloc::{AllocError, Global};
use toml::{Table, Value};

impl Lockfile {
    /// The git sources in the text of a lockfile that lose their tag, branch or revision, each
    /// listed once, in ascending order. From V1 to V3 Cargo writes its value unchanged, and reads
    /// `+`, `%`, `&` and `#` in it as something else: `git+https://example.org/u?tag=v1+2` is read
    /// with the tag `v1 2`. A lockfile of such a format loses it, whichever program writes it. From
    /// V4 on Cargo escapes the value, so call this only for a text of V1 to V3.
    ///
    /// The sources are those of packages, of the root and of unused patches, without their commits,
    /// and those of references and replacements. A text that is not a TOML table has none. The one
    /// error is `Memory`, which is also the error for a URL of 4 GB or more.
    ///
    /// ```
    /// for source in Lockfile::lossy_sources(rt.alloc(), text)?.as_slice() {
    ///     println!(rt; "{source}")?;
    /// }
    /// ```
    pub fn lossy_sources(alloc: Global, text: &str) -> Result<Vec<String>>
        ensures ok { IfOk result (λ found.
            AreLossySources text.now (map string_bytes found.items)) }
        ensures err { IsOkUnless result Memory }
    {
        match toml::table_from_str(alloc, text) {
            Ok(table) => {
                let sources = lossy_sources_of(alloc, &table)?;
                Ok(each_once(sources))
            }
            Err(fault) if fault.is_memory() => Err(Error::Memory),
            Err(_) => Ok(Vec::new(alloc)),
        }
    }
}

// The texts in ascending order, each listed once.
fn each_once(mut texts: Vec<String>) -> Vec<String>
    ensures { AreEachOnce (map string_bytes texts.items) (map string_bytes result.items) }
{
    texts.sort_unstable();
    texts.dedup();
    texts
}

// The lossy sources in a table, as often as they are written.
fn lossy_sources_of(alloc: Global, table: &Table) -> Result<Vec<String>>
    ensures ok { IfOk result (λ found. map string_bytes found.items
        ≡ filter is_lossy (written_sources (table_view table.now))) }
    ensures err { IsOkUnless result Memory }
{
    let written = written_sources(alloc, table)?;
    let lossy = lossy_among(alloc, &written)?;
    Ok(lossy)
}

// The lossy sources among these texts.
fn lossy_among(alloc: Global, texts: &[&str]) -> Result<Vec<String>>
    ensures ok { IfOk result (λ found.
        map string_bytes found.items ≡ filter is_lossy (texts_at texts.now)) }
    ensures err { IsOkUnless result Memory }
{
    let mut lossy = Vec::new(alloc);
    for text in texts {
        if is_lossy(alloc, text)? {
            lossy.push(String::from_str(alloc, text)?)?;
        }
    }
    Ok(lossy)
}

// ---- one source

fn is_lossy(alloc: Global, text: &str) -> Result<bool>
    ensures ok { IfOk result (λ lossy. lossy ≡ is_lossy text.now) }
    ensures err { IsOkUnless result Memory }
{
    match SourceId::from_url(alloc, text) {
        Ok(source) => differs(alloc, text, source.git_reference()),
        Err(Error::Memory) => Err(Error::Memory),
        Err(fault) if fault.is_too_long() => Err(Error::Memory),
        Err(_) => Ok(false),
    }
}

// Whether the text after the first question mark differs from this reference.
fn differs(alloc: Global, text: &str, reference: Option<&GitReference>) -> Result<bool>
    ensures ok { IfOk result (λ differs. differs
        ≡ spec.differs text.now (option_map (λ r. git_reference_of r.now) reference.entry)) }
    ensures err { IsOkUnless result Memory }
{
    match reference {
        Some(reference) => {
            let read = pair_text(alloc, reference)?;
            Ok(after_question_mark(text) != read.as_str())
        }
        None => Ok(false),
    }
}

// A reference as V1 to V3 write it, empty for the default branch.
fn pair_text(alloc: Global, reference: &GitReference) -> std::result::Result<String, AllocError>
    ensures { IfOk result
        (λ text. string_bytes text ≡ pair_text false (git_reference_of reference.now)) }
{
    match reference.pretty_ref(false) {
        Some(pretty) => pretty.to_string(alloc),
        None => Ok(String::new(alloc)),
    }
}

// The text after the first question mark.
fn after_question_mark(text: &str) -> &str
    ensures { result.now ≡ after_first is_question_mark text.now }
{
    match text.split_once('?') {
        Some((_, rest)) => rest,
        None => "",
    }
}

// ---- the sources that are written in a table

// The sources that are written in the table of a lockfile and have a question mark.
fn written_sources<'a>(
    alloc: Global,
    table: &'a Table,
) -> std::result::Result<Vec<&'a str>, AllocError>
    ensures { IfOk result
        (λ all. texts_at all.items ≡ written_sources (table_view table.now)) }
{
    let mut all = Vec::new(alloc);
    put_listed(&mut all, table)?;
    put_root(&mut all, table)?;
    put_unused(&mut all, table)?;
    Ok(all)
}

fn value_at<'a>(table: &'a Table, key: &str) -> Option<&'a Value>
    ensures { option_map (λ v. view v.now) result ≡ get_member key.now (table_view table.now) }
{
    table.get(key)
}

// Adds the sources of the packages.
fn put_listed<'a>(all: &mut Vec<&'a str>, table: &'a Table) -> std::result::Result<(), AllocError>
    ensures { OnOk result (texts_at all.new.items
        ≡ texts_at all.old.items ++ listed_sources (table_view table.now)) }
{
    if let Some(packages) = value_at(table, "package") {
        put_packages(all, packages)?;
    }
    Ok(())
}

// Adds the sources of the root.
fn put_root<'a>(all: &mut Vec<&'a str>, table: &'a Table) -> std::result::Result<(), AllocError>
    ensures { OnOk result (texts_at all.new.items
        ≡ texts_at all.old.items ++ root_sources (table_view table.now)) }
{
    if let Some(root) = value_at(table, "root") {
        put_package(all, root)?;
    }
    Ok(())
}

// Adds the sources of the unused patches.
fn put_unused<'a>(all: &mut Vec<&'a str>, table: &'a Table) -> std::result::Result<(), AllocError>
    ensures { OnOk result (texts_at all.new.items
        ≡ texts_at all.old.items ++ unused_sources (table_view table.now)) }
{
    if let Some(patch) = value_at(table, "patch") {
        put_patches(all, patch)?;
    }
    Ok(())
}

// Adds the sources of the packages of a list.
fn put_packages<'a>(all: &mut Vec<&'a str>, list: &'a Value) -> std::result::Result<(), AllocError>
    ensures { OnOk result (texts_at all.new.items
        ≡ texts_at all.old.items ++ sources_of_list package_sources (view list.now)) }
{
    let Some(list) = list.as_array() else {
        return Ok(());
    };
    for item in list {
        put_package(all, item)?;
    }
    Ok(())
}

// Adds the sources of a package.
fn put_package<'a>(all: &mut Vec<&'a str>, value: &'a Value) -> std::result::Result<(), AllocError>
    ensures { OnOk result
        (texts_at all.new.items ≡ texts_at all.old.items ++ package_sources (view value.now)) }
{
    put_own_source(all, value)?;
    if let Some(list) = value.get("dependencies") {
        put_references(all, list)?;
    }
    if let Some(reference) = value.get("replace") {
        put_reference(all, reference)?;
    }
    Ok(())
}

// Adds the sources of the references of a list.
fn put_references<'a>(
    all: &mut Vec<&'a str>,
    list: &'a Value,
) -> std::result::Result<(), AllocError>
    ensures { OnOk result (texts_at all.new.items
        ≡ texts_at all.old.items ++ sources_of_list reference_source (view list.now)) }
{
    let Some(list) = list.as_array() else {
        return Ok(());
    };
    for item in list {
        put_reference(all, item)?;
    }
    Ok(())
}

// Adds the source of a reference.
fn put_reference<'a>(
    all: &mut Vec<&'a str>,
    value: &'a Value,
) -> std::result::Result<(), AllocError>
    ensures { OnOk result
        (texts_at all.new.items ≡ texts_at all.old.items ++ reference_source (view value.now)) }
{
    if let Some(text) = value.as_str() {
        put_asked(all, bracketed(text))?;
    }
    Ok(())
}

// Adds the sources of unused patches.
fn put_patches<'a>(all: &mut Vec<&'a str>, patch: &'a Value) -> std::result::Result<(), AllocError>
    ensures { OnOk result (texts_at all.new.items ≡ texts_at all.old.items
        ++ patch_sources (view patch.now)) }
{
    if let Some(list) = patch.get("unused") {
        put_patch_list(all, list)?;
    }
    Ok(())
}

// Adds the sources of the unused patches of a list.
fn put_patch_list<'a>(
    all: &mut Vec<&'a str>,
    list: &'a Value,
) -> std::result::Result<(), AllocError>
    ensures { OnOk result (texts_at all.new.items
        ≡ texts_at all.old.items ++ sources_of_list patch_source (view list.now)) }
{
    let Some(list) = list.as_array() else {
        return Ok(());
    };
    for item in list {
        put_own_source(all, item)?;
    }
    Ok(())
}

// Adds the source of a package or a patch.
fn put_own_source<'a>(
    all: &mut Vec<&'a str>,
    value: &'a Value,
) -> std::result::Result<(), AllocError>
    ensures { OnOk result
        (texts_at all.new.items ≡ texts_at all.old.items ++ patch_source (view value.now)) }
{
    let Some(source) = value.get("source") else {
        return Ok(());
    };
    if let Some(text) = source.as_str() {
        put_asked(all, without_commit(text))?;
    }
    Ok(())
}

// Adds a source, if it has a question mark.
fn put_asked<'a>(all: &mut Vec<&'a str>, text: &'a str) -> std::result::Result<(), AllocError>
    ensures { OnOk result (texts_at all.new.items ≡ texts_at all.old.items ++ asked text.now) }
{
    if text.as_bytes().contains(&b'?') {
        all.push(text)?;
    }
    Ok(())
}

// A source without its commit.
fn without_commit(text: &str) -> &str
    ensures { result.now ≡ before_last number_sign text.now }
{
    before_last(text, '#')
}

// The source of a reference, which is in round brackets.
fn bracketed(text: &str) -> &str
    ensures { result.now ≡ bracketed text.now }
{
    before_last(after_left_bracket(text), ')')
}

// The text before the last of these characters, or else all of it.
fn before_last(text: &str, mark: char) -> &str
    requires { mark < 128 }
    ensures { result.now ≡ before_last mark text.now }
{
    match text.rfind(mark) {
        Some(end) => &text[..end],
        None => text,
    }
}

// The text after the first round bracket.
fn after_left_bracket(text: &str) -> &str
    ensures { result.now ≡ after_first (λ b. b == left_bracket) text.now }
{
    match text.split_once('(') {
        Some((_, rest)) => rest,
        None => "",
    }
}
