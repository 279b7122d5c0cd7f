//! Advisories, from the texts of their files.

ghost use Rattle.std.specs.Prelude.{◌≡◌, IfOk};
ghost use Rattle.toml.specs.Data.{get_member};
ghost use Rattle.toml.specs.Parse.{parse_document};
ghost use Rattle.toml.specs.View.{items_view, table_view, view};
ghost use Rattle.cargo_lock_parts.specs.Error.{IsParseOrMemory, Reads, ReadsUrls};
ghost use Rattle.cargo_lock_audit.specs.AdvisoryReading.{advisory_at, advisory_of, fields_at};
ghost use Rattle.cargo_lock_audit.specs.AdvisoryReading.{assembled, fields_of, kinds_of};
ghost use Rattle.cargo_lock_audit.specs.AdvisoryReading.{ranges_at, ranges_in, requirement_in};
ghost use Rattle.cargo_lock_audit.specs.AdvisoryReading.{requirements_in, source_in, titled_names};
ghost use Rattle.cargo_lock_audit.specs.Texts.{bytes_of_texts};
ghost use Rattle.toml_fields.specs.Fields.{optional_by, read_all};

use crate::advisory::Advisory;
use crate::details::Details;
use crate::details_reading::details_at;
use crate::front_matter::{body_of, front_length, front_of, lines_from_first, title_after};
use crate::requirement::Requirement;
use crate::values::{copied, texts_at_key};
use cargo_lock_parts::error::{Error, Result};
use cargo_lock_parts::package::SourceId;
use printing::Quoted;
use std::alloc::{AllocError, Global};
use std::marker::Model;
use toml::de::Error as TomlError;
use toml::{Table, Value};
use toml_fields::{
    list_in, members_in, optional_text, required_members, required_text, text_in, value_at,
};

impl Advisory {
    /// The advisory that a file is. White space before the first line is dropped. The first line is
    /// "```toml"; the front matter follows, a table of TOML, up to the next line that begins with
    /// "```"; and the first line after that which is not empty is `# TITLE`. In the table,
    /// `advisory` is a table with the texts `id`, `package` and `date`, and perhaps
    /// `informational`, `source`, `collection`, `withdrawn`, `url` and `cvss`, and the lists of
    /// texts `aliases`, `references`, `categories` and `keywords`; `versions` may be a table with
    /// the lists `patched` and `unaffected`, of requirements; and `affected` one with the lists of
    /// texts `os` and `arch`, and with a table `functions` of lists of texts. Other keys count for
    /// nothing.
    ///
    /// `Parse` says what is wrong: a line that is missing, text that is no TOML, a key that is
    /// missing or of another type, a source or a requirement that does not read. It also comes for
    /// a URL of 4 GB or more. The other error is `Memory`.
    ///
    /// ```
    /// let advisory = Advisory::parse(alloc, &text)?;
    /// ```
    #[tactic(auto, unfolding(crate::specs::AdvisoryReading::advisory_of))]
    pub fn parse(alloc: Global, text: &str) -> Result<Advisory>
        ensures { ReadsUrls (Unit {0}) (λ a. a) result (advisory_of text.now) }
    {
        let lines = lines_from_first(alloc, text)?;
        let body = body_of(alloc, &lines)?;
        let length = front_length(alloc, body)?;
        let title = title_after(alloc, body, length)?;
        let front = front_of(alloc, body, length)?;
        let table = table_of(alloc, &front)?;
        advisory_at(alloc, &table, title)
    }
}

// The table that a text is.
fn table_of(alloc: Global, text: &str) -> Result<Table>
    ensures { Reads table_view result (parse_document text.now) }
{
    match toml::table_from_str(alloc, text) {
        Ok(table) => Ok(table),
        Err(fault) if fault.is_memory() => Err(Error::Memory),
        Err(fault) => Err(toml_fault(alloc, &fault)),
    }
}

// The error for front matter that is no TOML.
fn toml_fault(alloc: Global, fault: &TomlError) -> Error
    ensures { IsParseOrMemory result }
{
    let message = Quoted(fault.message());
    Error::parse(format!(in alloc; "no TOML: {message}"))
}

// ---- the table

// The advisory with this title that a table is.
#[tactic(auto, unfolding(crate::specs::AdvisoryReading::advisory_at))]
fn advisory_at(alloc: Global, table: &Table, title: &str) -> Result<Advisory>
    ensures { ReadsUrls (Unit {0}) (λ a. a) result (advisory_at title.now (table_view table.now)) }
{
    let members = required_members(alloc, table, "advisory")?;
    let fields = fields_at(alloc, members)?;
    let source = source_at(alloc, members, "source")?;
    let ranges = ranges_in(alloc, table, "versions")?;
    let aliases = texts_at_key(alloc, members, "aliases")?;
    let details = details_at(alloc, members, table)?;
    let names = names_of(alloc, title, &fields, aliases)?;
    let kinds = kinds_of(alloc, &fields)?;
    let is_withdrawn = fields.is_withdrawn;
    Ok(assembled(names, kinds, source, ranges, details, is_withdrawn))
}

// What the table `advisory` says.
#[derive(Clone, Copy)]
struct Fields<'a> {
    id: &'a str,
    package: &'a str,
    informational: Option<&'a str>,
    collection: Option<&'a str>,
    is_withdrawn: bool,
}

// The advisory of these parts.
fn assembled(
    names: Names,
    kinds: Kinds,
    source: Option<SourceId>,
    ranges: Ranges,
    details: Details,
    is_withdrawn: bool,
) -> Advisory
    ensures { result ≡ assembled names kinds source ranges details is_withdrawn }
{
    let Names {
        id,
        aliases,
        package,
        title,
    } = names;
    let Kinds {
        informational,
        collection,
    } = kinds;
    let Ranges {
        patched,
        unaffected,
    } = ranges;
    Advisory {
        id,
        aliases,
        package,
        title,
        informational,
        source,
        collection,
        is_withdrawn,
        patched,
        unaffected,
        details,
    }
}

// The texts that each advisory has, and its ids in other databases.
#[derive(Drop)]
struct Names {
    id: String,
    aliases: Vec<String>,
    package: String,
    title: String,
}

impl Model for Names {
    ghost use Rattle.std.specs.Prelude.{string_bytes};
    ghost use Rattle.cargo_lock_audit.specs.AdvisoryReading.{NamesData};
    ghost use Rattle.cargo_lock_audit.specs.Texts.{bytes_of_texts};

    ghost Value = { NamesData };

    ghost view = { λ n. record {
      id = string_bytes n.id;
      aliases = bytes_of_texts n.aliases.items;
      name = string_bytes n.«package»;
      title = string_bytes n.title;
    } };
}

fn names_of(
    alloc: Global,
    title: &str,
    fields: &Fields<'_>,
    aliases: Vec<String>,
) -> std::result::Result<Names, AllocError>
    ensures { IfOk result (λ n. n ≡ titled_names title.now (fields_of fields.now)
        (bytes_of_texts aliases.items)) }
{
    Ok(Names {
        id: String::from_str(alloc, fields.id)?,
        package: String::from_str(alloc, fields.package)?,
        title: String::from_str(alloc, title)?,
        aliases,
    })
}

// The kind of an advisory, and its collection, if they are said.
#[derive(Drop)]
struct Kinds {
    informational: Option<String>,
    collection: Option<String>,
}

impl Model for Kinds {
    ghost use Rattle.std.specs.Prelude.{option_map, string_bytes};
    ghost use Rattle.cargo_lock_audit.specs.AdvisoryReading.{KindsData};

    ghost Value = { KindsData };

    ghost view = { λ k. record {
      informational = option_map string_bytes k.informational;
      collection = option_map string_bytes k.collection;
    } };
}

fn kinds_of(alloc: Global, fields: &Fields<'_>) -> std::result::Result<Kinds, AllocError>
    ensures { IfOk result (λ k. k ≡ kinds_of (fields_of fields.now)) }
{
    Ok(Kinds {
        informational: copied(alloc, fields.informational)?,
        collection: copied(alloc, fields.collection)?,
    })
}

// What the table `advisory` says, but for the source.
#[tactic(auto, unfolding(crate::specs::AdvisoryReading::fields_at))]
fn fields_at<'a>(alloc: Global, table: &'a Table) -> Result<Fields<'a>>
    ensures { Reads fields_of result (fields_at (table_view table.now)) }
{
    let id = required_text(alloc, table, "id")?;
    let package = required_text(alloc, table, "package")?;
    let informational = optional_text(alloc, table, "informational")?;
    let collection = optional_text(alloc, table, "collection")?;
    let withdrawn = optional_text(alloc, table, "withdrawn")?;
    Ok(Fields {
        id,
        package,
        informational,
        collection,
        is_withdrawn: withdrawn.is_some(),
    })
}

// The source at a key, if the key is present.
fn source_at(alloc: Global, table: &Table, key: &str) -> Result<Option<SourceId>>
    ensures { ReadsUrls (Unit {0})
        (λ o. o) result (optional_by source_in (get_member key.now (table_view table.now))) }
{
    match value_at(table, key) {
        Some(value) => Ok(Some(source_in(alloc, value, key)?)),
        None => Ok(None),
    }
}

// The source that a value reads as.
fn source_in(alloc: Global, value: &Value, key: &str) -> Result<SourceId>
    ensures { ReadsUrls (Unit {0}) (λ s. s) result (source_in (view value.now)) }
{
    let text = text_in(alloc, value, key)?;
    let source = SourceId::from_str(alloc, text)?;
    Ok(source)
}

// ---- requirements

// Which versions are patched, and which were never affected.
#[derive(Drop)]
struct Ranges {
    patched: Vec<Requirement>,
    unaffected: Vec<Requirement>,
}

impl Model for Ranges {
    ghost use Rattle.cargo_lock_audit.specs.AdvisoryReading.{RangesData};

    ghost Value = { RangesData };

    ghost view = { λ r. record { patched = r.patched.items; unaffected = r.unaffected.items } };
}

// The ranges at a key, or none if the key is absent.
fn ranges_in(alloc: Global, table: &Table, key: &str) -> Result<Ranges>
    ensures { Reads (λ r. r) result (ranges_in (get_member key.now (table_view table.now))) }
{
    let Some(value) = value_at(table, key) else {
        return Ok(Ranges {
            patched: Vec::new(alloc),
            unaffected: Vec::new(alloc),
        });
    };
    let members = members_in(alloc, value, key)?;
    ranges_at(alloc, members)
}

// The ranges of a table.
#[tactic(auto, unfolding(crate::specs::AdvisoryReading::ranges_at))]
fn ranges_at(alloc: Global, table: &Table) -> Result<Ranges>
    ensures { Reads (λ r. r) result (ranges_at (table_view table.now)) }
{
    let patched = requirements_in(alloc, table, "patched")?;
    let unaffected = requirements_in(alloc, table, "unaffected")?;
    Ok(Ranges {
        patched,
        unaffected,
    })
}

// The requirements at a key, or none if the key is absent.
fn requirements_in(alloc: Global, table: &Table, key: &str) -> Result<Vec<Requirement>>
    ensures { Reads (λ v. v.items) result
        (requirements_in (get_member key.now (table_view table.now))) }
{
    let Some(value) = value_at(table, key) else {
        return Ok(Vec::new(alloc));
    };
    let list = list_in(alloc, value, key)?;
    requirements_of(alloc, list, key)
}

// The requirements of a list.
fn requirements_of(alloc: Global, list: &[Value], key: &str) -> Result<Vec<Requirement>>
    ensures { Reads (λ v. v.items) result (read_all requirement_in (items_view list.now)) }
{
    let mut requirements = Vec::with_capacity(alloc, list.len())?;
    for value in list {
        let requirement = requirement_in(alloc, value, key)?;
        requirements.push(requirement)?;
    }
    Ok(requirements)
}

// The requirement that a value reads as.
fn requirement_in(alloc: Global, value: &Value, key: &str) -> Result<Requirement>
    ensures { Reads (λ r. r) result (requirement_in (view value.now)) }
{
    let text = text_in(alloc, value, key)?;
    let requirement = Requirement::parse(alloc, text)?;
    Ok(requirement)
}
