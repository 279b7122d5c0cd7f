//! The names that several packages have, as a document of JSON.

ghost use Rattle.std.specs.Prelude.{◌∷◌, IfOk, codes, map, option_map, string_bytes};
ghost use Rattle.json.specs.Token.{key};
ghost use Rattle.json.specs.Tree.{json_tokens};
ghost use Rattle.cargo_lock_query.specs.Listing.{first_in, row_of};
ghost use Rattle.cargo_lock_query.specs.Tally.{group_of_rows};
ghost use Rattle.cargo_lock_query.specs.DuplicatesDocument as spec;
ghost use Rattle.printing.specs.Value.{text_or_null};
ghost use Rattle.printing.specs.Json.{Adds, IsJsonText};

use crate::listing::{Row, Rows};
use cargo_lock_display::{File, list_document, put_package, put_packages};
use printing::{JsonWriter, ToJson, write_array};
use std::alloc::{AllocError, Global};

/// The document of the names that several packages have, in one line:
/// `{"schema":"cargo-lock-duplicates/1","path":"Cargo.lock","format":4,"names":[..]}`. Fails when
/// out of memory.
///
/// ```
/// let text = groups_json(rt.alloc(), &file, &listing.groups)?;
/// ```
pub fn groups_json(
    alloc: Global,
    file: &File<'_>,
    groups: &[Rows<'_>],
) -> Result<String, AllocError>
    ensures { IfOk result (λ text. IsJsonText
        (spec.groups_json file.now (map group_of_rows groups.now)) (string_bytes text)) }
{
    list_document(alloc, "cargo-lock-duplicates/1", file, "names", groups)
}

impl ToJson for Rows<'_> {
    ghost use Rattle.cargo_lock_query.specs.Tally.{group_of_rows};
    ghost use Rattle.cargo_lock_query.specs.DuplicatesDocument.{group_json};

    ghost json = { λ group. group_json (group_of_rows group) };

    fn write_json(&self, out: &mut JsonWriter) -> Result<(), AllocError> {
        let rows = self.rows.as_slice();
        out.begin_object()?;
        put_name(out, rows)?;
        out.key("packages")?;
        write_array(out, rows)?;
        out.end_object()
    }
}

// Writes the member with the name of the first package.
fn put_name(out: &mut JsonWriter, rows: &[Row<'_>]) -> Result<(), AllocError>
    ensures { Adds result out.old out.new (key (codes "name") ∷ json_tokens (text_or_null
        (option_map (λ p. p.name) (first_in (map row_of rows.now))))) }
{
    match rows.first() {
        Some(row) => {
            let listed = row.package;
            out.string_member("name", listed.name.as_str())
        }
        None => out.null_member("name"),
    }
}

impl ToJson for Row<'_> {
    ghost use Rattle.cargo_lock_query.specs.Listing.{row_of};
    ghost use Rattle.cargo_lock_query.specs.DuplicatesDocument.{row_json};

    ghost json = { λ row. row_json (row_of row) };

    fn write_json(&self, out: &mut JsonWriter) -> Result<(), AllocError> {
        out.begin_object()?;
        out.key("package")?;
        put_package(out, self.package)?;
        out.key("needed_by")?;
        put_packages(out, &self.needers)?;
        out.end_object()
    }
}
