//! A difference as a document of JSON.

ghost use Rattle.std.specs.Prelude.{◌∷◌, IfOk, codes, map, string_bytes};
ghost use Rattle.json.specs.Token.{key};
ghost use Rattle.json.specs.Tree.{json_tokens};
ghost use Rattle.cargo_lock_diff.specs.Change.{change_of};
ghost use Rattle.cargo_lock_diff.specs.Document.{counts_json, located_change_json};
ghost use Rattle.cargo_lock_diff.specs.Document as spec;
ghost use Rattle.printing.specs.Json.{Adds, IsJsonText};

use crate::change::Change;
use crate::summary::Summary;
use cargo_lock_display::{File, put_file};
use cargo_lock_location::{Located, PackageLines, locate};
use printing::{JsonWriter, ToJson, json_line, write_array};
use std::alloc::{AllocError, Global};

/// The document of the changes between two lockfiles, in one line:
/// `{"schema":"cargo-lock-diff/1","old":{"path":"old.lock","format":3},"new":{..},"alarm":false,
/// "counts":{"alarm":0,..},"changes":[..]}`. Each change is at the line of its new package, by these
/// lines of the new lockfile. Fails when out of memory.
///
/// ```
/// let old = File {
///     path: Some("old.lock"),
///     format: ResolveVersion::V3,
/// };
/// let new = File {
///     path: Some("Cargo.lock"),
///     format: ResolveVersion::V4,
/// };
/// let changes = difference.all_changes(rt.alloc(), false)?;
/// let text = difference_json(rt.alloc(), &old, &new, changes.as_slice(), lines)?;
/// ```
pub fn difference_json(
    alloc: Global,
    old: &File<'_>,
    new: &File<'_>,
    changes: &[Change<'_>],
    lines: &PackageLines<'_>,
) -> Result<String, AllocError>
    ensures { IfOk result (λ text. IsJsonText
        (spec.difference_json old.now new.now lines.now (map change_of changes.now))
        (string_bytes text)) }
{
    let summary = Summary::of(changes);
    let located = locate(alloc, changes, lines)?;
    difference_document(alloc, old, new, &summary, &located)
}

// The document of changes at their lines, of which there are so many of each kind.
fn difference_document(
    alloc: Global,
    old: &File<'_>,
    new: &File<'_>,
    summary: &Summary,
    changes: &[Located<'_, Change<'_>>],
) -> Result<String, AllocError>
    ensures { IfOk result (λ text. IsJsonText
        (spec.difference_document old.now new.now «summary».now
        (map located_change_json changes.now)) (string_bytes text)) }
{
    json_line(
        alloc,
        &Document {
            old,
            new,
            summary,
            changes,
        },
    )
}

// What the document has.
#[derive(Clone, Copy)]
struct Document<'d, 'a> {
    old: &'d File<'d>,
    new: &'d File<'d>,
    summary: &'d Summary,
    changes: &'d [Located<'a, Change<'a>>],
}

impl ToJson for Document<'_, '_> {
    ghost use Rattle.std.specs.Prelude.{map};
    ghost use Rattle.cargo_lock_diff.specs.Document.{difference_document, located_change_json};

    ghost json = { λ d. difference_document d.old.now d.new.now d.«summary».now
        (map located_change_json d.changes.now) };

    fn write_json(&self, out: &mut JsonWriter) -> Result<(), AllocError> {
        out.begin_object()?;
        out.string_member("schema", "cargo-lock-diff/1")?;
        put_file(out, "old", self.old)?;
        put_file(out, "new", self.new)?;
        out.boolean_member("alarm", self.summary.alarms != 0)?;
        put_counts(out, self.summary)?;
        out.key("changes")?;
        write_array(out, self.changes)?;
        out.end_object()
    }
}

// Writes the member with the counts.
fn put_counts(out: &mut JsonWriter, summary: &Summary) -> Result<(), AllocError>
    ensures { Adds result out.old out.new (key (codes "counts")
        ∷ json_tokens (counts_json summary.now)) }
{
    out.key("counts")?;
    out.begin_object()?;
    out.number_member("alarm", summary.alarms as u64)?;
    out.number_member("source", summary.sources as u64)?;
    out.number_member("checksum", summary.checksums as u64)?;
    out.number_member("replacement", summary.replacements as u64)?;
    out.number_member("updated", summary.updated as u64)?;
    out.number_member("downgraded", summary.downgraded as u64)?;
    out.number_member("removed", summary.removed as u64)?;
    out.number_member("added", summary.added as u64)?;
    out.number_member("dependencies", summary.dependencies as u64)?;
    out.end_object()
}
