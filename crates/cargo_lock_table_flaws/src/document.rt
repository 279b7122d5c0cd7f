//! What keeps a table from being read as a lockfile, as a document of JSON.

ghost use Rattle.std.specs.Prelude.{◌≡◌, ◌∷◌, IfOk, codes, option_map, string_bytes};
ghost use Rattle.json.specs.Token.{key};
ghost use Rattle.json.specs.Tree.{json_tokens};
ghost use Rattle.cargo_lock_display.specs.PackageJson.{identity_json};
ghost use Rattle.cargo_lock_parts.specs.Checksum.{digest_of};
ghost use Rattle.cargo_lock_table_flaws.specs.Document as spec;
ghost use Rattle.cargo_lock_table_flaws.specs.Document.{encoded_json, finding_package_json};
ghost use Rattle.cargo_lock_table_flaws.specs.Document.{line_at_place, place_of};
ghost use Rattle.cargo_lock_table_flaws.specs.Document.{table_finding_json, table_finding_kind};
ghost use Rattle.cargo_lock_table_flaws.specs.Finding.{table_finding_of};
ghost use Rattle.printing.specs.Json.{Adds, IsJsonText};

use crate::finding::{Place, TableFinding};
use crate::report::TableReport;
use cargo_lock_display::{File, begin_identity, list_document, put_digest_or_null, put_origin};
use cargo_lock_location::{Lined, PackageLines, locate, put_line};
use cargo_lock_parts::dependency::Dependency;
use cargo_lock_parts::package::Checksum;
use cargo_lock_references::EncodablePackage;
use cargo_lock_references::identified::identity;
use printing::JsonWriter;
use std::alloc::{AllocError, Global};

/// The document of what keeps a table from being read as a lockfile, in one line:
/// `{"schema":"cargo-lock-check/1","path":"Cargo.lock","format":4,"findings":[..]}`. The findings are
/// at these lines of the packages that the table lists. Fails when out of memory.
///
/// ```
/// let text = table_findings_json(rt.alloc(), &file, report, lines)?;
/// ```
pub fn table_findings_json(
    alloc: Global,
    file: &File<'_>,
    report: &TableReport<'_>,
    lines: &PackageLines<'_>,
) -> Result<String, AllocError>
    ensures { IfOk result (λ text. IsJsonText
        (spec.table_findings_json file.now lines.now report.now.findings) (string_bytes text)) }
{
    let located = locate(alloc, report.findings.as_slice(), lines)?;
    list_document(alloc, "cargo-lock-check/1", file, "findings", &located)
}

impl Lined for TableFinding<'_> {
    ghost use Rattle.cargo_lock_table_flaws.specs.Document.{line_of_table_finding};
    ghost use Rattle.cargo_lock_table_flaws.specs.Document.{table_finding_json};
    ghost use Rattle.cargo_lock_table_flaws.specs.Finding.{table_finding_of};

    ghost line_in = { λ lines finding. line_of_table_finding lines (table_finding_of finding) };

    ghost json_at = { λ line finding. table_finding_json line (table_finding_of finding) };

    fn line(&self, lines: &PackageLines<'_>) -> Option<usize> {
        line_at_place(lines, place_of(self))
    }

    fn write_json_at(&self, line: Option<usize>, out: &mut JsonWriter) -> Result<(), AllocError> {
        write_finding(self, line, out)
    }
}

// Where the table of the package of a finding is.
fn place_of(finding: &TableFinding<'_>) -> Place
    ensures { result ≡ place_of (table_finding_of finding.now) }
{
    match *finding {
        TableFinding::Unread(owner, _, _) => owner.place,
        TableFinding::Unresolved(place, _, _, _) => place,
    }
}

// The number of the line of the package at a place, where it is known.
fn line_at_place(lines: &PackageLines<'_>, place: Place) -> Option<usize>
    ensures { result ≡ line_at_place lines.now.lines place }
{
    match place {
        Place::Listed(number) => lines.at(number.saturating_sub(1)),
        Place::Root | Place::Unused(_) => None,
    }
}

// Writes a finding at a line.
fn write_finding(
    finding: &TableFinding<'_>,
    line: Option<usize>,
    out: &mut JsonWriter,
) -> Result<(), AllocError>
    ensures { Adds result out.old out.new
        (json_tokens (table_finding_json line (table_finding_of finding.now))) }
{
    out.begin_object()?;
    out.string_member("kind", kind(finding))?;
    out.displayed_member("message", finding)?;
    put_line(out, line)?;
    put_owner(out, finding)?;
    out.null_member("other")?;
    out.end_object()
}

// The kind of a finding, as the document has it.
pub(crate) fn kind(finding: &TableFinding<'_>) -> &'static str
    ensures { result.now ≡ table_finding_kind (table_finding_of finding.now) }
{
    match finding {
        TableFinding::Unread(_, _, _) => "unread",
        TableFinding::Unresolved(_, _, _, _) => "reference",
    }
}

// Writes the member with the package of a reference, or null.
fn put_owner(out: &mut JsonWriter, finding: &TableFinding<'_>) -> Result<(), AllocError>
    ensures { Adds result out.old out.new (key (codes "package")
        ∷ json_tokens (finding_package_json (table_finding_of finding.now))) }
{
    out.key("package")?;
    match *finding {
        TableFinding::Unread(_, _, _) => out.null(),
        TableFinding::Unresolved(_, one, _, _) => put_encoded(out, one),
    }
}

// Writes a package as its table has it.
fn put_encoded(out: &mut JsonWriter, one: &EncodablePackage) -> Result<(), AllocError>
    ensures { Adds result out.old out.new (json_tokens (encoded_json one.now)) }
{
    let named = identity(one)?;
    put_parts(out, &named, &one.checksum)
}

// Writes a package by its identity and its checksum.
#[tactic(auto, unfolding(cargo_lock_display::specs::PackageJson::identity_json))]
fn put_parts(
    out: &mut JsonWriter,
    named: &Dependency,
    checksum: &Option<Checksum>,
) -> Result<(), AllocError>
    ensures { Adds result out.old out.new
        (json_tokens (identity_json named.now (option_map digest_of checksum.now))) }
{
    begin_identity(out, &named.name, &named.version, &named.source)?;
    put_origin(out, &named.source)?;
    put_digest_or_null(out, "checksum", checksum)?;
    out.end_object()
}
