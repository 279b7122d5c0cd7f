//! What is found of packages by advisories, as a document of JSON.

ghost use Rattle.std.specs.Prelude.{◌≡◌, ◌∷◌, IfOk, codes, decimal, length, map, option_map};
ghost use Rattle.std.specs.Prelude.{string_bytes};
ghost use Rattle.json.specs.Json.{object};
ghost use Rattle.json.specs.Token.{key, number, string};
ghost use Rattle.json.specs.Tree.{json_tokens};
ghost use Rattle.cargo_lock_audit.specs.Coverage.{coverage_data_of};
ghost use Rattle.cargo_lock_audit.specs.Document.{advisory_kind, affected_json, affected_or_null};
ghost use Rattle.cargo_lock_audit.specs.Document.{details_tokens, functions_members};
ghost use Rattle.cargo_lock_audit.specs.Document.{located_finding_json};
ghost use Rattle.cargo_lock_audit.specs.Document.{requirements_json, texts_json, truth_or_null};
ghost use Rattle.cargo_lock_audit.specs.Document as spec;
ghost use Rattle.cargo_lock_audit.specs.Report.{report_data_of};
ghost use Rattle.cargo_lock_audit.specs.Texts.{bytes_of_texts};
ghost use Rattle.cargo_lock_display.specs.PackageJson.{packages_json};
ghost use Rattle.printing.specs.Json.{Adds, IsJsonText};
ghost use Rattle.printing.specs.Value.{text_or_null};

use crate::advisory::Advisory;
use crate::coverage::Coverage;
use crate::details::{Affected, Details, Function};
use crate::finding::Finding;
use crate::report::{Report, Unmet};
use crate::requirement::Requirement;
use cargo_lock_display::{File, begin_document, put_package, put_packages};
use cargo_lock_location::{Lined, Located, PackageLines, locate, put_line};
use printing::{JsonWriter, ToJson, json_line, write_array};
use std::alloc::{AllocError, Global};

/// The document of what is found of packages by advisories, in one line:
/// `{"schema":"cargo-lock-audit/1","path":"Cargo.lock","format":4,"findings":[..],"unmet":[..],
/// "compared":39,"advisories":812,"not_compared":[..]}`. Each finding is at the line of its package,
/// by these lines. Fails when out of memory.
///
/// ```
/// let text = advisories_json(rt.alloc(), file, report, lines)?;
/// ```
pub fn advisories_json(
    alloc: Global,
    file: &File<'_>,
    report: &Report<'_, '_, '_>,
    lines: &PackageLines<'_>,
) -> Result<String, AllocError>
    ensures { IfOk result (λ text. IsJsonText
        (spec.advisories_json file.now lines.now (report_data_of report.now)) (string_bytes text)) }
{
    let findings = locate(alloc, &report.findings, lines)?;
    advisories_document(alloc, file, report, &findings)
}

// The document of a report, whose findings are these at these lines.
fn advisories_document(
    alloc: Global,
    file: &File<'_>,
    report: &Report<'_, '_, '_>,
    findings: &[Located<'_, Finding<'_, '_>>],
) -> Result<String, AllocError>
    ensures { IfOk result (λ text. IsJsonText (spec.advisories_document file.now
        (map located_finding_json findings.now) (report_data_of report.now)) (string_bytes text)) }
{
    json_line(
        alloc,
        &Document {
            file,
            report,
            findings,
        },
    )
}

// What the document has.
#[derive(Clone, Copy)]
struct Document<'d, 'r> {
    file: &'d File<'d>,
    report: &'d Report<'r, 'r, 'r>,
    findings: &'d [Located<'r, Finding<'r, 'r>>],
}

impl ToJson for Document<'_, '_> {
    ghost use Rattle.std.specs.Prelude.{map};
    ghost use Rattle.cargo_lock_audit.specs.Document.{advisories_document, located_finding_json};
    ghost use Rattle.cargo_lock_audit.specs.Report.{report_data_of};

    ghost json = { λ d. advisories_document d.file.now (map located_finding_json d.findings.now)
        (report_data_of d.report.now) };

    fn write_json(&self, out: &mut JsonWriter) -> Result<(), AllocError> {
        begin_document(out, "cargo-lock-audit/1", self.file)?;
        out.key("findings")?;
        write_array(out, self.findings)?;
        out.key("unmet")?;
        write_array(out, &self.report.unmet)?;
        put_coverage(out, &self.report.coverage)?;
        out.end_object()
    }
}

// Writes the members of what was compared.
fn put_coverage(out: &mut JsonWriter, coverage: &Coverage<'_>) -> Result<(), AllocError>
    ensures { Adds result out.old out.new
        (key (codes "compared") ∷ number (decimal (length (coverage_data_of coverage.now).compared))
        ∷ key (codes "advisories") ∷ number (decimal coverage.now.advisories)
        ∷ key (codes "not_compared")
        ∷ json_tokens (packages_json (coverage_data_of coverage.now).not_compared)) }
{
    out.number_member("compared", coverage.compared.len() as u64)?;
    out.number_member("advisories", coverage.advisories as u64)?;
    out.key("not_compared")?;
    put_packages(out, &coverage.not_compared)
}

impl Lined for Finding<'_, '_> {
    ghost use Rattle.cargo_lock_audit.specs.Findings.{advisory_finding_of};
    ghost use Rattle.cargo_lock_audit.specs.Document.{advisory_finding_json, advisory_finding_line_in};

    ghost line_in = { λ lines finding. advisory_finding_line_in lines (advisory_finding_of finding) };

    ghost json_at = { λ line finding. advisory_finding_json line (advisory_finding_of finding) };

    fn line(&self, lines: &PackageLines<'_>) -> Option<usize> {
        lines.of(self.package)
    }

    fn write_json_at(&self, line: Option<usize>, out: &mut JsonWriter) -> Result<(), AllocError> {
        let advisory = self.advisory;
        out.begin_object()?;
        out.string_member("kind", kind(advisory))?;
        out.boolean_member("denied", self.is_denied)?;
        out.displayed_member("message", self)?;
        put_line(out, line)?;
        out.key("package")?;
        put_package(out, self.package)?;
        put_advisory(out, advisory)?;
        put_aliases(out, advisory)?;
        put_unaffected(out, advisory)?;
        put_details(out, advisory)?;
        put_truth_or_null(out, "brought", self.brought)?;
        out.end_object()
    }
}

// The kind of an advisory: that of an informational one, or else a vulnerability.
fn kind(advisory: &Advisory) -> &str
    ensures { result.now ≡ advisory_kind advisory.now }
{
    match &advisory.informational {
        Some(kind) => kind.as_str(),
        None => "vulnerability",
    }
}

// Writes the members with the id of an advisory, its title, and which versions are patched.
fn put_advisory(out: &mut JsonWriter, advisory: &Advisory) -> Result<(), AllocError>
    ensures { Adds result out.old out.new (key (codes "id") ∷ string advisory.now.id
        ∷ key (codes "title") ∷ string advisory.now.title
        ∷ key (codes "patched") ∷ json_tokens (requirements_json advisory.now.patched)) }
{
    out.string_member("id", advisory.id.as_str())?;
    out.string_member("title", advisory.title.as_str())?;
    put_requirements(out, "patched", &advisory.patched)
}

// Writes the member with the ids of an advisory in other databases.
fn put_aliases(out: &mut JsonWriter, advisory: &Advisory) -> Result<(), AllocError>
    ensures { Adds result out.old out.new
        (key (codes "aliases") ∷ json_tokens (texts_json advisory.now.aliases)) }
{
    put_texts(out, "aliases", &advisory.aliases)
}

// Writes the member with the versions that were never affected.
fn put_unaffected(out: &mut JsonWriter, advisory: &Advisory) -> Result<(), AllocError>
    ensures { Adds result out.old out.new
        (key (codes "unaffected") ∷ json_tokens (requirements_json advisory.now.unaffected)) }
{
    put_requirements(out, "unaffected", &advisory.unaffected)
}

// Writes a member whose value is a list of requirements.
fn put_requirements(
    out: &mut JsonWriter,
    name: &str,
    requirements: &[Requirement],
) -> Result<(), AllocError>
    ensures { Adds result out.old out.new
        (key name.now ∷ json_tokens (requirements_json requirements.now)) }
{
    out.key(name)?;
    write_array(out, requirements)
}

// Writes the members of what an advisory says besides.
fn put_details(out: &mut JsonWriter, advisory: &Advisory) -> Result<(), AllocError>
    ensures { Adds result out.old out.new (details_tokens advisory.now.details) }
{
    write_details(out, &advisory.details)
}

fn write_details(out: &mut JsonWriter, details: &Details) -> Result<(), AllocError>
    ensures { Adds result out.old out.new (details_tokens details.now) }
{
    out.string_member("date", details.date.as_str())?;
    put_text_or_null(out, "url", &details.url)?;
    put_text_or_null(out, "cvss", &details.cvss)?;
    put_texts(out, "references", &details.references)?;
    put_texts(out, "categories", &details.categories)?;
    put_texts(out, "keywords", &details.keywords)?;
    put_affected(out, &details.affected)
}

// Writes the member with what is affected, or null.
fn put_affected(out: &mut JsonWriter, affected: &Option<Affected>) -> Result<(), AllocError>
    ensures { Adds result out.old out.new
        (key (codes "affected") ∷ json_tokens (affected_or_null affected.now)) }
{
    match affected {
        Some(affected) => {
            out.key("affected")?;
            write_affected(out, affected)
        }
        None => out.null_member("affected"),
    }
}

fn write_affected(out: &mut JsonWriter, affected: &Affected) -> Result<(), AllocError>
    ensures { Adds result out.old out.new (json_tokens (affected_json affected.now)) }
{
    out.begin_object()?;
    put_functions(out, &affected.functions)?;
    put_texts(out, "os", &affected.os)?;
    put_texts(out, "arch", &affected.arch)?;
    out.end_object()
}

// Writes the member with the functions that are affected.
fn put_functions(out: &mut JsonWriter, functions: &[Function]) -> Result<(), AllocError>
    ensures { Adds result out.old out.new
        (key (codes "functions") ∷ json_tokens (object (functions_members functions.now))) }
{
    out.key("functions")?;
    write_functions(out, functions)
}

fn write_functions(out: &mut JsonWriter, functions: &[Function]) -> Result<(), AllocError>
    ensures { Adds result out.old out.new
        (json_tokens (object (functions_members functions.now))) }
{
    out.begin_object()?;
    for function in functions {
        put_function(out, function)?;
    }
    out.end_object()
}

// Writes the member with the versions in which a function is affected.
fn put_function(out: &mut JsonWriter, function: &Function) -> Result<(), AllocError>
    ensures { Adds result out.old out.new
        (key function.now.path ∷ json_tokens (texts_json function.now.versions)) }
{
    put_texts(out, function.path.as_str(), &function.versions)
}

// Writes a member whose value is a text, or null.
fn put_text_or_null(
    out: &mut JsonWriter,
    name: &str,
    text: &Option<String>,
) -> Result<(), AllocError>
    ensures { Adds result out.old out.new (key name.now
        ∷ json_tokens (text_or_null (option_map string_bytes text.now))) }
{
    match text {
        Some(text) => out.string_member(name, text.as_str()),
        None => out.null_member(name),
    }
}

// Writes a member whose value is true, false or null.
fn put_truth_or_null(
    out: &mut JsonWriter,
    name: &str,
    truth: Option<bool>,
) -> Result<(), AllocError>
    ensures { Adds result out.old out.new (key name.now ∷ json_tokens (truth_or_null truth)) }
{
    match truth {
        Some(is_so) => out.boolean_member(name, is_so),
        None => out.null_member(name),
    }
}

// Writes a member whose value is a list of texts.
fn put_texts(out: &mut JsonWriter, name: &str, texts: &[String]) -> Result<(), AllocError>
    ensures { Adds result out.old out.new
        (key name.now ∷ json_tokens (texts_json (bytes_of_texts texts.now))) }
{
    out.key(name)?;
    write_texts(out, texts)
}

// Writes the array of texts.
fn write_texts(out: &mut JsonWriter, texts: &[String]) -> Result<(), AllocError>
    ensures { Adds result out.old out.new (json_tokens (texts_json (bytes_of_texts texts.now))) }
{
    out.begin_array()?;
    for text in texts {
        out.string(text.as_str())?;
    }
    out.end_array()
}

// A requirement is the text that the advisory has.
impl ToJson for Requirement {
    ghost use Rattle.json.specs.Json.{string};

    ghost json = { λ requirement. string requirement.text };

    fn write_json(&self, out: &mut JsonWriter) -> Result<(), AllocError> {
        out.string(self.text.as_str())
    }
}

impl ToJson for Unmet<'_> {
    ghost use Rattle.json.specs.Json.{string};
    ghost use Rattle.cargo_lock_audit.specs.Findings.{id_of};

    ghost json = { λ unmet. string (id_of unmet) };

    fn write_json(&self, out: &mut JsonWriter) -> Result<(), AllocError> {
        out.string(self.0.as_str())
    }
}
