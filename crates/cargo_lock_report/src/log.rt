//! Findings as a log of SARIF.

ghost use Rattle.std.specs.Prelude.{◌∷◌, [], IfOk, codes, map, option_map, string_bytes};
ghost use Rattle.json.specs.Json.{array, object};
ghost use Rattle.json.specs.Token.{key};
ghost use Rattle.json.specs.Tree.{json_tokens, members_tokens};
ghost use Rattle.printing.specs.Json.{Adds, IsJsonText, items_of};
ghost use Rattle.cargo_lock_report.specs.Log as spec;
ghost use Rattle.cargo_lock_report.specs.Log.{fingerprints_json, location_json, message_json};
ghost use Rattle.cargo_lock_report.specs.Log.{region_member, result_json, rule_json, run_json};
ghost use Rattle.cargo_lock_report.specs.Log.{sarif_json, tool_json};
ghost use Rattle.cargo_lock_report.specs.Reported.{spot_of};
ghost use Rattle.cargo_lock_report.specs.Rules.{listed_rule};

use crate::escape::{Escape, Escaped};
use crate::fingerprint::fingerprint;
use crate::reported::{Reported, Spot};
use crate::rules::{ListedRule, rules_of};
use crate::uri::{PathUri, is_link};
use printing::{JsonWriter, ToJson, json_line, write_array};
use std::alloc::{AllocError, Global};

/// The log of findings in one line, by SARIF 2.1.0: one run, with the rules of the findings, each
/// once, and a result for each finding, in their order. Fails when out of memory.
///
/// ```
/// let text = sarif_log(rt.alloc(), findings)?;
/// ```
pub fn sarif_log(alloc: Global, findings: &[Reported]) -> Result<String, AllocError>
    ensures { IfOk result
        (λ text. IsJsonText (sarif_json findings.now) (string_bytes text)) }
{
    let rules = rules_of(alloc, findings)?;
    let log = Log {
        rules: &rules,
        findings,
    };
    json_line(alloc, &log)
}

// What a log has.
#[derive(Clone, Copy)]
struct Log<'d, 'r> {
    rules: &'d [ListedRule<'r>],
    findings: &'d [Reported],
}

impl ToJson for Log<'_, '_> {
    ghost use Rattle.std.specs.Prelude.{map};
    ghost use Rattle.cargo_lock_report.specs.Log.{log_json};
    ghost use Rattle.cargo_lock_report.specs.Rules.{listed_rule};

    ghost json = { λ log. log_json (map listed_rule log.rules.now) log.findings.now };

    fn write_json(&self, out: &mut JsonWriter) -> Result<(), AllocError> {
        out.begin_object()?;
        out.string_member("$schema", "https://json.schemastore.org/sarif-2.1.0.json")?;
        out.string_member("version", "2.1.0")?;
        out.key("runs")?;
        out.begin_array()?;
        put_run(out, self.rules, self.findings)?;
        out.end_array()?;
        out.end_object()
    }
}

// Writes the run with these rules and results.
fn put_run(
    out: &mut JsonWriter,
    rules: &[ListedRule<'_>],
    findings: &[Reported],
) -> Result<(), AllocError>
    ensures { Adds result out.old out.new
        (json_tokens (run_json (map listed_rule rules.now) findings.now)) }
{
    out.begin_object()?;
    out.key("tool")?;
    put_tool(out, rules)?;
    out.key("results")?;
    write_array(out, findings)?;
    out.end_object()
}

// Writes what found them.
fn put_tool(out: &mut JsonWriter, rules: &[ListedRule<'_>]) -> Result<(), AllocError>
    ensures { Adds result out.old out.new (json_tokens (tool_json (map listed_rule rules.now))) }
{
    out.begin_object()?;
    out.key("driver")?;
    out.begin_object()?;
    out.string_member("name", "cargo-lock")?;
    out.key("rules")?;
    write_array(out, rules)?;
    out.end_object()?;
    out.end_object()
}

impl ToJson for ListedRule<'_> {
    ghost use Rattle.cargo_lock_report.specs.Log.{rule_json};
    ghost use Rattle.cargo_lock_report.specs.Rules.{listed_rule};

    ghost json = { λ rule. rule_json (listed_rule rule) };

    fn write_json(&self, out: &mut JsonWriter) -> Result<(), AllocError> {
        let ListedRule(rule) = *self;
        out.begin_object()?;
        out.string_member("id", rule.id.as_str())?;
        put_title(out, &rule.title)?;
        put_link(out, &rule.url)?;
        out.end_object()
    }
}

// Writes the member with the title of a rule, if it has one.
fn put_title(out: &mut JsonWriter, title: &Option<String>) -> Result<(), AllocError>
    ensures { Adds result out.old out.new
        (spec.title_tokens (option_map string_bytes title.now)) }
{
    match title {
        Some(title) => {
            out.key("shortDescription")?;
            put_message(out, title)
        }
        None => Ok(()),
    }
}

// Writes the member with the URL of a rule, if it has one that is a URI of the web.
fn put_link(out: &mut JsonWriter, url: &Option<String>) -> Result<(), AllocError>
    ensures { Adds result out.old out.new
        (spec.link_tokens (option_map string_bytes url.now)) }
{
    match url {
        Some(url) => put_if_link(out, url),
        None => Ok(()),
    }
}

fn put_if_link(out: &mut JsonWriter, url: &str) -> Result<(), AllocError>
    ensures { Adds result out.old out.new (spec.tokens_if_link url.now) }
{
    if is_link(url) {
        out.string_member("helpUri", url)?;
    }
    Ok(())
}

// Writes a message.
#[tactic(auto, unfolding(crate::specs::Log::message_json))]
fn put_message(out: &mut JsonWriter, text: &str) -> Result<(), AllocError>
    ensures { Adds result out.old out.new (json_tokens (message_json text.now)) }
{
    out.begin_object()?;
    out.displayed_member("text", &Escaped(Escape::Braces, text))?;
    out.end_object()
}

// A finding is a result.
impl ToJson for Reported {
    ghost use Rattle.cargo_lock_report.specs.Log.{result_json};

    ghost json = { result_json };

    fn write_json(&self, out: &mut JsonWriter) -> Result<(), AllocError> {
        out.begin_object()?;
        out.string_member("ruleId", self.rule.id.as_str())?;
        out.string_member("level", self.level.word())?;
        out.key("message")?;
        put_message(out, &self.message)?;
        put_locations(out, self)?;
        put_fingerprints(out, self)?;
        out.end_object()
    }
}

// Writes the member with where a finding lies.
fn put_locations(out: &mut JsonWriter, finding: &Reported) -> Result<(), AllocError>
    ensures { Adds result out.old out.new (key (codes "locations")
        ∷ json_tokens (array (items_of (location_json finding.now.spot ∷ [])))) }
{
    let spot = Spot {
        path: finding.path.as_str(),
        line: finding.line,
    };
    out.key("locations")?;
    out.begin_array()?;
    put_location(out, spot)?;
    out.end_array()
}

// Writes where a finding lies.
fn put_location(out: &mut JsonWriter, spot: Spot<'_>) -> Result<(), AllocError>
    ensures { Adds result out.old out.new (json_tokens (location_json (spot_of spot.entry))) }
{
    out.begin_object()?;
    out.key("physicalLocation")?;
    out.begin_object()?;
    out.key("artifactLocation")?;
    out.begin_object()?;
    out.displayed_member("uri", &PathUri(spot.path))?;
    out.end_object()?;
    put_region(out, spot.line)?;
    out.end_object()?;
    out.end_object()
}

// Writes the member with a line, if it is known.
fn put_region(out: &mut JsonWriter, line: Option<usize>) -> Result<(), AllocError>
    ensures { Adds result out.old out.new (spec.region_tokens line) }
{
    match line {
        Some(number) => put_line(out, number),
        None => Ok(()),
    }
}

fn put_line(out: &mut JsonWriter, number: usize) -> Result<(), AllocError>
    ensures { Adds result out.old out.new (spec.line_tokens number) }
{
    out.key("region")?;
    out.begin_object()?;
    out.number_member("startLine", number as u64)?;
    out.end_object()
}

// Writes the member by which a finding is known again.
#[tactic(auto, unfolding(crate::specs::Log::fingerprints_json))]
fn put_fingerprints(out: &mut JsonWriter, finding: &Reported) -> Result<(), AllocError>
    ensures { Adds result out.old out.new (key (codes "partialFingerprints")
        ∷ json_tokens (fingerprints_json finding.now)) }
{
    out.key("partialFingerprints")?;
    out.begin_object()?;
    out.displayed_member("kindNameVersion/v1", &fingerprint(finding))?;
    out.end_object()
}
