//! What an audit of packages by advisories reports.

ghost use Rattle.std.specs.Prelude.{◌≡◌, ◌++◌, IfOk, OnOk, Some, map, option_copied, option_map};
ghost use Rattle.std.specs.Prelude.{string_bytes};
ghost use Rattle.std.specs.Fmt.{DisplaysOnOk};
ghost use Rattle.std.specs.List.{list_any};
ghost use Rattle.cargo_lock_audit.specs.Advisory.{is_name_of};
ghost use Rattle.cargo_lock_audit.specs.Audited.{audited_of};
ghost use Rattle.cargo_lock_audit.specs.Findings.{advisory_finding_of, brought_of, counts_still};
ghost use Rattle.cargo_lock_audit.specs.Findings.{finding_if, findings_of, id_of, is_brought};
ghost use Rattle.cargo_lock_audit.specs.Findings.{is_denied_kind, is_ignored, is_pair_with, unmet};
ghost use Rattle.cargo_lock_audit.specs.Findings.{unmet_if};
ghost use Rattle.cargo_lock_audit.specs.Lines.{advisory_findings_text, rest_of_report_text, unmet_text};
ghost use Rattle.cargo_lock_audit.specs.Pairs.{advisory_pair_of};
ghost use Rattle.cargo_lock_audit.specs.Report.{report_data_of, report_of};
ghost use Rattle.cargo_lock_audit.specs.Settings.{settings_of};
ghost use Rattle.cargo_lock_audit.specs.Texts.{bytes_of_texts};

use crate::advisory::Advisory;
use crate::audited::Audited;
use crate::coverage::Coverage;
use crate::database::Database;
use crate::finding::Finding;
use crate::pair::{Pair, pairs};
use crate::settings::Settings;
use crate::texts::is_listed;
use cargo_lock_parts::package::{Package, SourceId};
use printing::Shown;
use std::alloc::{AllocError, Global};
use std::fmt;

/// The word that denies each informational advisory.
const WARNINGS: &str = "warnings";

/// What an audit reports. `Display` writes a line for each finding, then for each text that was
/// ignored in vain `- ID: nothing to ignore`, and at last the line of what was compared, each with its
/// newline.
#[derive(Drop)]
pub struct Report<'p, 'a, 'i> {
    /// The findings, in the order of the packages and then of the advisories.
    pub findings: Vec<Finding<'p, 'a>>,

    /// The ids and aliases that were to be ignored, and of which no package has the advisory.
    pub unmet: Vec<Unmet<'i>>,

    /// Which packages were compared with advisories, and which were not.
    pub coverage: Coverage<'p>,
}

/// An id or alias that was to be ignored, and of which no package has the advisory. `Display` writes
/// `- ID: nothing to ignore`, without a newline.
#[derive(Clone, Copy)]
pub struct Unmet<'i>(pub &'i String);

impl fmt::Display for Unmet<'_> {
    ghost use Rattle.std.specs.Prelude.{Some};
    ghost use Rattle.cargo_lock_audit.specs.Findings.{id_of};
    ghost use Rattle.cargo_lock_audit.specs.Lines.{unmet_line};

    ghost output = { λ unmet. Some (unmet_line (id_of unmet)) };

    #[tactic(auto, unfolding(crate::specs::Lines::unmet_line))]
    fn fmt<W: fmt::Write>(&self, f: &mut fmt::Formatter<W>) -> fmt::Result {
        let Unmet(id) = *self;
        let id = Shown(id);
        write!(f, "- {id}: nothing to ignore")
    }
}

impl<'p, 'a, 'i> Report<'p, 'a, 'i> {
    /// What is reported of the packages: each advisory that concerns one, but for those whose id or
    /// alias is ignored. If there is an older lockfile, a finding is brought if its advisory concerns
    /// no package of that one, and the others are not denied. Fails when out of memory.
    ///
    /// ```
    /// let report = Report::of(alloc, &audited, &database, &settings)?;
    /// ```
    pub fn of(
        alloc: Global,
        audited: &Audited<'p>,
        database: &'a Database,
        settings: &'i Settings,
    ) -> Result<Report<'p, 'a, 'i>, AllocError>
        ensures { IfOk result (λ report. report_data_of report ≡ report_of
            (settings_of settings.now) (audited_of audited.now) database.now.advisories.items
            database.now.size) }
    {
        let Audited { packages, older } = *audited;
        let pairs = pairs(alloc, packages, &database.advisories, &settings.registries)?;
        let unmet = unmet_of(alloc, &pairs, &settings.ignored)?;
        let findings = findings_of(alloc, &pairs, settings, older)?;
        let coverage = Coverage::of(alloc, packages, &settings.registries, database.size)?;
        Ok(Report {
            findings,
            unmet,
            coverage,
        })
    }

    /// Whether a package is denied, so whether a finding has the mark `!`.
    pub fn is_denied(&self) -> bool
        ensures { result ≡ list_any (λ f. f.is_denied) self.now.findings.items }
    {
        self.findings.iter().any(|finding| finding.is_denied)
    }
}

// What is found of pairs, since an older lockfile if there is one.
fn findings_of<'p, 'a>(
    alloc: Global,
    pairs: &[Pair<'p, 'a>],
    settings: &Settings,
    older: Option<&[Package]>,
) -> Result<Vec<Finding<'p, 'a>>, AllocError>
    ensures { IfOk result (λ v. map advisory_finding_of v.items
        ≡ findings_of (settings_of settings.now) (option_copied older.entry)
        (map advisory_pair_of pairs.now)) }
{
    let mut found = Vec::new(alloc);
    for pair in pairs {
        put_finding(alloc, &mut found, *pair, settings, older)?;
    }
    Ok(found)
}

// Adds the finding of a pair, unless its advisory is ignored.
fn put_finding<'p, 'a>(
    alloc: Global,
    found: &mut Vec<Finding<'p, 'a>>,
    pair: Pair<'p, 'a>,
    settings: &Settings,
    older: Option<&[Package]>,
) -> Result<(), AllocError>
    ensures { OnOk result (map advisory_finding_of found.new.items
        ≡ map advisory_finding_of found.old.items
        ++ finding_if (settings_of settings.now) (option_copied older.entry)
        (advisory_pair_of pair.entry)) }
{
    let Pair { package, advisory } = pair;
    if !is_ignored(&settings.ignored, advisory) {
        let brought = brought_of(alloc, &settings.registries, older, advisory)?;
        let is_denied = is_denied_kind(&settings.denied, &advisory.informational)
            && counts_still(brought);
        found.push(Finding {
            package,
            advisory,
            is_denied,
            brought,
        })?;
    }
    Ok(())
}

// Whether what is found by an advisory is brought, if there is an older lockfile.
fn brought_of(
    alloc: Global,
    registries: &[SourceId],
    older: Option<&[Package]>,
    advisory: &Advisory,
) -> Result<Option<bool>, AllocError>
    ensures { IfOk result (λ brought. brought
        ≡ brought_of registries.now (option_copied older.entry) advisory.now) }
{
    match older {
        Some(packages) => Ok(Some(is_brought(alloc, registries, packages, advisory)?)),
        None => Ok(None),
    }
}

// Whether the advisory concerns none of the packages.
fn is_brought(
    alloc: Global,
    registries: &[SourceId],
    packages: &[Package],
    advisory: &Advisory,
) -> Result<bool, AllocError>
    ensures { IfOk result
        (λ is_so. is_so ≡ is_brought registries.now packages.now advisory.now) }
{
    for package in packages {
        if advisory.concerns(alloc, package, registries)? {
            return Ok(false);
        }
    }
    Ok(true)
}

// Whether what is found counts, though there may be an older lockfile.
fn counts_still(brought: Option<bool>) -> bool
    ensures { result ≡ counts_still brought }
{
    match brought {
        Some(brought) => brought,
        None => true,
    }
}

// Whether an advisory of this kind is denied.
fn is_denied_kind(denied: &[String], informational: &Option<String>) -> bool
    ensures { result ≡ is_denied_kind (bytes_of_texts denied.now) (option_map string_bytes
        informational.now) }
{
    match informational {
        Some(kind) => is_listed(denied, kind) || is_listed(denied, WARNINGS),
        None => true,
    }
}

// Whether one of the texts is the id of the advisory or one of its aliases.
fn is_ignored(ignored: &[String], advisory: &Advisory) -> bool
    ensures { result ≡ is_ignored (bytes_of_texts ignored.now) advisory.now }
{
    is_named_by_one(ignored, advisory)
}

// The same, as a test of each text.
fn is_named_by_one(texts: &[String], advisory: &Advisory) -> bool
    ensures { result ≡ list_any (λ s. is_name_of advisory.now (string_bytes s)) texts.now }
{
    texts.iter().any(|text| advisory.is_named(text))
}

// ---- what is ignored in vain

// The texts of which no pair has the advisory.
fn unmet_of<'i>(
    alloc: Global,
    pairs: &[Pair<'_, '_>],
    ids: &'i [String],
) -> Result<Vec<Unmet<'i>>, AllocError>
    ensures { IfOk result (λ v. map id_of v.items
        ≡ unmet (map advisory_pair_of pairs.now) (bytes_of_texts ids.now)) }
{
    let mut unmet = Vec::new(alloc);
    for id in ids {
        put_unmet(&mut unmet, pairs, id)?;
    }
    Ok(unmet)
}

// Adds the text if no pair has its advisory.
fn put_unmet<'i>(
    unmet: &mut Vec<Unmet<'i>>,
    pairs: &[Pair<'_, '_>],
    id: &'i String,
) -> Result<(), AllocError>
    ensures { OnOk result (map id_of unmet.new.items ≡ map id_of unmet.old.items
        ++ unmet_if (map advisory_pair_of pairs.now) (string_bytes id.now)) }
{
    if !is_met(pairs, id) {
        unmet.push(Unmet(id))?;
    }
    Ok(())
}

// Whether a pair has the advisory of this id or alias.
fn is_met(pairs: &[Pair<'_, '_>], id: &str) -> bool
    ensures { result ≡ list_any (is_pair_with id.now) (map advisory_pair_of pairs.now) }
{
    is_with_one(pairs, id)
}

// The same, as a test of each pair.
fn is_with_one(pairs: &[Pair<'_, '_>], id: &str) -> bool
    ensures { result ≡ list_any (λ q. is_pair_with id.now (advisory_pair_of q)) pairs.now }
{
    pairs.iter().any(|pair| is_with(pair, id))
}

// Whether the pair has the advisory of this id or alias.
fn is_with(pair: &Pair<'_, '_>, id: &str) -> bool
    ensures { result ≡ is_pair_with id.now (advisory_pair_of pair.now) }
{
    let advisory = pair.advisory;
    advisory.is_named(id)
}

// ---- lines

impl fmt::Display for Report<'_, '_, '_> {
    ghost use Rattle.std.specs.Prelude.{Some};
    ghost use Rattle.cargo_lock_audit.specs.Lines.{audit_report_text};
    ghost use Rattle.cargo_lock_audit.specs.Report.{report_data_of};

    ghost output = { λ report. Some (audit_report_text (report_data_of report)) };

    fn fmt<W: fmt::Write>(&self, f: &mut fmt::Formatter<W>) -> fmt::Result {
        write_findings(&self.findings, f)?;
        write_rest(self, f)
    }
}

/// Writes the lines of a report behind those of its findings, each with its newline: what was ignored in
/// vain, and what was compared.
pub fn write_rest<W: fmt::Write>(
    report: &Report<'_, '_, '_>,
    f: &mut fmt::Formatter<W>,
) -> fmt::Result
    ensures { DisplaysOnOk W.write_str_gives f.old result
        (Some (rest_of_report_text (report_data_of report.now))) f.new }
{
    write_unmet(&report.unmet, f)?;
    let coverage = &report.coverage;
    write!(f, "{coverage}\n")
}

// Writes the line of each finding.
fn write_findings<W: fmt::Write>(
    findings: &[Finding<'_, '_>],
    f: &mut fmt::Formatter<W>,
) -> fmt::Result
    ensures { DisplaysOnOk W.write_str_gives f.old result
        (Some (advisory_findings_text (map advisory_finding_of findings.now))) f.new }
{
    for finding in findings {
        write!(f, "{finding}\n")?;
    }
    Ok(())
}

// Writes the line of each text that was ignored in vain.
fn write_unmet<W: fmt::Write>(all: &[Unmet<'_>], f: &mut fmt::Formatter<W>) -> fmt::Result
    ensures { DisplaysOnOk W.write_str_gives f.old result
        (Some (unmet_text (map id_of all.now))) f.new }
{
    for unmet in all {
        write!(f, "{unmet}\n")?;
    }
    Ok(())
}
