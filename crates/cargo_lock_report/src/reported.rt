//! A finding as a report has it.

ghost use Rattle.std.specs.Prelude.{◌≡◌, IfOk, option_map, string_bytes};
ghost use Rattle.cargo_lock_report.specs.Log as log;
ghost use Rattle.cargo_lock_report.specs.Reported as spec;
ghost use Rattle.cargo_lock_report.specs.Reported.{name_or_empty, spot_of, version_or_empty};

use cargo_lock_parts::package::Package;
use std::alloc::{AllocError, Global};
use std::marker::Model;

/// Whether a finding counts.
#[derive(Debug, Clone, Copy, PartialEq, Eq)]
pub enum Level {
    /// It counts: the status of the command is a failure.
    Error,

    /// It does not count.
    Warning,
}

impl Level {
    /// The level of a finding that counts, or does not.
    ///
    /// ```
    /// let level = Level::of(is_vulnerability);
    /// ```
    pub fn of(counts: bool) -> Level
        ensures { result ≡ spec.level_of counts }
    {
        if counts { Level::Error } else { Level::Warning }
    }

    // The word for it.
    pub(crate) fn word(self) -> &'static str
        ensures { result.now ≡ log.level_word self }
    {
        match self {
            Level::Error => "error",
            Level::Warning => "warning",
        }
    }
}

/// What a finding is an instance of: a kind of finding, or an advisory.
#[derive(Drop)]
pub struct Rule {
    /// The kind, as `twice`, or the id of the advisory.
    pub id: String,

    /// The title of the advisory.
    pub title: Option<String>,

    /// The URL of the advisory, if it has one.
    pub url: Option<String>,
}

impl Model for Rule {
    ghost use Rattle.std.specs.Prelude.{option_map, string_bytes};
    ghost use Rattle.cargo_lock_report.specs.Reported.{RuleData};

    ghost Value = { RuleData };

    ghost view = { λ r. record {
      id = string_bytes r.id;
      title = option_map string_bytes r.title;
      url = option_map string_bytes r.url;
    } };
}

impl Rule {
    /// The rule of a kind of finding. Fails when out of memory.
    ///
    /// ```
    /// let rule = Rule::of_kind(alloc, "twice")?;
    /// ```
    pub fn of_kind(alloc: Global, kind: &str) -> Result<Rule, AllocError>
        ensures { IfOk result (λ rule. rule ≡ spec.rule_of_kind kind.now) }
    {
        Ok(Rule {
            id: String::from_str(alloc, kind)?,
            title: None,
            url: None,
        })
    }

    /// The rule of an advisory. Fails when out of memory.
    ///
    /// ```
    /// let rule = Rule::of_advisory(alloc, &advisory.id, &advisory.title, &details.url)?;
    /// ```
    pub fn of_advisory(
        alloc: Global,
        id: &str,
        title: &str,
        url: &Option<String>,
    ) -> Result<Rule, AllocError>
        ensures { IfOk result (λ rule. rule
            ≡ spec.rule_of_advisory id.now title.now (option_map string_bytes url.now)) }
    {
        Ok(Rule {
            id: String::from_str(alloc, id)?,
            title: Some(String::from_str(alloc, title)?),
            url: link_of(alloc, url)?,
        })
    }
}

// The URL of an advisory, if it has one.
fn link_of(alloc: Global, url: &Option<String>) -> Result<Option<String>, AllocError>
    ensures { IfOk result (λ link. option_map string_bytes link
        ≡ option_map string_bytes url.now) }
{
    match url {
        Some(url) => Ok(Some(String::from_str(alloc, url)?)),
        None => Ok(None),
    }
}

/// Where a finding lies.
#[derive(Clone, Copy)]
pub struct Spot<'a> {
    /// The path of the lockfile, relative to the folder that the report is for, or absolute.
    pub path: &'a str,

    /// The number of the line, from 1 on, where it is known.
    pub line: Option<usize>,
}

/// A finding as a report has it.
#[derive(Drop)]
pub struct Reported {
    /// What it is an instance of.
    pub rule: Rule,

    /// Whether it counts.
    pub level: Level,

    /// Its line, as the command prints it.
    pub message: String,

    /// The name of its package, empty if it is of none.
    pub name: String,

    /// The version of its package, empty if it is of none.
    pub version: String,

    /// The path of the lockfile.
    pub path: String,

    /// The number of its line, where it is known.
    pub line: Option<usize>,
}

impl Model for Reported {
    ghost use Rattle.std.specs.Prelude.{string_bytes};
    ghost use Rattle.cargo_lock_report.specs.Reported.{ReportedData};

    ghost Value = { ReportedData };

    ghost view = { λ f. record {
      rule = f.rule;
      level = f.level;
      message = string_bytes f.message;
      name = string_bytes f.name;
      version = string_bytes f.version;
      spot = record { path = string_bytes f.path; line = f.line };
    } };
}

impl Reported {
    /// The finding of a package, or of none. Fails when out of memory.
    ///
    /// ```
    /// let reported = Reported::new(alloc, rule, Level::Error, message, Some(package), spot)?;
    /// ```
    pub fn new(
        alloc: Global,
        rule: Rule,
        level: Level,
        message: String,
        package: Option<&Package>,
        spot: Spot<'_>,
    ) -> Result<Reported, AllocError>
        ensures { IfOk result (λ reported. reported ≡ spec.reported_of rule level
            (string_bytes message) (option_map (λ p. p.now) «package».entry)
            (spot_of spot.entry)) }
    {
        Ok(Reported {
            rule,
            level,
            message,
            name: name_of(alloc, package)?,
            version: version_of(alloc, package)?,
            path: String::from_str(alloc, spot.path)?,
            line: spot.line,
        })
    }
}

// The name of a package, empty if there is none.
fn name_of(alloc: Global, package: Option<&Package>) -> Result<String, AllocError>
    ensures { IfOk result (λ name. string_bytes name
        ≡ name_or_empty (option_map (λ p. p.now) «package».entry)) }
{
    match package {
        Some(package) => String::from_str(alloc, package.name.as_str()),
        None => Ok(String::new(alloc)),
    }
}

// The version of a package, empty if there is none.
fn version_of(alloc: Global, package: Option<&Package>) -> Result<String, AllocError>
    ensures { IfOk result (λ version. string_bytes version
        ≡ version_or_empty (option_map (λ p. p.now) «package».entry)) }
{
    match package {
        Some(package) => package.version.to_string(alloc),
        None => Ok(String::new(alloc)),
    }
}
