//! What is said of the licence of a package.

ghost use Rattle.std.specs.Prelude.{◌≡◌, ◌↔◌, IfOk, IsTrue, Some, map, string_bytes};
ghost use Rattle.std.specs.Fmt.{DisplaysOnOk};
ghost use Rattle.std.specs.List.{list_all};
ghost use Rattle.cargo_lock_licenses.specs.Grammar.{ReadsAs, Tree};
ghost use Rattle.cargo_lock_licenses.specs.Lines.{only_file_line, plain_line};
ghost use Rattle.cargo_lock_licenses.specs.Reading.{tokens_of};
ghost use Rattle.cargo_lock_licenses.specs.Subjects.{is_same, license_subject_of, manifest_of};
ghost use Rattle.cargo_lock_licenses.specs.Verdicts.{IsVerdict, IsVerdictOf, IsVerdictOn};
ghost use Rattle.cargo_lock_licenses.specs.Verdicts.{Permits, is_finding, verdict_of};

use crate::expression::Expression;
use crate::subject::{Manifest, Subject};
use cargo_lock_display::PackageText;
use cargo_lock_parts::package::Package;
use printing::Quoted;
use std::alloc::{AllocError, Global};
use std::fmt;

/// What is said of the licence of a package. `Display` writes a line without a newline:
/// `NAME VERSION SRC` as in a difference, where a package of crates.io has no `SRC`; texts of a
/// stranger are shown as the crate `shown` does.
#[derive(Clone, Copy)]
pub enum Verdict<'p, 'a> {
    /// The expression is allowed, or nothing says what is: `NAME VERSION SRC: EXPRESSION`.
    Allowed(&'p Package, &'a String),

    /// The expression is not allowed: `! NAME VERSION SRC: EXPRESSION is not allowed`.
    NotAllowed(&'p Package, &'a String),

    /// The text is no expression: ``! NAME VERSION SRC: `TEXT` is no expression``.
    NoExpression(&'p Package, &'a String),

    /// There is a file in place of an expression: ``! NAME VERSION SRC: only a file: `PATH` ``.
    OnlyFile(&'p Package, &'a String),

    /// The manifest has neither: `! NAME VERSION SRC: no licence`.
    NoLicense(&'p Package),

    /// No manifest was found: `! NAME VERSION SRC: no manifest`.
    NoManifest(&'p Package),

    /// Two manifests do not say the same: `! NAME VERSION SRC: manifests differ`.
    Differ(&'p Package),
}

impl<'p, 'a> Verdict<'p, 'a> {
    /// What is said of the licence of a package, where these terms are allowed. Without a term each
    /// expression is allowed. Fails when out of memory.
    ///
    /// ```
    /// let verdict = Verdict::of(alloc, &subject, &allowed)?;
    /// ```
    pub fn of(
        alloc: Global,
        subject: &'a Subject<'p>,
        allowed: &[String],
    ) -> Result<Verdict<'p, 'a>, AllocError>
        ensures { IfOk result (λ found. IsVerdict (map string_bytes allowed.now)
            (license_subject_of subject.now) (verdict_of found)) }
    {
        let package = subject.package;
        let Some((first, others)) = subject.manifests.split_first() else {
            return Ok(Verdict::NoManifest(package));
        };
        if !are_same(first, others) {
            return Ok(Verdict::Differ(package));
        }
        verdict_of_manifest(alloc, package, first, allowed)
    }

    /// Whether it is a finding: all are but `Allowed`.
    pub fn is_finding(&self) -> bool
        ensures { result ≡ is_finding (verdict_of self.now) }
    {
        !matches!(self, Verdict::Allowed(_, _))
    }
}

// Whether the others say the same as the first.
pub(crate) fn are_same(first: &Manifest, others: &[Manifest]) -> bool
    ensures { result ≡ list_all (λ other. is_same (manifest_of first.now) (manifest_of other))
        others.now }
{
    others.iter().all(|other| first.is_same(other))
}

// What is said of the licence of a package whose manifests say this.
fn verdict_of_manifest<'p, 'a>(
    alloc: Global,
    package: &'p Package,
    manifest: &'a Manifest,
    allowed: &[String],
) -> Result<Verdict<'p, 'a>, AllocError>
    ensures { IfOk result (λ found. IsVerdictOf (map string_bytes allowed.now) «package».now
        (manifest_of manifest.now).license (manifest_of manifest.now).file (verdict_of found)) }
{
    match (&manifest.license, &manifest.license_file) {
        (Some(text), _) => verdict_on(alloc, package, text, allowed),
        (None, Some(path)) => Ok(Verdict::OnlyFile(package, path)),
        (None, None) => Ok(Verdict::NoLicense(package)),
    }
}

// What is said of the text that is to be an expression.
pub(crate) fn verdict_on<'p, 'a>(
    alloc: Global,
    package: &'p Package,
    text: &'a String,
    allowed: &[String],
) -> Result<Verdict<'p, 'a>, AllocError>
    ensures { IfOk result (λ found. IsVerdictOn (map string_bytes allowed.now) «package».now
        (string_bytes text.now) (verdict_of found)) }
{
    match Expression::parse(alloc, text)? {
        None => Ok(Verdict::NoExpression(package, text)),
        Some(expression) => {
            if is_permitted(alloc, &expression, allowed)? {
                Ok(Verdict::Allowed(package, text))
            } else {
                Ok(Verdict::NotAllowed(package, text))
            }
        }
    }
}

// Whether the expression is allowed, which each one is without a term.
fn is_permitted(
    alloc: Global,
    expression: &Expression,
    allowed: &[String],
) -> Result<bool, AllocError>
    ensures { IfOk result (λ is. (e : Tree) → ReadsAs (tokens_of expression.now) e
        → IsTrue is ↔ Permits (map string_bytes allowed.now) e) }
{
    if allowed.is_empty() {
        return Ok(true);
    }
    expression.is_allowed(alloc, allowed)
}

impl fmt::Display for Verdict<'_, '_> {
    ghost use Rattle.std.specs.Prelude.{Some};
    ghost use Rattle.cargo_lock_licenses.specs.Lines.{verdict_line};
    ghost use Rattle.cargo_lock_licenses.specs.Verdicts.{verdict_of};

    ghost output = { λ verdict. Some (verdict_line (verdict_of verdict)) };

    fn fmt<W: fmt::Write>(&self, f: &mut fmt::Formatter<W>) -> fmt::Result {
        match *self {
            Verdict::Allowed(package, text) => {
                let package = PackageText(package);
                let text = Quoted(text);
                write!(f, "{package}: {text}")
            }
            Verdict::NotAllowed(package, text) => {
                let package = PackageText(package);
                let text = Quoted(text);
                write!(f, "! {package}: {text} is not allowed")
            }
            Verdict::NoExpression(package, text) => {
                let package = PackageText(package);
                let text = Quoted(text);
                write!(f, "! {package}: `{text}` is no expression")
            }
            Verdict::OnlyFile(package, path) => write_only_file(package, path, f),
            Verdict::NoLicense(package) => write_finding(package, "no licence", f),
            Verdict::NoManifest(package) => write_finding(package, "no manifest", f),
            Verdict::Differ(package) => write_finding(package, "manifests differ", f),
        }
    }
}

fn write_only_file<W: fmt::Write>(
    package: &Package,
    path: &String,
    f: &mut fmt::Formatter<W>,
) -> fmt::Result
    ensures { DisplaysOnOk W.write_str_gives f.old result
        (Some (only_file_line «package».now (string_bytes path.now))) f.new }
{
    let package = PackageText(package);
    let path = Quoted(path);
    write!(f, "! {package}: only a file: `{path}`")
}

fn write_finding<W: fmt::Write>(
    package: &Package,
    what: &str,
    f: &mut fmt::Formatter<W>,
) -> fmt::Result
    ensures { DisplaysOnOk W.write_str_gives f.old result
        (Some (plain_line «package».now what.now)) f.new }
{
    let package = PackageText(package);
    write!(f, "! {package}: {what}")
}
