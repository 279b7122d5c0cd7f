//! What is found of packages by advisories, each as a line.

ghost use Rattle.std.specs.Prelude.{◌≡◌, Some, map, string_bytes};
ghost use Rattle.std.specs.Fmt.{DisplaysOnOk};
ghost use Rattle.cargo_lock_audit.specs.Lines.{mark_text, or_texts, title_char, title_text};

use crate::advisory::Advisory;
use crate::requirement::Requirement;
use cargo_lock_display::PackageText;
use cargo_lock_parts::package::Package;
use printing::{Quoted, Shown};
use std::fmt;

/// A package that an advisory concerns. `Display` writes a line without a newline:
/// `! NAME VERSION: ID: TITLE; patched REQUIREMENT or REQUIREMENT`, or `; no patched version`, for
/// a vulnerability, and `? NAME VERSION: ID: KIND: TITLE; patched REQUIREMENT` for an informational
/// advisory, with `!` if its kind is denied. What an older lockfile has too begins with `=` instead.
/// Texts of a stranger are shown as the crate `printing` does; in a title the backquote is kept.
#[derive(Clone, Copy)]
pub struct Finding<'p, 'a> {
    /// The package.
    pub package: &'p Package,

    /// The advisory.
    pub advisory: &'a Advisory,

    /// Whether the package is denied: the advisory is a vulnerability, or of a kind that is denied,
    /// and no older lockfile has it too.
    pub is_denied: bool,

    /// Whether it is brought since an older lockfile: the advisory concerns no package of that one.
    /// `None` if there is no older lockfile.
    pub brought: Option<bool>,
}

impl fmt::Display for Finding<'_, '_> {
    ghost use Rattle.std.specs.Prelude.{Some};
    ghost use Rattle.cargo_lock_audit.specs.Findings.{advisory_finding_of};
    ghost use Rattle.cargo_lock_audit.specs.Lines.{advisory_finding_line};

    ghost output = { λ finding. Some (advisory_finding_line (advisory_finding_of finding)) };

    fn fmt<W: fmt::Write>(&self, f: &mut fmt::Formatter<W>) -> fmt::Result {
        let mark = mark_of(self.brought, self.is_denied);
        let package = PackageText(self.package);
        let advisory = AdvisoryText(self.advisory);
        write!(f, "{mark} {package}: {advisory}")
    }
}

// `=`, `!` or `?`.
fn mark_of(brought: Option<bool>, is_denied: bool) -> &'static str
    ensures { result.now ≡ mark_text brought is_denied }
{
    match brought {
        Some(false) => "=",
        _ if is_denied => "!",
        _ => "?",
    }
}

// The id of an advisory, and what it says.
#[derive(Clone, Copy)]
struct AdvisoryText<'a>(&'a Advisory);

impl fmt::Display for AdvisoryText<'_> {
    ghost use Rattle.std.specs.Prelude.{Some};
    ghost use Rattle.cargo_lock_audit.specs.Lines.{advisory_text};

    ghost output = { λ shown. Some (advisory_text shown.0.now) };

    fn fmt<W: fmt::Write>(&self, f: &mut fmt::Formatter<W>) -> fmt::Result {
        let AdvisoryText(advisory) = *self;
        let id = Shown(&advisory.id);
        let title = TitleText(&advisory.title);
        let patched = PatchedText(&advisory.patched);
        match &advisory.informational {
            Some(kind) => {
                let kind = Shown(kind);
                write!(f, "{id}: {kind}: {title}; {patched}")
            }
            None => write!(f, "{id}: {title}; {patched}"),
        }
    }
}

// A title. It is shown as between backquotes, but that backquotes are kept.
#[derive(Clone, Copy)]
struct TitleText<'a>(&'a str);

impl fmt::Display for TitleText<'_> {
    ghost use Rattle.std.specs.Prelude.{Some};
    ghost use Rattle.cargo_lock_audit.specs.Lines.{title_text};

    ghost output = { λ shown. Some (title_text shown.0.now) };

    fn fmt<W: fmt::Write>(&self, f: &mut fmt::Formatter<W>) -> fmt::Result {
        let TitleText(title) = *self;
        write_title(title, f)
    }
}

fn write_title<W: fmt::Write>(title: &str, f: &mut fmt::Formatter<W>) -> fmt::Result
    ensures { DisplaysOnOk W.write_str_gives f.old result (Some (title_text title.now)) f.new }
{
    for c in title.chars() {
        write_title_char(c, f)?;
    }
    Ok(())
}

fn write_title_char<W: fmt::Write>(c: char, f: &mut fmt::Formatter<W>) -> fmt::Result
    ensures { DisplaysOnOk W.write_str_gives f.old result (Some (title_char c)) f.new }
{
    if c == '`' {
        return f.write_str("`");
    }
    let c = Quoted(c);
    write!(f, "{c}")
}

// Which versions are patched.
#[derive(Clone, Copy)]
struct PatchedText<'a>(&'a Vec<Requirement>);

impl fmt::Display for PatchedText<'_> {
    ghost use Rattle.std.specs.Prelude.{Some};
    ghost use Rattle.cargo_lock_audit.specs.Lines.{patched_text};

    ghost output = { λ shown. Some (patched_text shown.0.now.items) };

    fn fmt<W: fmt::Write>(&self, f: &mut fmt::Formatter<W>) -> fmt::Result {
        let PatchedText(patched) = *self;
        match patched.as_slice() {
            [] => f.write_str("no patched version"),
            [first, rest @ ..] => {
                let first = Quoted(&first.text);
                write!(f, "patched {first}")?;
                write_others(rest, f)
            }
        }
    }
}

// Writes each requirement after ` or `.
fn write_others<W: fmt::Write>(
    requirements: &[Requirement],
    f: &mut fmt::Formatter<W>,
) -> fmt::Result
    ensures { DisplaysOnOk W.write_str_gives f.old result (Some (or_texts requirements.now)) f.new }
{
    for requirement in requirements {
        let requirement = Quoted(&requirement.text);
        write!(f, " or {requirement}")?;
    }
    Ok(())
}
