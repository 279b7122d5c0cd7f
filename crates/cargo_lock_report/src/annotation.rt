//! Findings as annotations of GitHub.

ghost use Rattle.std.specs.Prelude.{Some};
ghost use Rattle.std.specs.Fmt.{DisplaysOnOk};
ghost use Rattle.cargo_lock_report.specs.Annotations.{annotations_text};

use crate::escape::{Escape, Escaped};
use crate::reported::Reported;
use std::fmt;

/// Findings as annotations of GitHub. `Display` writes a line for each one, in their order, with its
/// newline: `::error file=PATH,line=N::MESSAGE`, and `::warning` for one that does not count. What the
/// runner of GitHub Actions would take for the end of a line, of a property or of the command is
/// escaped by its rules.
///
/// ```
/// let annotations = Annotations(findings);
/// print!(rt; "{annotations}")?;
/// ```
#[derive(Clone, Copy)]
pub struct Annotations<'a>(pub &'a [Reported]);

impl fmt::Display for Annotations<'_> {
    ghost use Rattle.std.specs.Prelude.{Some};
    ghost use Rattle.cargo_lock_report.specs.Annotations.{annotations_text};

    ghost output = { λ shown. Some (annotations_text shown.0.now) };

    fn fmt<W: fmt::Write>(&self, f: &mut fmt::Formatter<W>) -> fmt::Result {
        let Annotations(findings) = *self;
        write_annotations(findings, f)
    }
}

// Writes the annotation of each finding.
fn write_annotations<W: fmt::Write>(findings: &[Reported], f: &mut fmt::Formatter<W>) -> fmt::Result
    ensures { DisplaysOnOk W.write_str_gives f.old result
        (Some (annotations_text findings.now)) f.new }
{
    for finding in findings {
        let annotation = Annotation(finding);
        write!(f, "{annotation}\n")?;
    }
    Ok(())
}

// The annotation of a finding.
#[derive(Clone, Copy)]
struct Annotation<'a>(&'a Reported);

impl fmt::Display for Annotation<'_> {
    ghost use Rattle.std.specs.Prelude.{Some};
    ghost use Rattle.cargo_lock_report.specs.Annotations.{annotation_line};

    ghost output = { λ shown. Some (annotation_line shown.0.now) };

    fn fmt<W: fmt::Write>(&self, f: &mut fmt::Formatter<W>) -> fmt::Result {
        let Annotation(finding) = *self;
        let word = finding.level.word();
        let path = Escaped(Escape::Property, &finding.path);
        let line = LineProperty(finding.line);
        let message = Escaped(Escape::Message, &finding.message);
        write!(f, "::{word} file={path}{line}::{message}")
    }
}

// The property with a line behind others, if it is known.
#[derive(Clone, Copy)]
struct LineProperty(Option<usize>);

impl fmt::Display for LineProperty {
    ghost use Rattle.std.specs.Prelude.{Some};
    ghost use Rattle.cargo_lock_report.specs.Annotations.{line_property};

    ghost output = { λ shown. Some (line_property shown.0) };

    fn fmt<W: fmt::Write>(&self, f: &mut fmt::Formatter<W>) -> fmt::Result {
        match self.0 {
            Some(number) => write!(f, ",line={number}"),
            None => Ok(()),
        }
    }
}
