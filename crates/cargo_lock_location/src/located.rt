//! What is found at a line, each as an item of a document of JSON.

ghost use Rattle.std.specs.Prelude.{◌≡◌, ◌∷◌, ℕ, IfOk, Option, codes, map};
ghost use Rattle.json.specs.Token.{key};
ghost use Rattle.json.specs.Tree.{json_tokens};
ghost use Rattle.printing.specs.Json.{Adds};
ghost use Rattle.cargo_lock_location.specs.Located.{line_or_null};

use crate::lines::PackageLines;
use printing::{JsonWriter, ToJson};
use std::alloc::{AllocError, Global};

/// What is found of a lockfile, perhaps at a line of its text, and has a value in JSON that says the
/// line.
pub trait Lined {
    ghost use Rattle.std.specs.Prelude.{◌≡◌, ℕ, Option};
    ghost use Rattle.json.specs.Json.{Json};
    ghost use Rattle.json.specs.Tree.{json_tokens};
    ghost use Rattle.printing.specs.Json.{Adds};
    ghost use Rattle.cargo_lock_location.specs.Lines.{LinesData};

    ghost line_in: { LinesData → Self → Option ℕ };

    ghost json_at: { Option ℕ → Self → Json };

    /// The number of the line, where it is known.
    fn line(&self, lines: &PackageLines<'_>) -> Option<usize>
        ensures { result ≡ line_in lines.now self.now };

    /// Writes the value with this line. Fails when out of memory.
    fn write_json_at(&self, line: Option<usize>, out: &mut JsonWriter) -> Result<(), AllocError>
        ensures { Adds result out.old out.new (json_tokens (json_at line self.now)) };
}

/// What is found, and the number of its line, where it is known.
#[derive(Clone, Copy)]
pub struct Located<'d, T> {
    /// What is found.
    pub found: &'d T,

    /// The number of its line.
    pub line: Option<usize>,
}

impl<T: Lined> ToJson for Located<'_, T> {
    ghost json = { λ located. T.json_at located.line located.found.now };

    fn write_json(&self, out: &mut JsonWriter) -> Result<(), AllocError> {
        let found = self.found;
        found.write_json_at(self.line, out)
    }
}

/// What is found, each with its line, in the same order. Fails when out of memory.
///
/// ```
/// let located = locate(rt.alloc(), findings, lines)?;
/// ```
pub fn locate<'d, T: Lined>(
    alloc: Global,
    all: &'d [T],
    lines: &PackageLines<'_>,
) -> Result<Vec<Located<'d, T>>, AllocError>
    ensures { IfOk result (λ located.
        map {B = T × Option ℕ} (λ l. (l.found.now, l.line)) located.items
        ≡ map (λ found. (found, T.line_in lines.now found)) all.now) }
{
    let mut located = Vec::with_capacity(alloc, all.len())?;
    for found in all {
        let line = found.line(lines);
        located.push(Located { found, line })?;
    }
    Ok(located)
}

/// Writes the member `line`, whose value is the number of a line, or null. Fails when out of memory.
///
/// ```
/// put_line(out, line)?;
/// ```
pub fn put_line(out: &mut JsonWriter, line: Option<usize>) -> Result<(), AllocError>
    ensures { Adds result out.old out.new
        (key (codes "line") ∷ json_tokens (line_or_null line)) }
{
    match line {
        Some(number) => out.number_member("line", number as u64),
        None => out.null_member("line"),
    }
}
