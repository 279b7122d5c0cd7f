//! Changes in lines.

use crate::change::Change;
use crate::commits::Commits;
use crate::parts::{ChecksumMark, Checksums, Moved, Signed, Updated};
use cargo_lock_display::{PackageText, ReplacementText};
use std::fmt;

/// Displays a change as its line, without a newline, with commits short or in full.
///
/// ```
/// let line = Line(change, Commits::Full);
/// println!(rt; "{line}")?;
/// ```
#[derive(Clone, Copy)]
pub struct Line<'c, 'a>(pub &'c Change<'a>, pub Commits);

impl fmt::Display for Line<'_, '_> {
    ghost use Rattle.std.specs.Prelude.{Some};
    ghost use Rattle.cargo_lock_diff.specs.Change.{change_of, change_line_by};

    ghost output = { λ line. Some (change_line_by line.1 (change_of line.0.now)) };

    fn fmt<W: fmt::Write>(&self, f: &mut fmt::Formatter<W>) -> fmt::Result {
        let Line(change, commits) = *self;
        match change {
            Change::Alarm(old, new) => {
                let package = PackageText(new);
                let checksums = Checksums(old, new);
                write!(f, "! {package}{checksums}")
            }
            Change::NewSource(old, new) => {
                let moved = Moved(commits, old, new);
                write!(f, "! {moved}")
            }
            Change::NewSourceUpdate(old, new) => {
                let updated = Updated(commits, old, new);
                write!(f, "! {updated}")
            }
            Change::Moved(old, new) => {
                let moved = Moved(commits, old, new);
                write!(f, "> {moved}")
            }
            Change::Checksum(old, new) => {
                let package = PackageText(new);
                let checksums = Checksums(old, new);
                write!(f, "? {package}{checksums}")
            }
            Change::Replaced(old, new) => {
                let package = PackageText(new);
                let from = ReplacementText(old);
                let to = ReplacementText(new);
                write!(f, "@ {package}: replacement {from} -> {to}")
            }
            Change::Updated(old, new) => {
                let updated = Updated(commits, old, new);
                write!(f, "~ {updated}")
            }
            Change::Removed(old) => {
                let package = PackageText(old);
                write!(f, "- {package}")
            }
            Change::Added(new) => {
                let package = PackageText(new);
                let mark = ChecksumMark(new);
                write!(f, "+ {package}{mark}")
            }
            Change::OtherDependencies(_, new, gone, came) => {
                let package = PackageText(new);
                let gone = Signed(true, gone);
                let came = Signed(false, came);
                write!(f, "= {package}:{gone}{came}")
            }
        }
    }
}
