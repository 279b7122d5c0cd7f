//! The lines of what stops a merge of lockfiles.

ghost use Rattle.std.specs.Prelude.{Some};
ghost use Rattle.std.specs.Fmt.{DisplaysOnOk};
ghost use Rattle.cargo_lock_merge.specs.Lines.{conflict_lines, format_text};
ghost use Rattle.cargo_lock_merge.specs.Lines.{metadata_conflict_lines};

use crate::conflict::Conflict;
use crate::lockfiles::{LockfileConflicts, MergeError};
use crate::metadata::MetadataConflict;
use crate::refused::{Refused, RoleText};
use cargo_lock::{MetadataKey, MetadataValue, ResolveVersion};
use printing::Quoted;
use std::collections::BTreeMap;
use std::fmt;

impl fmt::Display for MergeError<'_> {
    ghost use Rattle.std.specs.Prelude.{Some};
    ghost use Rattle.cargo_lock_merge.specs.Lines.{merge_error_text};

    ghost output = { λ error. Some (merge_error_text error) };

    fn fmt<W: fmt::Write>(&self, f: &mut fmt::Formatter<W>) -> fmt::Result {
        match self {
            MergeError::Memory => f.write_str("out of memory"),
            MergeError::Root(role) => {
                let role = RoleText(*role);
                write!(f, "{role}: a root apart from the packages")
            }
            MergeError::Refused(role, refusal) => {
                let refused = Refused(*role, refusal);
                write!(f, "{refused}")
            }
        }
    }
}

impl fmt::Display for LockfileConflicts<'_> {
    ghost use Rattle.std.specs.Prelude.{Some};
    ghost use Rattle.cargo_lock_merge.specs.Lines.{conflicts_text};

    ghost output = { λ conflicts. Some (conflicts_text conflicts) };

    fn fmt<W: fmt::Write>(&self, f: &mut fmt::Formatter<W>) -> fmt::Result {
        write_conflicts(&self.packages, f)?;
        write_metadata(&self.metadata, f)?;
        write_format(self.format, f)
    }
}

// The lines of the conflicts of packages.
fn write_conflicts<W: fmt::Write>(
    conflicts: &[Conflict<'_>],
    f: &mut fmt::Formatter<W>,
) -> fmt::Result
    ensures { DisplaysOnOk W.write_str_gives f.old result
        (Some (conflict_lines conflicts.now)) f.new }
{
    for conflict in conflicts {
        write!(f, "{conflict}\n")?;
    }
    Ok(())
}

// The lines of the conflicts about the metadata, in the order of the keys.
fn write_metadata<W: fmt::Write>(
    conflicts: &BTreeMap<MetadataKey, MetadataConflict>,
    f: &mut fmt::Formatter<W>,
) -> fmt::Result
    ensures { DisplaysOnOk W.write_str_gives f.old result
        (Some (metadata_conflict_lines conflicts.now.entries)) f.new }
{
    for (key, conflict) in conflicts {
        let line = MetadataLine { key, conflict };
        write!(f, "{line}\n")?;
    }
    Ok(())
}

// The line of a format that does not keep the merge.
fn write_format<W: fmt::Write>(
    format: Option<ResolveVersion>,
    f: &mut fmt::Formatter<W>,
) -> fmt::Result
    ensures { DisplaysOnOk W.write_str_gives f.old result (Some (format_text format)) f.new }
{
    match format {
        Some(version) => {
            let line = FormatLine(version);
            write!(f, "{line}\n")
        }
        None => Ok(()),
    }
}

// The line of a format that does not keep the merge.
#[derive(Clone, Copy)]
pub(crate) struct FormatLine(pub(crate) ResolveVersion);

impl fmt::Display for FormatLine {
    ghost use Rattle.std.specs.Prelude.{Some};
    ghost use Rattle.cargo_lock_merge.specs.Lines.{format_line};

    ghost output = { λ line. Some (format_line line.0) };

    fn fmt<W: fmt::Write>(&self, f: &mut fmt::Formatter<W>) -> fmt::Result {
        let FormatLine(version) = *self;
        let number = u32::from(version);
        write!(f, "conflict: format V{number} does not keep the merge")
    }
}

// The line of a conflict about the metadata.
#[derive(Clone, Copy)]
pub(crate) struct MetadataLine<'a> {
    pub(crate) key: &'a MetadataKey,
    pub(crate) conflict: &'a MetadataConflict,
}

impl fmt::Display for MetadataLine<'_> {
    ghost use Rattle.std.specs.Prelude.{Some};
    ghost use Rattle.cargo_lock_merge.specs.Lines.{metadata_line};

    ghost output = { λ line. Some (metadata_line line.key.now line.conflict.now) };

    fn fmt<W: fmt::Write>(&self, f: &mut fmt::Formatter<W>) -> fmt::Result {
        let MetadataLine { key, conflict } = *self;
        let key = Quoted(key);
        let base = OldText(&conflict.base);
        let ours = ValueText(&conflict.ours);
        let theirs = ValueText(&conflict.theirs);
        write!(
            f,
            "conflict: metadata `{key}`: {base}{ours} (ours), {theirs} (theirs)"
        )
    }
}

// The value of the base and an arrow, if there is one.
#[derive(Clone, Copy)]
struct OldText<'a>(&'a Option<MetadataValue>);

impl fmt::Display for OldText<'_> {
    ghost use Rattle.std.specs.Prelude.{Some};
    ghost use Rattle.cargo_lock_merge.specs.Lines.{old_text};

    ghost output = { λ shown. Some (old_text shown.0.now) };

    fn fmt<W: fmt::Write>(&self, f: &mut fmt::Formatter<W>) -> fmt::Result {
        let OldText(value) = *self;
        match value {
            Some(value) => {
                let value = Quoted(value);
                write!(f, "`{value}` -> ")
            }
            None => Ok(()),
        }
    }
}

// A value, or that there is none.
#[derive(Clone, Copy)]
struct ValueText<'a>(&'a Option<MetadataValue>);

impl fmt::Display for ValueText<'_> {
    ghost use Rattle.std.specs.Prelude.{Some};
    ghost use Rattle.cargo_lock_merge.specs.Lines.{metadata_value_text};

    ghost output = { λ shown. Some (metadata_value_text shown.0.now) };

    fn fmt<W: fmt::Write>(&self, f: &mut fmt::Formatter<W>) -> fmt::Result {
        let ValueText(value) = *self;
        match value {
            Some(value) => {
                let value = Quoted(value);
                write!(f, "`{value}`")
            }
            None => f.write_str("none"),
        }
    }
}
