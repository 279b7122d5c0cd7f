//! Changes in JSON.

ghost use Rattle.std.specs.Prelude.{◌≡◌, ◌∷◌, [], codes, option_map};
ghost use Rattle.json.specs.Token.{key};
ghost use Rattle.json.specs.Tree.{json_tokens};
ghost use Rattle.cargo_lock_diff.specs.Change.{change_of};
ghost use Rattle.cargo_lock_diff.specs.Difference.{dependencies_at};
ghost use Rattle.cargo_lock_diff.specs.Document.{added_of, change_kind_text};
ghost use Rattle.cargo_lock_diff.specs.Document.{dependencies_json, new_of, old_of, removed_of};
ghost use Rattle.cargo_lock_diff.specs.Document.{update_kind_text};
ghost use Rattle.cargo_lock_diff.specs.Document as spec;
ghost use Rattle.printing.specs.Json.{Adds};

use crate::change::Change;
use crate::parts::is_downgrade;
use crate::summary::Kind;
use cargo_lock_display::{put_dependency, put_package_or_null};
use cargo_lock_location::{Lined, PackageLines, put_line};
use cargo_lock_parts::dependency::Dependency;
use cargo_lock_parts::package::Package;
use printing::JsonWriter;
use std::alloc::AllocError;

impl Lined for Change<'_> {
    ghost use Rattle.cargo_lock_diff.specs.Change.{change_of};
    ghost use Rattle.cargo_lock_diff.specs.Document.{change_json, change_line_in};

    ghost line_in = { λ lines change. change_line_in lines (change_of change) };

    ghost json_at = { λ line change. change_json line (change_of change) };

    fn line(&self, lines: &PackageLines<'_>) -> Option<usize> {
        match new(self) {
            Some(package) => lines.of(package),
            None => None,
        }
    }

    fn write_json_at(&self, line: Option<usize>, out: &mut JsonWriter) -> Result<(), AllocError> {
        out.begin_object()?;
        out.string_member("kind", kind(self))?;
        out.boolean_member("alarm", is_alarm(self))?;
        put_line(out, line)?;
        put_package_or_null(out, "old", old(self))?;
        put_package_or_null(out, "new", new(self))?;
        put_removed(out, self)?;
        put_added(out, self)?;
        out.end_object()
    }
}

// The kind of a change, as the document has it.
fn kind(change: &Change<'_>) -> &'static str
    ensures { result.now ≡ change_kind_text (change_of change.now) }
{
    match change {
        Change::Alarm(_, _) | Change::Checksum(_, _) => "checksum",
        Change::NewSource(_, _) | Change::Moved(_, _) => "source",
        Change::Replaced(_, _) => "replacement",
        Change::NewSourceUpdate(old, new) | Change::Updated(old, new) => update_kind(old, new),
        Change::Removed(_) => "removed",
        Change::Added(_) => "added",
        Change::OtherDependencies(_, _, _, _) => "dependencies",
    }
}

// The kind of another version.
fn update_kind(old: &Package, new: &Package) -> &'static str
    ensures { result.now ≡ update_kind_text old.now new.now }
{
    if is_downgrade(old, new) {
        "downgraded"
    } else {
        "updated"
    }
}

fn is_alarm(change: &Change<'_>) -> bool
    ensures { result ≡ spec.is_alarm_change (change_of change.now) }
{
    Kind::Alarm.is_of(change)
}

fn old<'a>(change: &Change<'a>) -> Option<&'a Package>
    ensures { option_map (λ p. p.now) result ≡ old_of (change_of change.now) }
{
    match *change {
        Change::Alarm(old, _)
        | Change::NewSource(old, _)
        | Change::NewSourceUpdate(old, _)
        | Change::Moved(old, _)
        | Change::Checksum(old, _)
        | Change::Replaced(old, _)
        | Change::Updated(old, _)
        | Change::Removed(old)
        | Change::OtherDependencies(old, _, _, _) => Some(old),
        Change::Added(_) => None,
    }
}

fn new<'a>(change: &Change<'a>) -> Option<&'a Package>
    ensures { option_map (λ p. p.now) result ≡ new_of (change_of change.now) }
{
    match *change {
        Change::Alarm(_, new)
        | Change::NewSource(_, new)
        | Change::NewSourceUpdate(_, new)
        | Change::Moved(_, new)
        | Change::Checksum(_, new)
        | Change::Replaced(_, new)
        | Change::Updated(_, new)
        | Change::Added(new)
        | Change::OtherDependencies(_, new, _, _) => Some(new),
        Change::Removed(_) => None,
    }
}

// Writes the member with the dependencies that only the old package has.
fn put_removed(out: &mut JsonWriter, change: &Change<'_>) -> Result<(), AllocError>
    ensures { Adds result out.old out.new (key (codes "removed")
        ∷ json_tokens (dependencies_json (removed_of (change_of change.now)))) }
{
    out.key("removed")?;
    match change {
        Change::OtherDependencies(_, _, gone, _) => put_dependencies(out, gone),
        _ => put_none(out),
    }
}

// Writes the member with the dependencies that only the new package has.
fn put_added(out: &mut JsonWriter, change: &Change<'_>) -> Result<(), AllocError>
    ensures { Adds result out.old out.new (key (codes "added")
        ∷ json_tokens (dependencies_json (added_of (change_of change.now)))) }
{
    out.key("added")?;
    match change {
        Change::OtherDependencies(_, _, _, came) => put_dependencies(out, came),
        _ => put_none(out),
    }
}

fn put_none(out: &mut JsonWriter) -> Result<(), AllocError>
    ensures { Adds result out.old out.new (json_tokens (dependencies_json [])) }
{
    out.begin_array()?;
    out.end_array()
}

// Writes the array of the dependencies.
fn put_dependencies(out: &mut JsonWriter, dependencies: &[&Dependency]) -> Result<(), AllocError>
    ensures { Adds result out.old out.new (json_tokens
        (dependencies_json (dependencies_at dependencies.now))) }
{
    out.begin_array()?;
    for dependency in dependencies {
        put_dependency(out, dependency)?;
    }
    out.end_array()
}
