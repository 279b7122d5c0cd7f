//! How many changes of each kind a difference has.

ghost use Rattle.std.specs.Prelude.{◌≡◌, count_by, false, map};
ghost use Rattle.cargo_lock_diff.specs.Change.{change_of};
ghost use Rattle.cargo_lock_diff.specs.Summary as spec;

use crate::change::Change;
use crate::parts::is_downgrade;
use std::fmt;

/// The kind of a change.
#[derive(Debug, Clone, Copy, PartialEq, Eq)]
pub enum Kind {
    /// `!`: an alarm, of a checksum or of a new source.
    Alarm,

    /// `>`: another source.
    Source,

    /// `?`: a checksum that only one package of a pair has.
    Checksum,

    /// Those of `Checksum` whose new package has none.
    LostChecksum,

    /// `@`: another replacement.
    Replacement,

    /// `~`: another version that is not less than the old one.
    Updated,

    /// `~` with `(downgrade)`: a version that is less than the old one.
    Downgraded,

    /// `-`: a package that was removed.
    Removed,

    /// `+`: a package that was added.
    Added,

    /// `=`: other dependencies.
    Dependencies,
}

impl Kind {
    /// Whether a change is of this kind.
    pub fn is_of(self, change: &Change<'_>) -> bool
        ensures { result ≡ spec.is_of_kind self (change_of change.now) }
    {
        match self {
            Kind::Alarm => is_alarm(change),
            Kind::Source => matches!(change, Change::Moved(_, _)),
            Kind::Checksum => matches!(change, Change::Checksum(_, _)),
            Kind::LostChecksum => is_lost(change),
            Kind::Replacement => matches!(change, Change::Replaced(_, _)),
            Kind::Updated => is_update(change, false),
            Kind::Downgraded => is_update(change, true),
            Kind::Removed => matches!(change, Change::Removed(_)),
            Kind::Added => matches!(change, Change::Added(_)),
            Kind::Dependencies => matches!(change, Change::OtherDependencies(_, _, _, _)),
        }
    }
}

// Whether a change is an alarm.
fn is_alarm(change: &Change<'_>) -> bool
    ensures { result ≡ spec.is_of_kind Kind.Alarm (change_of change.now) }
{
    matches!(
        change,
        Change::Alarm(_, _) | Change::NewSource(_, _) | Change::NewSourceUpdate(_, _)
    )
}

// Whether a change is a checksum that is gone.
fn is_lost(change: &Change<'_>) -> bool
    ensures { result ≡ spec.is_lost (change_of change.now) }
{
    match change {
        Change::Checksum(old, _) => old.checksum.is_some(),
        _ => false,
    }
}

// Whether a change is another version: one that is less than the old one, or one that is not.
fn is_update(change: &Change<'_>, downgrade: bool) -> bool
    ensures { result ≡ spec.is_update downgrade (change_of change.now) }
{
    match change {
        Change::Updated(old, new) => {
            if downgrade {
                is_downgrade(old, new)
            } else {
                !is_downgrade(old, new)
            }
        }
        _ => false,
    }
}

/// How many changes of each kind a difference has. `Display` writes it as the last line without its
/// newline: `2 updated, 1 downgraded, 1 removed, 1 added, 1 moved, 1 new checksum, 1 lost checksum,
/// 1 replacement, 1 with other dependencies, 1 alarm`. Counts of zero are left out, and the plural
/// nouns are `new checksums`, `lost checksums`, `replacements` and `alarms`.
#[derive(Debug, Clone, Copy, PartialEq, Eq)]
pub struct Summary {
    /// How many alarms.
    pub alarms: usize,

    /// How many pairs of the same version from another source.
    pub sources: usize,

    /// How many pairs of the same version of which only one package has a checksum.
    pub checksums: usize,

    /// How many of these have lost it.
    pub lost_checksums: usize,

    /// How many pairs of the same version with another replacement.
    pub replacements: usize,

    /// How many pairs with another version that is not less than the old one.
    pub updated: usize,

    /// How many pairs with a version that is less than the old one.
    pub downgraded: usize,

    /// How many packages that were removed.
    pub removed: usize,

    /// How many packages that were added.
    pub added: usize,

    /// How many pairs with other dependencies.
    pub dependencies: usize,
}

impl Summary {
    /// The counts of these changes, by kind.
    ///
    /// ```
    /// let changes = difference.all_changes(rt.alloc(), false)?;
    /// let summary = Summary::of(changes.as_slice());
    /// println!(rt; "{summary}")?;
    /// ```
    pub fn of(changes: &[Change<'_>]) -> Summary
        ensures { result ≡ spec.summary_of (map change_of changes.now) }
    {
        Summary {
            alarms: count(changes, Kind::Alarm),
            sources: count(changes, Kind::Source),
            checksums: count(changes, Kind::Checksum),
            lost_checksums: count(changes, Kind::LostChecksum),
            replacements: count(changes, Kind::Replacement),
            updated: count(changes, Kind::Updated),
            downgraded: count(changes, Kind::Downgraded),
            removed: count(changes, Kind::Removed),
            added: count(changes, Kind::Added),
            dependencies: count(changes, Kind::Dependencies),
        }
    }
}

// How many changes are of a kind.
fn count(changes: &[Change<'_>], kind: Kind) -> usize
    ensures { result ≡ count_by (spec.is_of_kind kind) (map change_of changes.now) }
{
    let mut number = 0;
    for change in changes {
        if kind.is_of(change) {
            number += 1;
        }
    }
    number
}

impl fmt::Display for Summary {
    ghost use Rattle.std.specs.Prelude.{Some};
    ghost use Rattle.cargo_lock_diff.specs.Summary.{summary_text};

    ghost output = { λ summary. Some (summary_text summary) };

    fn fmt<W: fmt::Write>(&self, f: &mut fmt::Formatter<W>) -> fmt::Result {
        let updated = Counted::first(self.updated, "updated");
        let downgraded = updated.then(self.downgraded, "downgraded", "downgraded");
        let removed = downgraded.then(self.removed, "removed", "removed");
        let added = removed.then(self.added, "added", "added");
        let sources = added.then(self.sources, "moved", "moved");
        let new_checksums = self.checksums.saturating_sub(self.lost_checksums);
        let checksums = sources.then(new_checksums, "new checksum", "new checksums");
        let lost = checksums.then(self.lost_checksums, "lost checksum", "lost checksums");
        let replacements = lost.then(self.replacements, "replacement", "replacements");
        let words = "with other dependencies";
        let dependencies = replacements.then(self.dependencies, words, words);
        let alarms = dependencies.then(self.alarms, "alarm", "alarms");
        write!(
            f,
            "{updated}{downgraded}{removed}{added}{sources}{checksums}{lost}{replacements}{dependencies}{alarms}"
        )
    }
}

// A count with its noun in the singular or the plural, and whether there is a count before it.
#[derive(Clone, Copy)]
struct Counted<'a> {
    behind: bool,
    number: usize,
    one: &'a str,
    more: &'a str,
}

impl<'a> Counted<'a> {
    // The first count.
    fn first(number: usize, word: &'a str) -> Counted<'a>
        ensures { result ≡ record {
          behind = false;
          number = number;
          one = word.entry;
          more = word.entry;
        } }
    {
        Counted {
            behind: false,
            number,
            one: word,
            more: word,
        }
    }

    // The count after this one.
    fn then(self, number: usize, one: &'a str, more: &'a str) -> Counted<'a>
        ensures { result ≡ record {
          behind = spec.is_behind self.entry.behind self.entry.number;
          number = number;
          one = one.entry;
          more = more.entry;
        } }
    {
        Counted {
            behind: self.behind || self.number != 0,
            number,
            one,
            more,
        }
    }
}

impl fmt::Display for Counted<'_> {
    ghost use Rattle.std.specs.Prelude.{Some};
    ghost use Rattle.cargo_lock_diff.specs.Summary.{counted_behind};

    ghost output = { λ c. Some (counted_behind c.behind c.number c.one.now c.more.now) };

    fn fmt<W: fmt::Write>(&self, f: &mut fmt::Formatter<W>) -> fmt::Result {
        if self.number == 0 {
            return Ok(());
        }
        let comma = if self.behind { ", " } else { "" };
        let number = self.number;
        let word = if number == 1 { self.one } else { self.more };
        write!(f, "{comma}{number} {word}")
    }
}
