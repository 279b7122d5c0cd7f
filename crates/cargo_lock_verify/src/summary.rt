//! The last line of a report: how many packages are in each class.

ghost use Rattle.std.specs.Prelude.{◌≡◌};

use crate::class::Counts;
use std::fmt;

// The last line of a report on archives, with how many are passed over.
#[derive(Clone, Copy)]
pub(crate) struct ArchiveSummary(pub(crate) Counts, pub(crate) usize);

impl fmt::Display for ArchiveSummary {
    ghost use Rattle.std.specs.Prelude.{Some};
    ghost use Rattle.cargo_lock_verify.specs.Summary.{archive_summary};

    ghost output = { λ summary. Some (archive_summary summary.0 summary.1) };

    fn fmt<W: fmt::Write>(&self, f: &mut fmt::Formatter<W>) -> fmt::Result {
        let ArchiveSummary(counts, others) = *self;
        let matches = Amount::of(counts.matches, "archive matches", "archives match");
        let changed = Behind::of(counts.changed, "does not", "do not");
        let missing = Behind::of(
            counts.missing,
            "package has no archive",
            "packages have no archive",
        );
        let without_checksum = Behind::of(
            counts.without_checksum,
            "package of a registry has no checksum",
            "packages of a registry have no checksum",
        );
        let not_compared = Behind::of(
            counts.not_compared,
            "package has no registry",
            "packages have no registry",
        );
        let others = Behind::of(
            others,
            "archive of another registry",
            "archives of other registries",
        );
        write!(
            f,
            "{matches}{changed}{missing}{without_checksum}{not_compared}{others}"
        )
    }
}

// The last line of a report on folders.
#[derive(Clone, Copy)]
pub(crate) struct FolderSummary(pub(crate) Counts);

impl fmt::Display for FolderSummary {
    ghost use Rattle.std.specs.Prelude.{Some};
    ghost use Rattle.cargo_lock_verify.specs.Summary.{folder_summary};

    ghost output = { λ summary. Some (folder_summary summary.0) };

    fn fmt<W: fmt::Write>(&self, f: &mut fmt::Formatter<W>) -> fmt::Result {
        let FolderSummary(counts) = *self;
        let matches = Amount::of(counts.matches, "folder matches", "folders match");
        let changed = Behind::of(counts.changed, "does not", "do not");
        let missing = Behind::of(
            counts.missing,
            "package has no folder",
            "packages have no folder",
        );
        let without_checksum = Behind::of(
            counts.without_checksum,
            "package of a registry has no checksum",
            "packages of a registry have no checksum",
        );
        let not_compared = Behind::of(
            counts.not_compared,
            "package has no source",
            "packages have no source",
        );
        write!(
            f,
            "{matches}{changed}{missing}{without_checksum}{not_compared}"
        )
    }
}

// A number and its words, in the singular or the plural.
#[derive(Clone, Copy)]
struct Amount<'a> {
    number: usize,
    one: &'a str,
    more: &'a str,
}

impl<'a> Amount<'a> {
    // The number with these words.
    fn of(number: usize, one: &'a str, more: &'a str) -> Amount<'a>
        ensures { result ≡ record { number = number; one = one.entry; more = more.entry } }
    {
        Amount { number, one, more }
    }
}

impl fmt::Display for Amount<'_> {
    ghost use Rattle.std.specs.Prelude.{Some};
    ghost use Rattle.cargo_lock_verify.specs.Summary.{amount_text};

    ghost output = { λ a. Some (amount_text a.number a.one.now a.more.now) };

    fn fmt<W: fmt::Write>(&self, f: &mut fmt::Formatter<W>) -> fmt::Result {
        let number = self.number;
        let words = if number == 1 { self.one } else { self.more };
        write!(f, "{number} {words}")
    }
}

// A number and its words behind others, or nothing if it is zero.
#[derive(Clone, Copy)]
struct Behind<'a> {
    number: usize,
    one: &'a str,
    more: &'a str,
}

impl<'a> Behind<'a> {
    // The number with these words.
    fn of(number: usize, one: &'a str, more: &'a str) -> Behind<'a>
        ensures { result ≡ record { number = number; one = one.entry; more = more.entry } }
    {
        Behind { number, one, more }
    }
}

impl fmt::Display for Behind<'_> {
    ghost use Rattle.std.specs.Prelude.{Some};
    ghost use Rattle.cargo_lock_verify.specs.Summary.{text_behind};

    ghost output = { λ b. Some (text_behind b.number b.one.now b.more.now) };

    fn fmt<W: fmt::Write>(&self, f: &mut fmt::Formatter<W>) -> fmt::Result {
        if self.number == 0 {
            return Ok(());
        }
        let amount = Amount::of(self.number, self.one, self.more);
        write!(f, "; {amount}")
    }
}
