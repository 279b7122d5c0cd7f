//! The parts of the lines of changes.

ghost use Rattle.std.specs.Prelude.{◌≡◌};
ghost use Rattle.cargo_lock_diff.specs.Change as spec;

use crate::commits::{Commits, Revisions, have_one_repository};
use crate::same::{have_one_line, have_one_place};
use cargo_lock_display::{ChecksumText, DependencyText, NameVersion, SourceBehind, SourceText};
use cargo_lock_parts::dependency::Dependency;
use cargo_lock_parts::package::{Package, is_of_registry};
use printing::Shown;
use std::cmp::Ordering;
use std::fmt;

// A package that moves: its version, and both sources or commits.
#[derive(Clone, Copy)]
pub(crate) struct Moved<'a>(
    pub(crate) Commits,
    pub(crate) &'a Package,
    pub(crate) &'a Package,
);

impl fmt::Display for Moved<'_> {
    ghost use Rattle.std.specs.Prelude.{Some};
    ghost use Rattle.cargo_lock_diff.specs.Change.{moved_package};

    ghost output = { λ shown. Some (moved_package shown.0 shown.1.now shown.2.now) };

    fn fmt<W: fmt::Write>(&self, f: &mut fmt::Formatter<W>) -> fmt::Result {
        let Moved(commits, old, new) = *self;
        let package = NameVersion(new);
        let sources = MovedSources(commits, old, new);
        write!(f, "{package}{sources}")
    }
}

// A pair of two versions: both, the source or both sources, and the marks.
#[derive(Clone, Copy)]
pub(crate) struct Updated<'a>(
    pub(crate) Commits,
    pub(crate) &'a Package,
    pub(crate) &'a Package,
);

impl fmt::Display for Updated<'_> {
    ghost use Rattle.std.specs.Prelude.{Some};
    ghost use Rattle.cargo_lock_diff.specs.Change.{updated_text};

    ghost output = { λ shown. Some (updated_text shown.0 shown.1.now shown.2.now) };

    fn fmt<W: fmt::Write>(&self, f: &mut fmt::Formatter<W>) -> fmt::Result {
        let Updated(commits, old, new) = *self;
        let package = NameVersion(old);
        let version = Shown(&new.version);
        let sources = UpdatedSources(commits, old, new);
        let incompatible = IncompatibleMark(old, new);
        let downgrade = DowngradeMark(old, new);
        write!(
            f,
            "{package} -> {version}{sources}{incompatible}{downgrade}"
        )
    }
}

// Both sources of a pair.
#[derive(Clone, Copy)]
struct Sources<'a>(&'a Package, &'a Package);

impl fmt::Display for Sources<'_> {
    ghost use Rattle.std.specs.Prelude.{Some};
    ghost use Rattle.cargo_lock_diff.specs.Change.{sources_text};

    ghost output = { λ shown. Some (sources_text shown.0.now shown.1.now) };

    fn fmt<W: fmt::Write>(&self, f: &mut fmt::Formatter<W>) -> fmt::Result {
        let Sources(old, new) = *self;
        let from = SourceText(&old.source);
        let to = SourceText(&new.source);
        write!(f, ": {from} -> {to}")
    }
}

// For a pair with other versions: both sources if the places differ, or else the source.
#[derive(Clone, Copy)]
struct UpdatedSources<'a>(Commits, &'a Package, &'a Package);

impl fmt::Display for UpdatedSources<'_> {
    ghost use Rattle.std.specs.Prelude.{Some};
    ghost use Rattle.cargo_lock_diff.specs.Change.{updated_sources};

    ghost output = { λ shown. Some (updated_sources shown.0 shown.1.now shown.2.now) };

    fn fmt<W: fmt::Write>(&self, f: &mut fmt::Formatter<W>) -> fmt::Result {
        let UpdatedSources(commits, old, new) = *self;
        if have_one_place(old, new) {
            let behind = SourceBehind(&new.source);
            return write!(f, "{behind}");
        }
        let sources = MovedSources(commits, old, new);
        write!(f, "{sources}")
    }
}

// Both sources of a pair, or both commits where all else of the sources stays.
#[derive(Clone, Copy)]
struct MovedSources<'a>(Commits, &'a Package, &'a Package);

impl fmt::Display for MovedSources<'_> {
    ghost use Rattle.std.specs.Prelude.{Some};
    ghost use Rattle.cargo_lock_diff.specs.Change.{moved_sources};

    ghost output = { λ shown. Some (moved_sources shown.0 shown.1.now shown.2.now) };

    fn fmt<W: fmt::Write>(&self, f: &mut fmt::Formatter<W>) -> fmt::Result {
        let MovedSources(commits, old, new) = *self;
        if have_one_repository(old, new) {
            let revisions = Revisions(commits, old, new);
            return write!(f, "{revisions}");
        }
        let sources = Sources(old, new);
        write!(f, "{sources}")
    }
}

// The mark of a pair whose versions are of two release lines.
#[derive(Clone, Copy)]
struct IncompatibleMark<'a>(&'a Package, &'a Package);

impl fmt::Display for IncompatibleMark<'_> {
    ghost use Rattle.std.specs.Prelude.{Some};
    ghost use Rattle.cargo_lock_diff.specs.Change.{incompatible_mark};

    ghost output = { λ shown. Some (incompatible_mark shown.0.now shown.1.now) };

    fn fmt<W: fmt::Write>(&self, f: &mut fmt::Formatter<W>) -> fmt::Result {
        let IncompatibleMark(old, new) = *self;
        if have_one_line(old, new) {
            Ok(())
        } else {
            f.write_str(" (incompatible)")
        }
    }
}

// The mark of a pair whose new version is less than the old one.
#[derive(Clone, Copy)]
struct DowngradeMark<'a>(&'a Package, &'a Package);

impl fmt::Display for DowngradeMark<'_> {
    ghost use Rattle.std.specs.Prelude.{Some};
    ghost use Rattle.cargo_lock_diff.specs.Change.{downgrade_mark};

    ghost output = { λ shown. Some (downgrade_mark shown.0.now shown.1.now) };

    fn fmt<W: fmt::Write>(&self, f: &mut fmt::Formatter<W>) -> fmt::Result {
        let DowngradeMark(old, new) = *self;
        if is_downgrade(old, new) {
            f.write_str(" (downgrade)")
        } else {
            Ok(())
        }
    }
}

// Whether the new version is less than the old one, whatever the build metadata is.
pub(crate) fn is_downgrade(old: &Package, new: &Package) -> bool
    ensures { result ≡ spec.is_downgrade old.now new.now }
{
    old.version.cmp_precedence(&new.version) == Ordering::Greater
}

// The mark of a package of a registry that has no checksum.
#[derive(Clone, Copy)]
pub(crate) struct ChecksumMark<'a>(pub(crate) &'a Package);

impl fmt::Display for ChecksumMark<'_> {
    ghost use Rattle.std.specs.Prelude.{Some};
    ghost use Rattle.cargo_lock_diff.specs.Change.{checksum_mark};

    ghost output = { λ shown. Some (checksum_mark shown.0.now) };

    fn fmt<W: fmt::Write>(&self, f: &mut fmt::Formatter<W>) -> fmt::Result {
        let ChecksumMark(package) = *self;
        if is_of_registry(&package.source) && package.checksum.is_none() {
            f.write_str(", no checksum")
        } else {
            Ok(())
        }
    }
}

// Both checksums of a pair.
#[derive(Clone, Copy)]
pub(crate) struct Checksums<'a>(pub(crate) &'a Package, pub(crate) &'a Package);

impl fmt::Display for Checksums<'_> {
    ghost use Rattle.std.specs.Prelude.{Some};
    ghost use Rattle.cargo_lock_diff.specs.Change.{checksums_text};

    ghost output = { λ shown. Some (checksums_text shown.0.now shown.1.now) };

    fn fmt<W: fmt::Write>(&self, f: &mut fmt::Formatter<W>) -> fmt::Result {
        let Checksums(old, new) = *self;
        let from = ChecksumText(old);
        let to = ChecksumText(new);
        write!(f, ": checksum {from} -> {to}")
    }
}

// Dependencies that only one of two packages has, each after its sign.
#[derive(Clone, Copy)]
pub(crate) struct Signed<'a>(pub(crate) bool, pub(crate) &'a Vec<&'a Dependency>);

impl fmt::Display for Signed<'_> {
    ghost use Rattle.std.specs.Prelude.{Some};
    ghost use Rattle.cargo_lock_diff.specs.Change.{signed_texts};
    ghost use Rattle.cargo_lock_diff.specs.Difference.{dependencies_at};

    ghost output = { λ shown. Some (signed_texts shown.0 (dependencies_at shown.1.now.items)) };

    fn fmt<W: fmt::Write>(&self, f: &mut fmt::Formatter<W>) -> fmt::Result {
        let Signed(is_old, dependencies) = *self;
        let sign = if is_old { "-" } else { "+" };
        for dependency in dependencies {
            let text = DependencyText(dependency);
            write!(f, " {sign} {text}")?;
        }
        Ok(())
    }
}
