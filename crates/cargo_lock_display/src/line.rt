//! A package, a dependency, a source and a checksum in a line.

use cargo_lock_parts::dependency::Dependency;
use cargo_lock_parts::package::{Package, SourceId};
use cargo_lock_references::index::Indexed;
use printing::Shown;
use std::fmt;

/// Displays a package as `NAME VERSION`.
///
/// ```
/// let named = NameVersion(package);
/// println!(rt; "{named}")?;
/// ```
#[derive(Clone, Copy)]
pub struct NameVersion<'a>(pub &'a Package);

impl fmt::Display for NameVersion<'_> {
    ghost use Rattle.std.specs.Prelude.{Some};
    ghost use Rattle.cargo_lock_display.specs.Line.{named_text};

    ghost output = { λ shown. Some (named_text shown.0.now) };

    fn fmt<W: fmt::Write>(&self, f: &mut fmt::Formatter<W>) -> fmt::Result {
        let NameVersion(package) = *self;
        let name = Shown(&package.name);
        let version = Shown(&package.version);
        write!(f, "{name} {version}")
    }
}

/// Displays a package as `NAME VERSION`, and its source behind it as `SourceBehind` does.
///
/// ```
/// let text = PackageText(package);
/// println!(rt; "{text}")?;
/// ```
#[derive(Clone, Copy)]
pub struct PackageText<'a>(pub &'a Package);

impl fmt::Display for PackageText<'_> {
    ghost use Rattle.std.specs.Prelude.{Some};
    ghost use Rattle.cargo_lock_display.specs.Line.{package_text};

    ghost output = { λ shown. Some (package_text shown.0.now) };

    fn fmt<W: fmt::Write>(&self, f: &mut fmt::Formatter<W>) -> fmt::Result {
        let PackageText(package) = *self;
        let named = NameVersion(package);
        let source = SourceBehind(&package.source);
        write!(f, "{named}{source}")
    }
}

/// Displays a package of a list as `NAME VERSION`, and its source behind it as `SourceBehind` does
/// where another package of the list has that name and version.
///
/// ```
/// let among = PackageAmong(&list, package);
/// println!(rt; "{among}")?;
/// ```
#[derive(Clone, Copy)]
pub struct PackageAmong<'a>(pub &'a Indexed<'a, Package>, pub &'a Package);

impl fmt::Display for PackageAmong<'_> {
    ghost use Rattle.std.specs.Prelude.{Some};
    ghost use Rattle.cargo_lock_display.specs.Line.{package_among};

    ghost output = { λ shown. Some (package_among shown.0.now shown.1.now) };

    fn fmt<W: fmt::Write>(&self, f: &mut fmt::Formatter<W>) -> fmt::Result {
        let PackageAmong(list, package) = *self;
        if list.is_version_unique(&package.name, &package.version) {
            let alone = NameVersion(package);
            return write!(f, "{alone}");
        }
        let text = PackageText(package);
        write!(f, "{text}")
    }
}

/// Displays a source as ` (SOURCE)`, ` (path)` if there is none. Nothing is written for crates.io.
#[derive(Clone, Copy)]
pub struct SourceBehind<'a>(pub &'a Option<SourceId>);

impl fmt::Display for SourceBehind<'_> {
    ghost use Rattle.std.specs.Prelude.{Some};
    ghost use Rattle.cargo_lock_display.specs.Line.{source_after_version};

    ghost output = { λ shown. Some (source_after_version shown.0.now) };

    fn fmt<W: fmt::Write>(&self, f: &mut fmt::Formatter<W>) -> fmt::Result {
        let SourceBehind(source) = *self;
        match source {
            Some(source) => {
                if source.is_default_registry() {
                    return Ok(());
                }
                let url = source.as_url(true);
                let source = Shown(&url);
                write!(f, " ({source})")
            }
            None => f.write_str(" (path)"),
        }
    }
}

/// Displays the source of a package of a list as `SourceBehind` does, but ` (path)` only where
/// another package of the list has its name and version.
///
/// ```
/// let source = SourceAmong(&list, package);
/// println!(rt; "source:{source}")?;
/// ```
#[derive(Clone, Copy)]
pub struct SourceAmong<'a>(pub &'a Indexed<'a, Package>, pub &'a Package);

impl fmt::Display for SourceAmong<'_> {
    ghost use Rattle.std.specs.Prelude.{Some};
    ghost use Rattle.cargo_lock_display.specs.Line.{source_among};

    ghost output = { λ shown. Some (source_among shown.0.now shown.1.now) };

    fn fmt<W: fmt::Write>(&self, f: &mut fmt::Formatter<W>) -> fmt::Result {
        let SourceAmong(list, package) = *self;
        let source = &package.source;
        if source.is_none() && list.is_version_unique(&package.name, &package.version) {
            return Ok(());
        }
        let behind = SourceBehind(source);
        write!(f, "{behind}")
    }
}

/// Displays a source, `(path)` if there is none, and `crates.io` for its registry.
#[derive(Clone, Copy)]
pub struct SourceText<'a>(pub &'a Option<SourceId>);

impl fmt::Display for SourceText<'_> {
    ghost use Rattle.std.specs.Prelude.{Some};
    ghost use Rattle.cargo_lock_display.specs.Line.{source_alone};

    ghost output = { λ shown. Some (source_alone shown.0.now) };

    fn fmt<W: fmt::Write>(&self, f: &mut fmt::Formatter<W>) -> fmt::Result {
        let SourceText(source) = *self;
        match source {
            Some(source) => {
                let is_crates_io = source.is_default_registry();
                if is_crates_io {
                    return f.write_str("crates.io");
                }
                let url = source.as_url(true);
                let source = Shown(&url);
                write!(f, "{source}")
            }
            None => f.write_str("(path)"),
        }
    }
}

/// Displays the checksum of a package, or `none` if it has none.
#[derive(Clone, Copy)]
pub struct ChecksumText<'a>(pub &'a Package);

impl fmt::Display for ChecksumText<'_> {
    ghost use Rattle.std.specs.Prelude.{Some};
    ghost use Rattle.cargo_lock_display.specs.Line.{checksum_text};

    ghost output = { λ shown. Some (checksum_text shown.0.now.checksum) };

    fn fmt<W: fmt::Write>(&self, f: &mut fmt::Formatter<W>) -> fmt::Result {
        let ChecksumText(package) = *self;
        match &package.checksum {
            Some(checksum) => {
                let checksum = Shown(checksum);
                write!(f, "{checksum}")
            }
            None => f.write_str("none"),
        }
    }
}

/// Displays the replacement of a package, or `none` if it has none.
#[derive(Clone, Copy)]
pub struct ReplacementText<'a>(pub &'a Package);

impl fmt::Display for ReplacementText<'_> {
    ghost use Rattle.std.specs.Prelude.{Some};
    ghost use Rattle.cargo_lock_display.specs.Line.{replacement_shown};

    ghost output = { λ shown. Some (replacement_shown shown.0.now.replace) };

    fn fmt<W: fmt::Write>(&self, f: &mut fmt::Formatter<W>) -> fmt::Result {
        let ReplacementText(package) = *self;
        match &package.replace {
            Some(replacement) => {
                let replacement = DependencyText(replacement);
                write!(f, "{replacement}")
            }
            None => f.write_str("none"),
        }
    }
}

/// Displays a dependency as `NAME VERSION`, and its source behind it as `SourceBehind` does.
#[derive(Clone, Copy)]
pub struct DependencyText<'a>(pub &'a Dependency);

impl fmt::Display for DependencyText<'_> {
    ghost use Rattle.std.specs.Prelude.{Some};
    ghost use Rattle.cargo_lock_display.specs.Line.{dependency_shown};

    ghost output = { λ shown. Some (dependency_shown shown.0.now) };

    fn fmt<W: fmt::Write>(&self, f: &mut fmt::Formatter<W>) -> fmt::Result {
        let DependencyText(dependency) = *self;
        let name = Shown(&dependency.name);
        let version = Shown(&dependency.version);
        let source = SourceBehind(&dependency.source);
        write!(f, "{name} {version}{source}")
    }
}
