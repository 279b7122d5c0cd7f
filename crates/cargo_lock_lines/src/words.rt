//! The words of a lockfile, which are parts of its text. `scan::words_of` finds them.

use std::marker::Model;

/// The name, the version and the source of a package, or of a patch that no package uses, as they
/// are in the text. They need not be a name, a version and a source: nothing reads them here.
///
/// ```
/// let (name, version) = (identity.name, identity.version);
/// println!(rt; "{name} {version}")?;
/// ```
#[derive(Debug, Drop)]
pub struct IdentityWords<'a> {
    /// The name.
    pub name: &'a str,

    /// The version.
    pub version: &'a str,

    /// The source, if there is a line of it.
    pub source: Option<&'a str>,
}

impl<'a> Model for IdentityWords<'a> {
    ghost use Rattle.std.specs.Prelude.{option_copied};
    ghost use Rattle.cargo_lock_lines.specs.TableOfWords.{LinedIdentity};

    ghost Value = { LinedIdentity };

    ghost view = { λ i. record {
      name = i.name.now;
      version = i.version.now;
      source = option_copied i.source;
    } };
}

/// What the lines of a package have between their quotation marks. Each word is there without an
/// escape.
///
/// ```
/// print_identity(rt, &package.identity)?;
/// for reference in &package.dependencies {
///     println!(rt; "- {reference}")?;
/// }
/// ```
#[derive(Debug, Drop)]
pub struct PackageWords<'a> {
    /// The name, the version and the source.
    pub identity: IdentityWords<'a>,

    /// The checksum, if there is a line of it.
    pub checksum: Option<&'a str>,

    /// What the package depends on, each as its line has it.
    pub dependencies: Vec<&'a str>,

    /// The replacement, if there is a line of it.
    pub replace: Option<&'a str>,
}

impl<'a> Model for PackageWords<'a> {
    ghost use Rattle.std.specs.Prelude.{map, option_copied};
    ghost use Rattle.cargo_lock_lines.specs.TableOfWords.{LinedPackage};

    ghost Value = { LinedPackage };

    ghost view = { λ p. record {
      identity = p.identity;
      checksum = option_copied p.checksum;
      dependencies = map (λ w. w.now) p.dependencies.items;
      replace = option_copied p.replace;
    } };
}

/// A key of the metadata, without its quotation marks, and its value.
///
/// ```
/// let (key, value) = (pair.key, pair.value);
/// println!(rt; "{key}: {value}")?;
/// ```
#[derive(Debug, Drop)]
pub struct PairWords<'a> {
    /// The key.
    pub key: &'a str,

    /// The value.
    pub value: &'a str,
}

impl<'a> Model for PairWords<'a> {
    ghost use Rattle.std.specs.Prelude.{ℕ, List};

    ghost Value = { List ℕ × List ℕ };

    ghost view = { λ p. (p.key.now, p.value.now) };
}

/// The words of a lockfile, in the order in which its lines have them. `toml` reads the text as the
/// table of these words, which has no root.
///
/// ```
/// for package in &words.packages {
///     print_package(rt, package)?;
/// }
/// for pair in &words.metadata {
///     print_pair(rt, pair)?;
/// }
/// ```
#[derive(Debug, Drop)]
pub struct LockfileWords<'a> {
    /// The number of the format, 3 or 4, if there is a line of it.
    pub number: Option<i64>,

    /// The packages.
    pub packages: Vec<PackageWords<'a>>,

    /// The patches that no package uses.
    pub patches: Vec<IdentityWords<'a>>,

    /// The metadata, in the order of its keys.
    pub metadata: Vec<PairWords<'a>>,
}

impl<'a> Model for LockfileWords<'a> {
    ghost use Rattle.cargo_lock_lines.specs.TableOfWords.{LinedLockfile};

    ghost Value = { LinedLockfile };

    ghost view = { λ l. record {
      number = l.number;
      packages = l.packages.items;
      patches = l.patches.items;
      metadata = l.metadata.items;
    } };
}
