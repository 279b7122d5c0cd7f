//! What is printed of the packages of one name.

ghost use Rattle.std.specs.Prelude.{◌≡◌, ◌++◌, ◌∷◌, [], IfOk, OnOk, map, option_map, string_bytes};
ghost use Rattle.std.specs.List.{filter_map};
ghost use Rattle.std.specs.Ordering.{eq_by_cmp};
ghost use Rattle.std.specs.Set.{distinct_count};
ghost use Rattle.semver.specs.Identifiers.{parts_of};
ghost use Rattle.cargo_lock_parts.specs.IdentityOrder.{version_cmp};
ghost use Rattle.cargo_lock_query.specs.Listing.{IsWidest, count_versions, row_for, row_of};
ghost use Rattle.cargo_lock_query.specs.Listing.{version_text};
ghost use Rattle.cargo_lock_query.specs.Listing as spec;

use crate::lines::packages_at;
use crate::repeated::Duplicate;
use cargo_lock_display::{NameVersion, SourceAmong};
use cargo_lock_graph::graph::{Graph, NodeIndex};
use cargo_lock_parts::package::{Package, Version};
use cargo_lock_references::index::Indexed;
use printing::Shown;
use std::alloc::{AllocError, Global};
use std::collections::BTreeSet;
use std::fmt;

/// A package of several with one name, as a line.
#[derive(Drop)]
pub struct Row<'a> {
    /// The package.
    pub package: &'a Package,

    /// The version and the source as they are shown.
    pub version: String,

    /// The packages that depend on the package.
    pub needers: Vec<&'a Package>,
}

/// The packages of one name. `Display` writes the name and a line for each package, the last one
/// without a newline: `  VERSION SRC  needed by NAME VERSION, ..`.
///
/// `SRC` is the source as a V4 lockfile has it, in round brackets; one of crates.io has nothing,
/// and a package without a source `(path)` where another one has its name and version. Versions and
/// sources are one column, and what depends on each package another. A package on which none
/// depends has only the first. Texts that come from a lockfile are shown as `Shown` shows them.
///
/// ```
/// for group in &groups {
///     let rows = Rows::of(rt.alloc(), tree.graph(), group)?;
///     println!(rt; "{rows}")?;
/// }
/// ```
#[derive(Drop)]
pub struct Rows<'a> {
    /// The packages.
    pub rows: Vec<Row<'a>>,

    /// The width of the column of versions and sources.
    pub width: usize,

    /// How many different versions the packages have.
    pub versions: usize,
}

impl<'a> Rows<'a> {
    /// The lines of a group that `duplicates` finds. Fails when out of memory.
    pub fn of(alloc: Global, graph: &'a Graph, group: &[Duplicate]) -> Result<Rows<'a>, AllocError>
        ensures rows { IfOk result (λ made.
            map row_of made.rows.items ≡ filter_map (row_for graph.now.packages) group.now) }
        ensures width { IfOk result (λ made. IsWidest (map row_of made.rows.items) made.width) }
        ensures versions { IfOk result
            (λ made. made.versions ≡ count_versions (map row_of made.rows.items)) }
    {
        let list = Indexed::of(alloc, graph.packages())?;
        rows_among(alloc, graph, &list, group)
    }
}

/// The lines of a group that `duplicates` finds, where the list has the packages of the graph.
/// Fails when out of memory.
pub(crate) fn rows_among<'a>(
    alloc: Global,
    graph: &'a Graph,
    list: &Indexed<'_, Package>,
    group: &[Duplicate],
) -> Result<Rows<'a>, AllocError>
    requires { list.now ≡ graph.now.packages }
    ensures rows { IfOk result (λ made.
        map row_of made.rows.items ≡ filter_map (row_for graph.now.packages) group.now) }
    ensures width { IfOk result (λ made. IsWidest (map row_of made.rows.items) made.width) }
    ensures versions { IfOk result
        (λ made. made.versions ≡ count_versions (map row_of made.rows.items)) }
{
    let mut rows = Vec::with_capacity(alloc, group.len())?;
    for one in group {
        add_row(alloc, graph, list, one, &mut rows)?;
    }
    let width = widest(&rows);
    let versions = count_versions(alloc, &rows)?;
    Ok(Rows {
        rows,
        width,
        versions,
    })
}

// Adds the row of a package.
fn add_row<'a>(
    alloc: Global,
    graph: &'a Graph,
    list: &Indexed<'_, Package>,
    one: &Duplicate,
    rows: &mut Vec<Row<'a>>,
) -> Result<(), AllocError>
    requires { list.now ≡ graph.now.packages }
    ensures { OnOk result (map row_of rows.new.items ≡ map row_of rows.old.items
        ++ filter_map (row_for graph.now.packages) (one.now ∷ [])) }
{
    if let Some(package) = graph.node_weight(one.node) {
        let row = row_with(alloc, graph, list, package, &one.needers)?;
        rows.push(row)?;
    }
    Ok(())
}

// The row of a package, with the nodes of those that depend on it.
fn row_with<'a>(
    alloc: Global,
    graph: &'a Graph,
    list: &Indexed<'_, Package>,
    package: &'a Package,
    needers: &[NodeIndex],
) -> Result<Row<'a>, AllocError>
    requires { list.now ≡ graph.now.packages }
    ensures { IfOk result (λ row. row_of row
        ≡ spec.row_with graph.now.packages needers.now «package».now) }
{
    let version = version_of(alloc, list, package)?;
    let needers = packages_at(alloc, graph, needers)?;
    Ok(Row {
        package,
        version,
        needers,
    })
}

// The version and the source of a package of a list.
fn version_of(
    alloc: Global,
    list: &Indexed<'_, Package>,
    package: &Package,
) -> Result<String, AllocError>
    ensures { IfOk result (λ text. string_bytes text ≡ version_text list.now «package».now) }
{
    let version = Shown(&package.version);
    let source = SourceAmong(list, package);
    format!(in alloc; "{version}{source}")
}

// The length of the longest version with its source.
fn widest(rows: &[Row<'_>]) -> usize
    ensures { IsWidest (map row_of rows.now) result }
{
    let mut width = 0;
    for row in rows {
        if row.version.len() > width {
            width = row.version.len();
        }
    }
    width
}

// How many different versions there are.
fn count_versions(alloc: Global, rows: &[Row<'_>]) -> Result<usize, AllocError>
    ensures { IfOk result (λ count. count ≡ count_versions (map row_of rows.now)) }
{
    let mut versions = Vec::with_capacity(alloc, rows.len())?;
    for row in rows {
        let package = row.package;
        versions.push(&package.version)?;
    }
    count_different(alloc, &versions)
}

// How many of some versions are different. They are in a tree, so that a stranger who chooses them
// cannot make this slow.
fn count_different<'a>(alloc: Global, versions: &[&'a Version]) -> Result<usize, AllocError>
    ensures { IfOk result (λ count. count ≡ distinct_count (eq_by_cmp version_cmp)
        (map (λ version. parts_of version.now) versions.now)) }
{
    let mut different = BTreeSet::new(alloc);
    for version in versions {
        different.insert(*version)?;
    }
    Ok(different.len())
}

impl fmt::Display for Rows<'_> {
    ghost use Rattle.std.specs.Prelude.{Some, map};
    ghost use Rattle.cargo_lock_query.specs.Listing.{row_of, rows_text};

    ghost output = { λ shown. Some (rows_text shown.width (map row_of shown.rows.items)) };

    fn fmt<W: fmt::Write>(&self, f: &mut fmt::Formatter<W>) -> fmt::Result {
        let name = NameText(first_in(&self.rows));
        let rows = RowLines(&self.rows, self.width);
        write!(f, "{name}{rows}")
    }
}

// The package of the first row.
fn first_in<'a>(rows: &[Row<'a>]) -> Option<&'a Package>
    ensures { option_map (λ p. p.now) result ≡ spec.first_in (map row_of rows.now) }
{
    match rows.first() {
        Some(row) => Some(row.package),
        None => None,
    }
}

// The name of a package, if there is one.
#[derive(Clone, Copy)]
struct NameText<'a>(Option<&'a Package>);

impl fmt::Display for NameText<'_> {
    ghost use Rattle.std.specs.Prelude.{Some, option_map};
    ghost use Rattle.cargo_lock_query.specs.Listing.{name_shown};

    ghost output = { λ shown. Some (name_shown (option_map (λ p. p.now) shown.0)) };

    fn fmt<W: fmt::Write>(&self, f: &mut fmt::Formatter<W>) -> fmt::Result {
        let NameText(package) = *self;
        match package {
            Some(package) => {
                let name = Shown(&package.name);
                write!(f, "{name}")
            }
            None => Ok(()),
        }
    }
}

// The line of each row.
#[derive(Clone, Copy)]
struct RowLines<'a>(&'a Vec<Row<'a>>, usize);

impl fmt::Display for RowLines<'_> {
    ghost use Rattle.std.specs.Prelude.{Some, map};
    ghost use Rattle.std.specs.List.{flat_map};
    ghost use Rattle.cargo_lock_query.specs.Listing.{row_line, row_of};

    ghost output = { λ shown.
        Some (flat_map (row_line shown.1) (map row_of shown.0.now.items)) };

    fn fmt<W: fmt::Write>(&self, f: &mut fmt::Formatter<W>) -> fmt::Result {
        let RowLines(rows, width) = *self;
        for row in rows {
            let version = &row.version;
            let padding = width.saturating_sub(version.len());
            let needers = NeedersText(&row.needers, padding);
            write!(f, "\n  {version}{needers}")?;
        }
        Ok(())
    }
}

// What depends on a package, in a column of its own.
#[derive(Clone, Copy)]
struct NeedersText<'a>(&'a Vec<&'a Package>, usize);

impl fmt::Display for NeedersText<'_> {
    ghost use Rattle.std.specs.Prelude.{Some, map};
    ghost use Rattle.cargo_lock_query.specs.Listing.{needers_text};

    ghost output = { λ shown.
        Some (needers_text shown.1 (map (λ p. p.now) shown.0.now.items)) };

    fn fmt<W: fmt::Write>(&self, f: &mut fmt::Formatter<W>) -> fmt::Result {
        let NeedersText(needers, padding) = *self;
        if needers.is_empty() {
            return Ok(());
        }
        let padding = Spaces(padding);
        let needers = Listed(needers);
        write!(f, "{padding}  needed by {needers}")
    }
}

// So many spaces.
#[derive(Clone, Copy)]
struct Spaces(usize);

impl fmt::Display for Spaces {
    ghost use Rattle.std.specs.Prelude.{Some, replicate};

    ghost output = { λ spaces. Some (replicate spaces.0 32) };

    fn fmt<W: fmt::Write>(&self, f: &mut fmt::Formatter<W>) -> fmt::Result {
        for _place in 0..self.0 {
            write!(f, " ")?;
        }
        Ok(())
    }
}

// Packages, with a comma between them.
#[derive(Clone, Copy)]
struct Listed<'a>(&'a Vec<&'a Package>);

impl fmt::Display for Listed<'_> {
    ghost use Rattle.std.specs.Prelude.{Some, map};
    ghost use Rattle.cargo_lock_query.specs.Listing.{listed_text};

    ghost output = { λ shown. Some (listed_text (map (λ p. p.now) shown.0.now.items)) };

    fn fmt<W: fmt::Write>(&self, f: &mut fmt::Formatter<W>) -> fmt::Result {
        let Listed(packages) = *self;
        for (place, one) in packages.iter().enumerate() {
            let comma = if place == 0 { "" } else { ", " };
            let one = NameVersion(one);
            write!(f, "{comma}{one}")?;
        }
        Ok(())
    }
}
