//! What is printed of all names that several packages have.

ghost use Rattle.std.specs.Prelude.{◌≡◌, IfOk, if◌then◌else◌, map};
ghost use Rattle.std.specs.List.{AllZip};
ghost use Rattle.cargo_lock_query.specs.Tally.{AreGroupsOf, IsGroupOf, group_of_rows};
ghost use Rattle.cargo_lock_query.specs.Tally.{surplus_of_all, versions_of_all};

use crate::listing::{Rows, rows_among};
use crate::repeated::{Duplicate, duplicates};
use cargo_lock_graph::graph::Graph;
use cargo_lock_references::index::Indexed;
use std::alloc::{AllocError, Global};
use std::fmt;

/// The names that several packages have. `Display` writes the lines of each, and a last line that
/// counts them: `2 crates in 5 versions (3 surplus packages)`. It writes nothing if there is none.
///
/// A version counts once for each name, though packages of several sources have it. The packages
/// that are more than one of each name are the surplus.
///
/// ```
/// let listing = Listing::of(rt.alloc(), tree.graph(), &groups)?;
/// ```
#[derive(Drop)]
pub struct Listing<'a> {
    /// The packages of each name.
    pub groups: Vec<Rows<'a>>,
}

impl<'a> Listing<'a> {
    /// The lines of all names that several packages of a graph have. Fails when out of memory.
    ///
    /// ```
    /// let listing = Listing::about(rt.alloc(), tree.graph())?;
    /// print!(rt; "{listing}")?;
    /// ```
    pub fn about(alloc: Global, graph: &'a Graph) -> Result<Listing<'a>, AllocError>
        ensures { IfOk result
            (λ made. AreGroupsOf graph.now (map group_of_rows made.groups.items)) }
    {
        let groups = duplicates(alloc, graph)?;
        Listing::of(alloc, graph, &groups)
    }

    /// The lines of the groups that `duplicates` finds. Fails when out of memory.
    pub fn of(
        alloc: Global,
        graph: &'a Graph,
        groups: &[Vec<Duplicate>],
    ) -> Result<Listing<'a>, AllocError>
        ensures { IfOk result (λ made. AllZip (IsGroupOf graph.now.packages)
            (map (λ group. group.items) groups.now) (map group_of_rows made.groups.items)) }
    {
        let list = Indexed::of(alloc, graph.packages())?;
        let mut made = Vec::with_capacity(alloc, groups.len())?;
        for group in groups {
            made.push(rows_among(alloc, graph, &list, group)?)?;
        }
        Ok(Listing { groups: made })
    }
}

impl fmt::Display for Listing<'_> {
    ghost use Rattle.std.specs.Prelude.{Some, map};
    ghost use Rattle.cargo_lock_query.specs.Tally.{group_of_rows, listing_text};

    ghost output = { λ shown. Some (listing_text (map group_of_rows shown.groups.items)) };

    fn fmt<W: fmt::Write>(&self, f: &mut fmt::Formatter<W>) -> fmt::Result {
        let groups = GroupLines(&self.groups);
        let tally = Tally {
            crates: self.groups.len(),
            versions: versions(&self.groups),
            more: surplus(&self.groups),
        };
        write!(f, "{groups}{tally}")
    }
}

// How many packages there are more than one of each name. The count is of 128 bits, since no
// contract of `Rows` bounds the sum.
fn surplus(groups: &[Rows<'_>]) -> u128
    ensures { result ≡ surplus_of_all (map group_of_rows groups.now) }
{
    let mut more = 0u128;
    for group in groups {
        more += group.rows.len().saturating_sub(1) as u128;
    }
    more
}

// How many versions the names have.
fn versions(groups: &[Rows<'_>]) -> u128
    ensures { result ≡ versions_of_all (map group_of_rows groups.now) }
{
    let mut versions = 0u128;
    for group in groups {
        versions += group.versions as u128;
    }
    versions
}

// The lines of each group.
#[derive(Clone, Copy)]
struct GroupLines<'a>(&'a Vec<Rows<'a>>);

impl fmt::Display for GroupLines<'_> {
    ghost use Rattle.std.specs.Prelude.{Some, map};
    ghost use Rattle.std.specs.List.{flat_map};
    ghost use Rattle.cargo_lock_query.specs.Tally.{group_of_rows, group_text};

    ghost output = { λ shown. Some (flat_map group_text (map group_of_rows shown.0.now.items)) };

    fn fmt<W: fmt::Write>(&self, f: &mut fmt::Formatter<W>) -> fmt::Result {
        let GroupLines(groups) = *self;
        for group in groups {
            write!(f, "{group}\n")?;
        }
        Ok(())
    }
}

// How many crates there are, how many versions they have, and how many packages there are more than
// one of each.
#[derive(Clone, Copy)]
struct Tally {
    crates: usize,
    versions: u128,
    more: u128,
}

impl fmt::Display for Tally {
    ghost use Rattle.std.specs.Prelude.{Some};
    ghost use Rattle.cargo_lock_query.specs.Tally.{tally_line};

    ghost output = { λ tally. Some (tally_line tally.crates tally.versions tally.more) };

    fn fmt<W: fmt::Write>(&self, f: &mut fmt::Formatter<W>) -> fmt::Result {
        let Tally {
            crates,
            versions,
            more,
        } = *self;
        if crates == 0 {
            return Ok(());
        }
        let name = noun(crates == 1, "crate", "crates");
        let version = noun(versions == 1, "version", "versions");
        let package = noun(more == 1, "surplus package", "surplus packages");
        write!(
            f,
            "{crates} {name} in {versions} {version} ({more} {package})\n"
        )
    }
}

// A noun in the singular or the plural.
fn noun(is_one: bool, one: &'static str, more: &'static str) -> &'static str
    ensures { result.now ≡ (if is_one then one.now else more.now) }
{
    if is_one { one } else { more }
}
