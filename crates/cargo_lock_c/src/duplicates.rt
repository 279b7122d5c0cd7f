//! The names that several packages of a lockfile have, as a document of JSON.

ghost use Rattle.std.specs.Prelude.{◌≡◌, ◌≤◌, ◌⊎◌, IfErr, IfOk, map, string_bytes};
ghost use Rattle.cargo_lock_query.specs.Tally.{group_of_rows};
ghost use Rattle.cargo_lock_query.specs.DuplicatesDocument.{groups_json};
ghost use Rattle.printing.specs.Json.{IsJsonText};
ghost use Rattle.cargo_lock_c.specs.declared.refusal.Refusal.TheVariants.{NoMemory};
ghost use Rattle.cargo_lock_c.specs.Answers.{IsHandedOut};
ghost use Rattle.cargo_lock_c.specs.Documents.{IsDuplicatesOf, IsDuplicatesText, IsLine};
ghost use Rattle.cargo_lock_c.specs.Documents.{file_without_path};
ghost use Rattle.cargo_lock_c.specs.Graph.{IsUnresolvedText};
ghost use Rattle.cargo_lock_c.specs.Statuses.{status_of};
ghost use Rattle.cargo_lock_c.specs.Texts.{RefusesText};

use crate::document::{file_of, line_of};
use crate::handing::hand_out;
use crate::reading::read;
use crate::refusal::Refusal;
use crate::tree::graph_of;
use cargo_lock::Lockfile;
use cargo_lock::dependency::graph::Graph;
use cargo_lock_query::{Listing, groups_json};
use std::alloc::Global;

/// The names that several packages of the lockfile of a text have, with these packages and what
/// needs each, as `cargo-lock duplicates --json -f -` prints them. Status 7 means that a dependency
/// has no package.
#[unsafe(no_mangle)]
pub extern "C" fn cargo_lock_duplicates(
    alloc: Global,
    text: &[u8],
    out: &mut [u8],
    length: &mut usize,
) -> u32
    ensures duplicates { IsHandedOut (IsDuplicatesText text.now) result out.old out.new
        length.old length.new }
    ensures unresolved { result ≡ 7 → IsUnresolvedText text.now }
    ensures refused { RefusesText text.now result }
    ensures status { (result ≤ 3) ⊎ (result ≡ 5) ⊎ (result ≡ 7) }
{
    match names(alloc, text) {
        Ok(names) => hand_out(names.as_bytes(), out, length),
        Err(refusal) => refusal.status(),
    }
}

/// The document of the names, of the lockfile of a text's bytes.
fn names(alloc: Global, bytes: &[u8]) -> Result<String, Refusal>
    ensures ok { IfOk result (λ names. IsDuplicatesText bytes.now (string_bytes names)) }
    ensures unresolved { IfErr result (λ refusal. status_of refusal ≡ 7
        → IsUnresolvedText bytes.now) }
    ensures refused { IfErr result (λ refusal. RefusesText bytes.now (status_of refusal)) }
    ensures kind { IfErr result (λ refusal. (status_of refusal ≤ 3) ⊎ (status_of refusal ≡ 7)) }
{
    let lockfile = read(alloc, bytes)?;
    let graph = graph_of(alloc, &lockfile)?;
    let names = names_of(alloc, &lockfile, &graph)?;
    Ok(names)
}

/// The document of the names that several packages of a graph have.
fn names_of(alloc: Global, lockfile: &Lockfile, graph: &Graph) -> Result<String, Refusal>
    ensures ok { IfOk result (λ names. IsDuplicatesOf lockfile.now graph.now
        (string_bytes names)) }
    ensures err { IfErr result (λ refusal. refusal ≡ NoMemory) }
{
    let listing = Listing::about(alloc, graph)?;
    let line = line_about(alloc, lockfile, &listing)?;
    Ok(line)
}

/// The document of names.
fn line_about(alloc: Global, lockfile: &Lockfile, listing: &Listing<'_>) -> Result<String, Refusal>
    ensures ok { IfOk result (λ line. IsLine (IsJsonText (groups_json
        (file_without_path lockfile.now) (map group_of_rows listing.now.groups.items)))
        (string_bytes line)) }
    ensures err { IfErr result (λ refusal. refusal ≡ NoMemory) }
{
    let document = groups_json(alloc, &file_of(lockfile), &listing.groups)?;
    line_of(document)
}
