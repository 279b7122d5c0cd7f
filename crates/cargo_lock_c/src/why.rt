//! Why packages are in a lockfile, as a document of JSON.

ghost use Rattle.std.specs.Prelude.{◌≡◌, ◌≤◌, ◌↔◌, ◌⊎◌, ℕ, IfErr, IfOk, map, string_bytes};
ghost use Rattle.std.specs.Str.{IsUtf8};
ghost use Rattle.cargo_lock_query.specs.Lines.{answer_of};
ghost use Rattle.cargo_lock_query.specs.Spec.{SpecFits};
ghost use Rattle.printing.specs.Json.{IsJsonText};
ghost use Rattle.cargo_lock_query.specs.WhyDocument.{answers_json};
ghost use Rattle.cargo_lock_edges.specs.OwnGraph.{IsOwnGraph};
ghost use Rattle.cargo_lock_c.specs.declared.refusal.Refusal.TheVariants.{NoMemory, NothingFits};
ghost use Rattle.cargo_lock_c.specs.Answers.{IsHandedOut};
ghost use Rattle.cargo_lock_c.specs.Documents.{FitsNone, IsLine, IsWhyOf, IsWhyText};
ghost use Rattle.cargo_lock_c.specs.Documents.{file_without_path};
ghost use Rattle.cargo_lock_c.specs.Graph.{IsUnresolvedText};
ghost use Rattle.cargo_lock_c.specs.Statuses.{status_of};
ghost use Rattle.cargo_lock_c.specs.Texts.{RefusesText};

use crate::document::{file_of, line_of};
use crate::handing::hand_out;
use crate::reading::read;
use crate::refusal::Refusal;
use crate::tree::graph_of;
use cargo_lock::Lockfile;
use cargo_lock::dependency::graph::Graph;
use cargo_lock_query::{Answers, answers_json, fitting};
use std::alloc::Global;
use std::str;

/// Why the packages that a specification fits are in the lockfile of a text, as `cargo-lock why
/// --json -f -` prints it: a chain of dependencies for each, or, if `all` is set, one from each root
/// that leads to it. Status 7 means that a dependency has no package, 13 that the specification fits
/// none, and 14 that the bytes of the specification, which are read before the text, are not UTF-8.
#[unsafe(no_mangle)]
pub extern "C" fn cargo_lock_why(
    alloc: Global,
    text: &[u8],
    spec: &[u8],
    all: bool,
    out: &mut [u8],
    length: &mut usize,
) -> u32
    ensures why { IsHandedOut (IsWhyText text.now spec.now all) result out.old out.new
        length.old length.new }
    ensures unresolved { result ≡ 7 → IsUnresolvedText text.now }
    ensures nothing_fits { result ≡ 13 → FitsNone text.now spec.now }
    ensures no_spec_text { (result ≡ 14) ↔ (¬ IsUtf8 spec.now) }
    ensures refused { RefusesText text.now result }
    ensures status { (result ≤ 3) ⊎ (result ≡ 5) ⊎ (result ≡ 7) ⊎ (result ≡ 13)
        ⊎ (result ≡ 14) }
{
    let Ok(spec) = str::from_utf8(spec) else {
        return Refusal::NoSpecText.status();
    };
    match answers(alloc, text, spec, all) {
        Ok(answers) => hand_out(answers.as_bytes(), out, length),
        Err(refusal) => refusal.status(),
    }
}

/// The document of the answers, of the lockfile of a text's bytes.
fn answers(alloc: Global, bytes: &[u8], spec: &str, all: bool) -> Result<String, Refusal>
    ensures ok { IfOk result
        (λ answers. IsWhyText bytes.now spec.now all (string_bytes answers)) }
    ensures unresolved { IfErr result (λ refusal. status_of refusal ≡ 7
        → IsUnresolvedText bytes.now) }
    ensures nothing_fits { IfErr result (λ refusal. status_of refusal ≡ 13
        → FitsNone bytes.now spec.now) }
    ensures refused { IfErr result (λ refusal. RefusesText bytes.now (status_of refusal)) }
    ensures kind { IfErr result (λ refusal. (status_of refusal ≤ 3) ⊎ (status_of refusal ≡ 7)
        ⊎ (status_of refusal ≡ 13)) }
{
    let lockfile = read(alloc, bytes)?;
    let graph = graph_of(alloc, &lockfile)?;
    let answers = answers_of(alloc, &lockfile, &graph, spec, all)?;
    Ok(answers)
}

/// The document of why the packages of a graph are there that a specification fits.
fn answers_of(
    alloc: Global,
    lockfile: &Lockfile,
    graph: &Graph,
    spec: &str,
    all: bool,
) -> Result<String, Refusal>
    requires { IsOwnGraph lockfile.now.packages graph.now }
    ensures ok { IfOk result (λ answers. IsWhyOf lockfile.now graph.now spec.now all
        (string_bytes answers)) }
    ensures err { IfErr result (λ refusal. (refusal ≡ NoMemory) ⊎ ((refusal ≡ NothingFits)
        × ((place : ℕ) → ¬ SpecFits spec.now lockfile.now.packages place))) }
{
    let nodes = fitting(alloc, lockfile.packages.as_slice(), spec)?;
    if nodes.is_empty() {
        return Err(Refusal::NothingFits);
    }
    let answers = Answers::about(alloc, graph, &nodes, all)?;
    let line = line_about(alloc, lockfile, &answers)?;
    Ok(line)
}

/// The document of answers.
fn line_about(alloc: Global, lockfile: &Lockfile, answers: &Answers<'_>) -> Result<String, Refusal>
    ensures ok { IfOk result (λ line. IsLine (IsJsonText (answers_json
        (file_without_path lockfile.now) (map answer_of answers.now.answers.items)))
        (string_bytes line)) }
    ensures err { IfErr result (λ refusal. refusal ≡ NoMemory) }
{
    let document = answers_json(alloc, &file_of(lockfile), &answers.answers)?;
    line_of(document)
}
