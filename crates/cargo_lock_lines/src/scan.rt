//! From a text to its words, line by line.

ghost use Rattle.std.specs.Prelude.{◌≡◌, [], Some, IfOk, IfSome, IsTrue, map};
ghost use Rattle.toml.specs.Parse.{parse_document};
ghost use Rattle.std.specs.Cmp.Lexicographic.{slice_cmp};
ghost use Rattle.std.specs.Ordering.{is_lt, nat_cmp};
ghost use Rattle.cargo_lock_lines.specs.Held.{ArePackagesAt, ArePairsAt, ArePatchesAt};
ghost use Rattle.cargo_lock_lines.specs.Held.{AreReferencesAt, Holds, HoldsList, IsMetadataAt};
ghost use Rattle.cargo_lock_lines.specs.TableOfWords.{identity_pairs, lined_pairs, number_pairs};
ghost use Rattle.cargo_lock_lines.specs.TableOfWords.{pair_expression, words_table};

use crate::line::{
    after, after_empty_line, after_empty_lines, between, field, optional_field, pair,
};
use crate::words::{IdentityWords, LockfileWords, PackageWords, PairWords};
use std::alloc::{AllocError, Global};
use std::cmp::Ordering;

fn identity<'a>(text: &'a str) -> Option<(IdentityWords<'a>, &'a str)>
    ensures { IfSome result
        (λ found. Holds text.now (map pair_expression (identity_pairs found.0)) found.1.now) }
{
    let (name, rest) = field(text, "name = \"")?;
    let (version, rest) = field(rest, "version = \"")?;
    let (source, rest) = optional_field(rest, "source = \"");
    let words = IdentityWords {
        name,
        version,
        source,
    };
    Some((words, rest))
}

// The references of the lines at the beginning of a text, and what follows them.
fn references<'a>(alloc: Global, text: &'a str) -> Result<(Vec<&'a str>, &'a str), AllocError>
    ensures { IfOk result
        (λ found. AreReferencesAt text.now (map (λ w. w.now) found.0.items) found.1.now) }
{
    let mut words = Vec::new(alloc);
    let mut rest = text;
    while let Some((word, onward)) = between(rest, " \"", "\",\n") {
        words.push(word)?;
        rest = onward;
    }
    Ok((words, rest))
}

// The dependencies, none if there is no list of them, and what follows.
fn dependencies<'a>(
    alloc: Global,
    text: &'a str,
) -> Result<Option<(Vec<&'a str>, &'a str)>, AllocError>
    ensures { IfOk result (λ found. IfSome found
        (λ r. HoldsList text.now (map (λ w. w.now) r.0.items) r.1.now)) }
{
    let Some(list) = after(text, "dependencies = [\n") else {
        return Ok(Some((Vec::new(alloc), text)));
    };
    let (words, end) = references(alloc, list)?;
    if words.is_empty() {
        return Ok(None);
    }
    match after(end, "]\n") {
        Some(rest) => Ok(Some((words, rest))),
        None => Ok(None),
    }
}

// The package below its header, and what follows.
fn package<'a>(
    alloc: Global,
    text: &'a str,
) -> Result<Option<(PackageWords<'a>, &'a str)>, AllocError>
    ensures { IfOk result (λ found. IfSome found
        (λ p. Holds text.now (map pair_expression (lined_pairs p.0)) p.1.now)) }
{
    let Some((identity, rest)) = identity(text) else {
        return Ok(None);
    };
    let (checksum, rest) = optional_field(rest, "checksum = \"");
    let Some((dependencies, rest)) = dependencies(alloc, rest)? else {
        return Ok(None);
    };
    let (replace, rest) = optional_field(rest, "replace = \"");
    let words = PackageWords {
        identity,
        checksum,
        dependencies,
        replace,
    };
    Ok(Some((words, rest)))
}

// The packages, and what follows them.
fn packages<'a>(
    alloc: Global,
    text: &'a str,
) -> Result<Option<(Vec<PackageWords<'a>>, &'a str)>, AllocError>
    ensures { IfOk result (λ found. IfSome found
        (λ p. ArePackagesAt text.now p.0.items p.1.now)) }
{
    let mut words = Vec::new(alloc);
    let mut rest = text;
    while let Some(below) = after(after_empty_line(rest), "[[package]]\n") {
        let Some((package, onward)) = package(alloc, below)? else {
            return Ok(None);
        };
        words.push(package)?;
        rest = onward;
    }
    Ok(Some((words, rest)))
}

// The unused patches, and what follows them.
fn patches<'a>(
    alloc: Global,
    text: &'a str,
) -> Result<Option<(Vec<IdentityWords<'a>>, &'a str)>, AllocError>
    ensures { IfOk result (λ found. IfSome found
        (λ p. ArePatchesAt text.now p.0.items p.1.now)) }
{
    let mut words = Vec::new(alloc);
    let mut rest = text;
    while let Some(below) = after(after_empty_lines(rest), "[[patch.unused]]\n") {
        let Some((patch, onward)) = identity(below) else {
            return Ok(None);
        };
        words.push(patch)?;
        rest = onward;
    }
    Ok(Some((words, rest)))
}

// Whether a key is before another.
fn is_before(key: &str, other: &str) -> bool
    ensures { result ≡ is_lt (slice_cmp nat_cmp key.now other.now) }
{
    key.cmp(other) == Ordering::Less
}

// The pairs of the metadata below its header, and what follows.
fn pairs<'a>(
    alloc: Global,
    text: &'a str,
) -> Result<Option<(Vec<PairWords<'a>>, &'a str)>, AllocError>
    ensures { IfOk result (λ found. IfSome found
        (λ p. ArePairsAt text.now p.0.items p.1.now)) }
{
    let mut words = Vec::new(alloc);
    let mut last = "";
    let mut rest = text;
    while let Some((key, value, onward)) = pair(rest) {
        if is_before(last, key) {
            words.push(PairWords { key, value })?;
            last = key;
            rest = onward;
        } else {
            return Ok(None);
        }
    }
    Ok(Some((words, rest)))
}

// The metadata, none if there is no header of it, and what follows.
fn metadata<'a>(
    alloc: Global,
    text: &'a str,
) -> Result<Option<(Vec<PairWords<'a>>, &'a str)>, AllocError>
    ensures { IfOk result (λ found. IfSome found
        (λ p. IsMetadataAt text.now p.0.items p.1.now)) }
{
    let Some(below) = after(after_empty_lines(text), "[metadata]\n") else {
        return Ok(Some((Vec::new(alloc), text)));
    };
    let Some((words, rest)) = pairs(alloc, below)? else {
        return Ok(None);
    };
    if words.is_empty() {
        return Ok(None);
    }
    Ok(Some((words, rest)))
}

// The number of the format, if there is a line of it, and what follows.
fn number(text: &str) -> (Option<i64>, &str)
    ensures { Holds text.now (map pair_expression (number_pairs result.0)) result.1.now }
{
    if let Some(rest) = after(text, "version = 4\n") {
        return (Some(4), rest);
    }
    if let Some(rest) = after(text, "version = 3\n") {
        return (Some(3), rest);
    }
    (None, text)
}

// Whether nothing is left but empty lines.
fn is_end(text: &str) -> bool
    ensures { IsTrue result → Holds text.now [] [] }
{
    after_empty_lines(text).is_empty()
}

/// The words of a text whose lines are as Cargo writes them, if they are. `toml` reads such a text
/// as the table of its words.
///
/// The lines are those of `serialize_resolve` and `emit_package` in Cargo's
/// `src/cargo/ops/lockfile.rs`, in their order: two comments, the number of the format if it is 3
/// or 4, the packages, the patches that no package uses, and the metadata, whose keys ascend. Any
/// other text has no words here, whatever it means: one with an escape, a carriage return, a
/// further comment, a key in another place, or a root. What a word says, as a version does, is not
/// asked.
///
/// # Errors
///
/// Where memory does not suffice, and only then. A text without words is no error.
///
/// ```
/// match words_of(rt.alloc(), TEXT)? {
///     Some(words) => print_words(rt, &words),
///     None => print_none(rt),
/// }
/// ```
pub fn words_of<'a>(alloc: Global, text: &'a str) -> Result<Option<LockfileWords<'a>>, AllocError>
    ensures { IfOk result
        (λ found. IfSome found (λ words. parse_document text.now ≡ Some (words_table words))) }
{
    let Some(rest) = after(
        text,
        "# This file is automatically @generated by Cargo.\n\
         # It is not intended for manual editing.\n",
    ) else {
        return Ok(None);
    };
    let (number, rest) = number(rest);
    let Some((packages, rest)) = packages(alloc, rest)? else {
        return Ok(None);
    };
    let Some((patches, rest)) = patches(alloc, rest)? else {
        return Ok(None);
    };
    let Some((metadata, rest)) = metadata(alloc, rest)? else {
        return Ok(None);
    };
    if is_end(rest) {
        return Ok(Some(LockfileWords {
            number,
            packages,
            patches,
            metadata,
        }));
    }
    Ok(None)
}
