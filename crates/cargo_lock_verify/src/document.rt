//! What the documents of `verify` have in common.

ghost use Rattle.std.specs.Prelude.{◌≡◌, ◌≤◌, ◌∷◌, [], IfOk, codes, map, string_bytes};
ghost use Rattle.json.specs.Token.{key};
ghost use Rattle.json.specs.Tree.{depth, json_tokens};
ghost use Rattle.printing.specs.Json.{Adds, IsJsonText};
ghost use Rattle.cargo_lock_verify.specs.Document.{compared_json};
ghost use Rattle.cargo_lock_verify.specs.Document.{missing_key, not_compared_key, passed_over};

use crate::class::Counts;
use cargo_lock_display::{File, begin_document};
use printing::{JsonWriter, ToJson, json_line, write_array};
use std::alloc::{AllocError, Global};

// What packages are compared with.
#[derive(Debug, Clone, Copy, PartialEq, Eq)]
pub(crate) enum Compared {
    // Archives, of which so many are passed over.
    Archives(usize),

    // Folders.
    Folders,
}

impl Compared {
    // The key of the number of the packages that have no archive, or no folder.
    fn missing_key(self) -> &'static str
        ensures { result.now ≡ missing_key self }
    {
        match self {
            Compared::Archives(_) => "without_archive",
            Compared::Folders => "without_folder",
        }
    }

    // The key of the number of the packages of which there is nothing to compare.
    fn not_compared_key(self) -> &'static str
        ensures { result.now ≡ not_compared_key self }
    {
        match self {
            Compared::Archives(_) => "without_registry",
            Compared::Folders => "without_source",
        }
    }

    // Writes the member with how many archives are passed over, or null for folders.
    fn put_passed_over(self, out: &mut JsonWriter) -> Result<(), AllocError>
        ensures { Adds result out.old out.new
            (key (codes "archives_of_others") ∷ json_tokens (passed_over self)) }
    {
        match self {
            Compared::Archives(others) => out.number_member("archives_of_others", others as u64),
            Compared::Folders => out.null_member("archives_of_others"),
        }
    }
}

// The document of what is found of the packages of a lockfile, with how many are in each class, in one
// line. A reader of JSON follows 127 levels, of which the document has two. Fails when out of memory.
pub(crate) fn compared_document<T: ToJson>(
    alloc: Global,
    file: &File<'_>,
    compared: Compared,
    counts: Counts,
    findings: &[T],
) -> Result<String, AllocError>
    requires { (finding : T) → depth (T.json finding) ≤ 125 }
    ensures { IfOk result (λ text. IsJsonText
        (compared_json compared file.now counts (map T.json findings.now)) (string_bytes text)) }
{
    let document = Comparison {
        file,
        compared,
        counts,
        findings,
    };
    json_line(alloc, &document)
}

// What the document has.
#[derive(Clone, Copy)]
struct Comparison<'d, T> {
    file: &'d File<'d>,
    compared: Compared,
    counts: Counts,
    findings: &'d [T],
}

impl<T: ToJson> ToJson for Comparison<'_, T> {
    ghost use Rattle.std.specs.Prelude.{map};
    ghost use Rattle.cargo_lock_verify.specs.Document.{compared_json};

    ghost json = { λ d. compared_json d.compared d.file.now d.counts (map T.json d.findings.now) };

    fn write_json(&self, out: &mut JsonWriter) -> Result<(), AllocError> {
        begin_document(out, "cargo-lock-verify/2", self.file)?;
        out.number_member("matches", self.counts.matches as u64)?;
        out.number_member("changed", self.counts.changed as u64)?;
        out.number_member(self.compared.missing_key(), self.counts.missing as u64)?;
        out.number_member("without_checksum", self.counts.without_checksum as u64)?;
        let not_compared = self.compared.not_compared_key();
        out.number_member(not_compared, self.counts.not_compared as u64)?;
        self.compared.put_passed_over(out)?;
        out.key("findings")?;
        write_array(out, self.findings)?;
        out.end_object()
    }
}
