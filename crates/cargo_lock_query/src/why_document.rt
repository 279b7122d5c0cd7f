//! Why packages are in a lockfile, as a document of JSON.

ghost use Rattle.std.specs.Prelude.{◌≡◌, ◌∷◌, IfOk, codes, map, string_bytes};
ghost use Rattle.json.specs.Token.{key};
ghost use Rattle.json.specs.Tree.{json_tokens};
ghost use Rattle.cargo_lock_query.specs.Lines.{answer_of};
ghost use Rattle.printing.specs.Json.{Adds, IsJsonText};
ghost use Rattle.cargo_lock_query.specs.WhyDocument.{needed_by_json, package_in};
ghost use Rattle.cargo_lock_query.specs.WhyDocument as spec;

use crate::lines::Answer;
use cargo_lock_display::{File, list_document, put_package, put_packages};
use cargo_lock_parts::package::Package;
use printing::{JsonWriter, ToJson};
use std::alloc::{AllocError, Global};

/// The document of why packages are in a lockfile, in one line:
/// `{"schema":"cargo-lock-why/1","path":"Cargo.lock","format":4,"answers":[..]}`. Fails when out of
/// memory.
///
/// ```
/// let text = answers_json(rt.alloc(), &file, &answers.answers)?;
/// ```
pub fn answers_json(
    alloc: Global,
    file: &File<'_>,
    answers: &[Answer<'_>],
) -> Result<String, AllocError>
    ensures { IfOk result (λ text. IsJsonText
        (spec.answers_json file.now (map answer_of answers.now)) (string_bytes text)) }
{
    list_document(alloc, "cargo-lock-why/1", file, "answers", answers)
}

impl ToJson for Answer<'_> {
    ghost use Rattle.cargo_lock_query.specs.Lines.{answer_of};
    ghost use Rattle.cargo_lock_query.specs.WhyDocument.{answer_json};

    ghost json = { λ answer. answer_json (answer_of answer) };

    fn write_json(&self, out: &mut JsonWriter) -> Result<(), AllocError> {
        out.begin_object()?;
        out.key("package")?;
        put_package(out, package(self))?;
        put_needed_by(out, self)?;
        out.end_object()
    }
}

// The package that an answer is about.
fn package<'a>(answer: &Answer<'a>) -> &'a Package
    ensures { result.now ≡ package_in (answer_of answer.now) }
{
    match answer {
        Answer::Needed(package, _) | Answer::Nothing(package) => package,
    }
}

// Writes the member with the other packages of the chain of an answer.
fn put_needed_by(out: &mut JsonWriter, answer: &Answer<'_>) -> Result<(), AllocError>
    ensures { Adds result out.old out.new (key (codes "needed_by")
        ∷ json_tokens (needed_by_json (answer_of answer.now))) }
{
    out.key("needed_by")?;
    match answer {
        Answer::Needed(_, needers) => put_packages(out, needers),
        Answer::Nothing(_) => out.null(),
    }
}
