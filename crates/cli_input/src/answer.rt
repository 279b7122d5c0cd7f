//! What commands answer about a lockfile: lines, or a document of JSON.
ghost use Rattle.std.specs.Prelude.{IfSome, OnOk, map};
ghost use Rattle.clap.specs.Matches.{found_of};
ghost use Rattle.cli_input.specs.Json.{PrintsAnswer};

use cargo_lock_display::File;
use cargo_lock_query::{Answers, Listing, answers_json, groups_json};
use clap::ArgMatches;
use cli_support::Fault;
use cli_support::output::put;
use std::alloc::{AllocError, Global};
use std::fmt;
use std::io::Write;

/// What a command answers about a lockfile. `Display` writes its lines.
pub trait Answer: fmt::Display {
    ghost use Rattle.std.specs.Prelude.{IfOk, string_bytes};
    ghost use Rattle.json.specs.Json.{Json};
    ghost use Rattle.printing.specs.Json.{IsJsonText};
    ghost use Rattle.cargo_lock_display.specs.File.{FileData};

    ghost json: { FileData → Self → Json };

    /// The answer about this lockfile as a document of JSON, in one line. Fails when out of memory.
    fn document(&self, alloc: Global, file: &File<'_>) -> Result<String, AllocError>
        ensures { IfOk result (λ text. IsJsonText (json file.now self.now) (string_bytes text)) };
}

/// Prints an answer about a lockfile as the arguments ask for it: its document and a newline, or its
/// lines. Fails if `out` fails, and, before anything is written, when out of memory.
pub fn print_answer<A: Answer, W: Write>(
    alloc: Global,
    options: &ArgMatches<'_>,
    file: &File<'_>,
    answer: &A,
    out: &mut W,
) -> Result<(), Fault>
    ensures { OnOk result (IfSome (A.output answer.now) (λ lines. PrintsAnswer
        (found_of options.now) (A.json file.now answer.now) lines
        (W.contents out.old) (W.contents out.new))) }
{
    if options.get_flag("json") {
        let text = answer.document(alloc, file)?;
        put(out, format_args!("{text}\n"))?;
        Ok(())
    } else {
        put(out, format_args!("{answer}"))?;
        Ok(())
    }
}

// ---- the answers of commands

impl Answer for Answers<'_> {
    ghost use Rattle.cargo_lock_query.specs.Lines.{answer_of};
    ghost use Rattle.cargo_lock_query.specs.WhyDocument.{answers_json};

    ghost json = { λ file answers. answers_json file (map answer_of answers.answers.items) };

    fn document(&self, alloc: Global, file: &File<'_>) -> Result<String, AllocError> {
        answers_json(alloc, file, &self.answers)
    }
}

impl Answer for Listing<'_> {
    ghost use Rattle.cargo_lock_query.specs.Tally.{group_of_rows};
    ghost use Rattle.cargo_lock_query.specs.DuplicatesDocument.{groups_json};

    ghost json = { λ file listing. groups_json file (map group_of_rows listing.groups.items) };

    fn document(&self, alloc: Global, file: &File<'_>) -> Result<String, AllocError> {
        groups_json(alloc, file, &self.groups)
    }
}
