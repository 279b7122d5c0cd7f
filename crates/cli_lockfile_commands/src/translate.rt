//! The command `translate`: a lockfile in another format.
ghost use Rattle.std.specs.Prelude.{◌≡◌, ◌⊎◌, IfErr, IfOk, IsOkUnless, Ok, OnOk};
ghost use Rattle.std.specs.Prelude.{codes, string_bytes, unwrap_or};
ghost use Rattle.clap.specs.Matches.{first_value, found_of};
ghost use Rattle.cargo_lock_parts.specs.declared.error.Error.TheVariants.{Memory};
ghost use Rattle.cargo_lock_references.specs.Format.{number_of};
ghost use Rattle.cargo_lock_lines.specs.Layout.{join_lines};
ghost use Rattle.cargo_lock_encoding.specs.Text.{lines_of};
ghost use Rattle.cargo_lock_encoding.specs.Survives.{Survives, in_format};
ghost use Rattle.cargo_lock.specs.Printed.{TextReadsBack};
ghost use Rattle.cli_support.specs.declared.fault.Fault.TheVariants.{Library, DoesNotSurvive};
ghost use Rattle.cli_support.specs.declared.fault.Fault.TheVariants.{TextDoesNotSurvive};
ghost use Rattle.cli_input.specs.Json.{IsUnasked};
ghost use Rattle.cli_lockfile_commands.specs.Translate.{IsCheckAsked, IsTextCheckAsked, PrintsTranslation};

use cargo_lock::{Error, Lockfile, ResolveVersion};
use clap::{ArgMatches, Command};
use cli_input::load::lockfile;
use cli_support::Fault;
use cli_support::destination::put_out;
use cli_support::words::{any_size, file, long_flag, output, value};
use std::alloc::{AllocError, Global};
use std::io::{Input, Write};
use std::rt::Files;

/// The format that is written if the arguments name none.
const DEFAULT_FORMAT: &str = "3";

/// What `--check` does, as help shows it.
const CHECK_HELP: &str =
    "Refuses a lockfile whose table, written in the format, does not read back";

/// What `--check-text` does, as help shows it.
const CHECK_TEXT_HELP: &str =
    "Refuses a lockfile whose text, written in the format, does not read back; take this one: a \
root, and the replacement of a package with dependencies, are in the table and in no text";

/// The parser of this command: its options.
pub fn command<'a>(alloc: Global) -> Result<Command<'a>, AllocError> {
    Command::new(alloc, "translate")
        .args_override_self(true)
        .about("Writes a lockfile in another format")
        .arg(file(alloc))?
        .arg(any_size(alloc)?)?
        .arg(output(alloc))?
        .arg(
            value(alloc, "version", 'v', "FORMAT")
                .default_value(DEFAULT_FORMAT)
                .help("The format, 1 to 4"),
        )?
        .arg(long_flag(alloc, "check")?.help(CHECK_HELP))?
        .arg(long_flag(alloc, "check-text")?.help(CHECK_TEXT_HELP))
}

/// The text of the format that is written.
fn format_text<'a>(options: &ArgMatches<'a>) -> &'a str
    ensures { result.now
        ≡ unwrap_or (first_value (found_of options.now) (codes "version")) (codes "3") }
{
    options.get_str("version").unwrap_or(DEFAULT_FORMAT)
}

/// Writes the lockfile in the format that is asked for: into the output file, or to `out` with one
/// more newline. The format is read before the file. Fails if either is not read, if the arguments
/// ask for a check and the lockfile does not survive the format or its text does not read back, and
/// if the output fails.
pub fn run<R: Files + Input + AllocGlobal, W: Write>(
    rt: &R,
    options: &ArgMatches<'_>,
    out: &mut W,
) -> Result<(), Fault>
    ensures translation { OnOk result
        (PrintsTranslation (found_of options.now) (W.contents out.old) (W.contents out.new)) }
{
    let format = ResolveVersion::from_str(rt.alloc(), format_text(options))?;
    let lockfile = lockfile(rt, options, "file")?;
    check_if_asked(rt.alloc(), options, &lockfile, format)?;
    let text = text_in(rt.alloc(), lockfile, format)?;
    put_out(rt, options, text.as_str(), "\n", out)
}

/// Refuses a lockfile that does not survive the format if the arguments ask for that, and one whose
/// text in the format does not read back if they ask for that.
fn check_if_asked(
    alloc: Global,
    options: &ArgMatches<'_>,
    lockfile: &Lockfile,
    format: ResolveVersion,
) -> Result<(), Fault>
    ensures table { OnOk result
        (IsCheckAsked (found_of options.now) → Survives lockfile.now format) }
    ensures text { OnOk result
        (IsTextCheckAsked (found_of options.now) → TextReadsBack lockfile.now format) }
    ensures unasked { IsUnasked (found_of options.now) (codes "check")
        → IsUnasked (found_of options.now) (codes "check-text") → result ≡ Ok tt }
{
    if options.get_flag("check") {
        check(alloc, lockfile, format)?;
    }
    if options.get_flag("check-text") {
        check_text(alloc, lockfile, format)?;
    }
    Ok(())
}

/// Refuses a lockfile that does not survive the format.
fn check(alloc: Global, lockfile: &Lockfile, format: ResolveVersion) -> Result<(), Fault>
    ensures ok { OnOk result (Survives lockfile.now format) }
    ensures err { IfErr result (λ fault. (fault ≡ Library Memory)
        ⊎ ((fault ≡ DoesNotSurvive (number_of format)) × (¬ Survives lockfile.now format))) }
{
    if lockfile.survives(alloc, format)? {
        Ok(())
    } else {
        Err(Fault::DoesNotSurvive(u32::from(format)))
    }
}

/// Refuses a lockfile whose text, written in the format, does not read back.
fn check_text(alloc: Global, lockfile: &Lockfile, format: ResolveVersion) -> Result<(), Fault>
    ensures ok { OnOk result (TextReadsBack lockfile.now format) }
    ensures err { IfErr result (λ fault. (fault ≡ Library Memory)
        ⊎ ((fault ≡ TextDoesNotSurvive (number_of format))
        × (¬ TextReadsBack lockfile.now format))) }
{
    if lockfile.survives_as_text(alloc, format)? {
        Ok(())
    } else {
        Err(Fault::TextDoesNotSurvive(u32::from(format)))
    }
}

/// The text of the lockfile in another format.
fn text_in(alloc: Global, lockfile: Lockfile, format: ResolveVersion) -> Result<String, Error>
    ensures ok { IfOk result
        (λ text. string_bytes text ≡ join_lines (lines_of (in_format format lockfile))) }
    ensures err { IsOkUnless result Memory }
{
    let mut lockfile = lockfile;
    lockfile.version = format;
    lockfile.to_string(alloc)
}
