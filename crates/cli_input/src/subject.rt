//! A lockfile of which findings are printed.

ghost use Rattle.std.specs.Prelude.{◌≡◌, ◌⊎◌, ℕ, IfErr, IfOk, List, option_map, string_bytes};
ghost use Rattle.std.specs.Path.{StripsPrefix};
ghost use Rattle.clap.specs.Matches.{found_of};
ghost use Rattle.cli_input.specs.Told.{IsNameOfFile, IsPathFault, IsReportPath, IsReportPathFault};
ghost use Rattle.cli_input.specs.Told.{subject_of};
ghost use Rattle.cli_support.specs.declared.fault.Fault.TheVariants.{NameOfFile};
ghost use Rattle.cli_input.specs.Told as spec;

use crate::load::WithText;
use cargo_lock::Package;
use cargo_lock_display::File;
use clap::ArgMatches;
use cli_support::Fault;
use std::alloc::{AllocError, Global};
use std::env;
use std::env::Env;
use std::path::Path;

/// The path of a lockfile from standard input in reports, unless `--name` says another.
const DEFAULT_PATH: &str = "Cargo.lock";

/// A lockfile of which findings are printed.
#[derive(Clone, Copy)]
pub struct Subject<'a> {
    /// The lockfile, as a document has it.
    pub file: &'a File<'a>,

    /// Its path, as reports have it.
    pub path: &'a str,

    /// Its text.
    pub text: &'a str,

    /// Its packages. A text that is no lockfile has none.
    pub packages: &'a [Package],
}

impl<'a> Subject<'a> {
    /// A lockfile that was read, as a document has it, and at this path.
    pub fn of(file: &'a File<'a>, path: &'a str, read: &'a WithText) -> Subject<'a>
        ensures { subject_of result ≡ record {
          file = file.now;
          path = path.now;
          text = string_bytes read.now.text;
          packages = read.now.lockfile.packages;
        } }
    {
        let lockfile = &read.lockfile;
        Subject {
            file,
            path,
            text: read.text.as_str(),
            packages: lockfile.packages.as_slice(),
        }
    }
}

/// The path that `--name` gives to standard input, as it is printed, if it is given. Fails if it is
/// given for a file.
pub fn given_name<'a>(options: &ArgMatches<'a>, argument: &str) -> Result<Option<&'a str>, Fault>
    ensures ok { IfOk result (λ name.
        option_map (λ text. text.now) name ≡ spec.given_name (found_of options.now)) }
    ensures allowed { IfOk result (λ _. ¬ IsNameOfFile (found_of options.now) argument.now) }
    ensures err { IfErr result (λ fault.
        (fault ≡ NameOfFile) × IsNameOfFile (found_of options.now) argument.now) }
{
    match options.get_str("name") {
        None => Ok(None),
        Some(name) if argument == "-" => Ok(Some(name_of_standard(Some(name)))),
        Some(_) => Err(Fault::NameOfFile),
    }
}

/// The path of the lockfile of an argument, as it is printed with findings. If the arguments ask for
/// a report, standard input has the path of `--name`, and an absolute path below the working folder
/// becomes relative to it. Fails if `--name` is given for a file, or if the system does not say the
/// working folder where it is needed.
pub fn report_path<R: Env + AllocGlobal>(
    rt: &R,
    options: &ArgMatches<'_>,
    argument: &str,
) -> Result<String, Fault>
    ensures ok { IfOk result (λ path.
        IsReportPath (found_of options.now) argument.now (string_bytes path)) }
    ensures err { IfErr result (IsReportPathFault (found_of options.now) argument.now) }
{
    if options.get_str("format").is_none() {
        let path = String::from_str(rt.alloc(), argument)?;
        return Ok(path);
    }
    if argument == "-" {
        let path = String::from_str(rt.alloc(), name_of_standard(options.get_str("name")))?;
        return Ok(path);
    }
    if options.get_str("name").is_some() {
        return Err(Fault::NameOfFile);
    }
    path_of_file(rt, argument)
}

/// The name of standard input in reports: what `--name` says, unless that is empty.
fn name_of_standard(name: Option<&str>) -> &str
    ensures { result.now ≡ spec.name_of_standard (option_map (λ text. text.now) name.entry) }
{
    match name {
        Some(name) if !name.is_empty() => name,
        _ => DEFAULT_PATH,
    }
}

/// The path of a file in reports.
fn path_of_file<R: Env + AllocGlobal>(rt: &R, argument: &str) -> Result<String, Fault>
    ensures ok { IfOk result (λ path. (string_bytes path ≡ argument.now)
        ⊎ ((folder : List ℕ) × StripsPrefix argument.now folder (string_bytes path))) }
    ensures err { IfErr result (IsPathFault argument.now) }
{
    if Path::new(argument).is_absolute() {
        let folder = match env::current_dir(rt) {
            Ok(folder) => folder,
            Err(error) => return Err(Fault::of_system_call(error)),
        };
        let path = path_below(rt.alloc(), argument, folder.as_path())?;
        return Ok(path);
    }
    let path = String::from_str(rt.alloc(), argument)?;
    Ok(path)
}

/// A path relative to a folder, if it is below that folder, and otherwise the path itself.
fn path_below(alloc: Global, path: &str, folder: Path<'_>) -> Result<String, AllocError>
    ensures { IfOk result (λ below. (string_bytes below ≡ path.now)
        ⊎ ((folder : List ℕ) × StripsPrefix path.now folder (string_bytes below))) }
{
    match Path::new(path).strip_prefix(folder) {
        Ok(rest) => String::from_str(alloc, rest.as_str()),
        Err(_) => String::from_str(alloc, path),
    }
}
