//! The command `check` of several lockfiles.
ghost use Rattle.std.specs.Prelude.{◌≡◌, ◌≢◌, ◌++◌, ◌∷◌, [], IfErr, IfOk, List, None, OnOk, Option};
ghost use Rattle.std.specs.Prelude.{Some, length, map, option_map, string_bytes, unwrap_or};
ghost use Rattle.std.specs.List.{AllZip};
ghost use Rattle.std.specs.Process.{exit_status};
ghost use Rattle.clap.specs.Matches.{found_of};
ghost use Rattle.cli.specs.Check.{CheckedData, IsCheckedAs, IsCheckedOne, IsFindingsStatus};
ghost use Rattle.cli.specs.Check.{IsOutcome, IsSeveralOf, PrintsSeveral};
ghost use Rattle.cli.specs.Ending.{IsEnd, counts_in, status_in};
ghost use Rattle.cli_input.specs.declared.findings.Form as declared;

use crate::check::ended;
use crate::checked::{Checked, Named, checked_text};
use crate::counts::counts_line;
use crate::ending::Ended;
use cargo_lock::Error;
use clap::ArgMatches;
use cli_input::findings::{Form, Told, asked_form, print_told};
use cli_input::load::text_at;
use cli_input::subject::{given_name, report_path};
use cli_support::Fault;
use std::alloc::{AllocError, Global};
use std::env::Env;
use std::io::{Input, Write};
use std::process::ExitCode;
use std::rt::Files;

/// What is found in several lockfiles.
#[derive(Drop)]
struct Several {
    /// What is found in those that were read.
    checked: Checked,

    /// The faults of the others, in their order.
    faults: Vec<Fault>,
}

/// Prints what is wrong with the lockfiles at these paths, in their order. Each line of a finding has
/// the path before it; of JSON there is a line for each lockfile, and a report is one for all. A
/// lockfile that is not read is passed over, and the status is then 2. Fails if standard input is
/// named more than once, or if `out` fails.
pub(crate) fn check_several<R: Files + Input + Env + AllocGlobal, W: Write>(
    rt: &R,
    options: &ArgMatches<'_>,
    arguments: &[&str],
    out: &mut W,
) -> Result<Ended, Fault>
    ensures printed { IfOk result (λ ended. PrintsSeveral (found_of options.now)
        (map (λ a. a.now) arguments.now) (counts_in ended)
        (W.contents out.old) (W.contents out.new)
        (status_in ended ≡ ExitCode.FAILURE) (status_in ended ≡ ExitCode.SUCCESS)
        (exit_status (status_in ended) ≡ 2)) }
    ensures end { IfOk result IsEnd }
{
    if count_of_standard(arguments) > 1 {
        return Err(Fault::OneInput);
    }
    let form = asked_form(options);
    let several = several_at(rt, options, form, arguments)?;
    let checked = &several.checked;
    let counts = counts_line(rt.alloc(), checked.packages, checked.findings)?;
    print_told(rt.alloc(), form, &checked.told, out)?;
    Ok(several.ended(counts))
}

/// How many of these arguments are standard input.
fn count_of_standard(arguments: &[&str]) -> usize {
    arguments
        .iter()
        .filter(|argument| **argument == "-")
        .count()
}

/// What is found in the lockfiles at these paths.
fn several_at<R: Files + Input + Env + AllocGlobal>(
    rt: &R,
    options: &ArgMatches<'_>,
    form: Form,
    arguments: &[&str],
) -> Result<Several, AllocError>
    ensures { IfOk result (λ several. (outcomes : List (Option CheckedData))
        × AllZip (IsOutcome (found_of options.now)) (map (λ a. a.now) arguments.now) outcomes
        × IsSeveralOf form outcomes several) }
{
    let mut several = Several {
        checked: Checked::nothing(rt.alloc()),
        faults: Vec::new(rt.alloc()),
    };
    for argument in arguments {
        several.add(checked_at(rt, options, form, argument))?;
    }
    Ok(several)
}

impl Several {
    /// How `check` ends where this is found, with this line of counts.
    fn ended(self, counts: String) -> Ended
        ensures read { length self.faults.items ≡ 0 → IsFindingsStatus self.checked.findings
            (status_in result ≡ ExitCode.FAILURE) (status_in result ≡ ExitCode.SUCCESS) }
        ensures unread { length self.faults.items ≢ 0 → exit_status (status_in result) ≡ 2 }
        ensures counts { counts_in result ≡ string_bytes counts }
        ensures end { IsEnd result }
    {
        let Several { checked, faults } = self;
        if faults.is_empty() {
            return ended(checked.findings, counts);
        }
        Ended::Failed(ExitCode::from(2), faults, counts)
    }

    /// Adds what is found in one more lockfile, or the fault of it. Fails when out of memory, which is
    /// the fault of no lockfile.
    fn add(&mut self, outcome: Result<Checked, Fault>) -> Result<(), AllocError>
        ensures ok { IfOk outcome (λ checked. OnOk result
            ((form : declared.Form) (before : List (Option CheckedData)) (c : CheckedData)
            → IsSeveralOf form before self.old → IsCheckedOne form c checked
            → IsSeveralOf form (before ++ Some c ∷ []) self.new)) }
        ensures err { IfErr outcome (λ _. OnOk result
            ((form : declared.Form) (before : List (Option CheckedData))
            → IsSeveralOf form before self.old
            → IsSeveralOf form (before ++ None ∷ []) self.new)) }
    {
        match outcome {
            Ok(checked) => self.checked.append(checked),
            Err(Fault::Library(Error::Memory)) => Err(AllocError),
            Err(fault) => {
                self.faults.push(fault)?;
                Ok(())
            }
        }
    }
}

impl Checked {
    /// What is found where nothing is looked at.
    fn nothing(alloc: Global) -> Checked
        ensures { (form : declared.Form) → IsCheckedAs form [] result }
    {
        Checked {
            told: Told::nothing(alloc),
            packages: 0,
            findings: 0,
        }
    }

    /// Adds what is found in one more lockfile. Fails when out of memory.
    fn append(&mut self, more: Checked) -> Result<(), AllocError>
        ensures { OnOk result ((form : declared.Form) (before : List CheckedData)
            (c : CheckedData) → IsCheckedAs form before self.old → IsCheckedOne form c more
            → IsCheckedAs form (before ++ c ∷ []) self.new) }
    {
        let Checked {
            told,
            packages,
            findings,
        } = more;
        self.told.append(told)?;
        self.packages = self.packages.saturating_add(packages);
        self.findings = self.findings.saturating_add(findings);
        Ok(())
    }
}

/// What is found in the lockfile at this path. Its lines have the path before them, and those of
/// standard input what `--name` says.
fn checked_at<R: Files + Input + Env + AllocGlobal>(
    rt: &R,
    options: &ArgMatches<'_>,
    form: Form,
    argument: &str,
) -> Result<Checked, Fault>
    ensures { IfOk result (λ checked. (c : CheckedData)
        × IsOutcome (found_of options.now) argument.now (Some c)
        × IsCheckedOne form c checked) }
{
    let name = name_among(given_name(options, argument)?, argument);
    let path = report_path(rt, options, argument)?;
    let text = text_at(rt, options, argument, name)?;
    let named = Named {
        argument,
        path: path.as_str(),
        prefix: Some(name),
    };
    checked_text(rt.alloc(), options, form, named, text.as_str())
}

/// The name of one of several lockfiles: what `--name` says, or else the argument.
fn name_among<'a>(given: Option<&'a str>, argument: &'a str) -> &'a str
    ensures { result.now ≡ unwrap_or (option_map (λ text. text.now) given.entry) argument.now }
{
    match given {
        Some(name) => name,
        None => argument,
    }
}
