//! The licences that a bill has of packages, by their manifests in a folder.
ghost use Rattle.std.specs.Prelude.{◌≡◌, IfOk, Some, codes, map, option_map, true};
ghost use Rattle.std.specs.List.{AllZip};
ghost use Rattle.clap.specs.Matches.{first_value, found_of};
ghost use Rattle.cargo_lock_bom.specs.Options as bill;
ghost use Rattle.cargo_lock_bom.specs.Options.{license_of};
ghost use Rattle.cargo_lock_licenses.specs.Grammar.{IsExpression, Tree};
ghost use Rattle.cargo_lock_licenses.specs.Printed.{printed};
ghost use Rattle.cargo_lock_licenses.specs.Subjects.{license_subject_of};
ghost use Rattle.cargo_lock_licenses.specs.Tokens.{tokens};
ghost use Rattle.cargo_lock_licenses.specs.Verdicts.{verdict_of};
ghost use Rattle.cli_folder_commands.specs.BillLicenses.{AreLicensesBy, AreLicensesOf, IsLicense};
ghost use Rattle.cli_folder_commands.specs.BillLicenses.{IsLicenseIf};
ghost use Rattle.cli_folder_commands.specs.BillLicenses.{IsReadable};
ghost use Rattle.cli_folder_commands.specs.BillLicenses as spec;

use crate::folders::manifests;
use crate::licenses::subjects_in;
use cargo_lock::package::Package;
use cargo_lock_bom::options::License;
use cargo_lock_licenses::{Expression, Subject, Verdict};
use clap::{Arg, ArgMatches};
use cli_folders::FirstFault;
use cli_support::Fault;
use std::alloc::{AllocError, Global};
use std::rt::Files;

/// The option, as help shows it.
const MANIFESTS_HELP: &str =
    "Adds licences, by the folder of `cargo vendor`, or registry/src of Cargo";

/// The option for the folder of manifests.
pub(crate) fn option<'a>(alloc: Global) -> Arg<'a> {
    manifests(alloc, MANIFESTS_HELP)
}

/// The licences of these packages, in their order, if the arguments name a folder of
/// manifests, and an empty list if they name none. Fails if the folder or a manifest is not read.
pub(crate) fn asked<R: Files + AllocGlobal>(
    rt: &R,
    options: &ArgMatches<'_>,
    packages: &[Package],
) -> Result<Vec<Option<License>>, Fault>
    ensures { IfOk result (λ licenses. AreLicensesBy
        (first_value (found_of options.now) (codes "manifests")) packages.now
        (map (option_map license_of) licenses.items)) }
{
    match options.get_str("manifests") {
        Some(folder) => licenses_in(rt, folder, packages),
        None => Ok(Vec::new(rt.alloc())),
    }
}

/// The licences of these packages, by their manifests in a folder.
fn licenses_in<R: Files + AllocGlobal>(
    rt: &R,
    folder: &str,
    packages: &[Package],
) -> Result<Vec<Option<License>>, Fault>
    ensures { IfOk result (λ licenses. AreLicensesOf packages.now
        (map (option_map license_of) licenses.items)) }
{
    let mut first = FirstFault::none();
    let subjects = subjects_in(rt, folder, packages, &mut first)?;
    match first.fault {
        Some(fault) => Err(fault),
        None => {
            let licenses = licenses_of(rt.alloc(), &subjects)?;
            Ok(licenses)
        }
    }
}

/// The licences of these subjects, in their order.
fn licenses_of(alloc: Global, subjects: &[Subject<'_>]) -> Result<Vec<Option<License>>, AllocError>
    ensures { IfOk result (λ licenses. AllZip IsLicense (map license_subject_of subjects.now)
        (map (option_map license_of) licenses.items)) }
{
    let mut licenses = Vec::with_capacity(alloc, subjects.len())?;
    for subject in subjects {
        licenses.push(license_of(alloc, subject)?)?;
    }
    Ok(licenses)
}

/// The licence of a subject, if its package has a source and its manifests agree on one.
fn license_of(alloc: Global, subject: &Subject<'_>) -> Result<Option<License>, AllocError>
    ensures { IfOk result
        (λ license. IsLicense (license_subject_of subject.now) (option_map license_of license)) }
{
    let package = subject.package;
    if package.source.is_none() {
        return Ok(None);
    }
    agreed(alloc, subject)
}

/// The licence on which the manifests of a subject agree, if they agree on one.
fn agreed(alloc: Global, subject: &Subject<'_>) -> Result<Option<License>, AllocError>
    ensures { IfOk result (λ license. IsLicenseIf true (license_subject_of subject.now)
        (option_map license_of license)) }
{
    let verdict = Verdict::of(alloc, subject, &[])?;
    license_in(alloc, &verdict)
}

/// The licence of a verdict that has one: an allowed expression, as it is printed, or a text that is
/// no expression.
fn license_in(alloc: Global, verdict: &Verdict<'_, '_>) -> Result<Option<License>, AllocError>
    ensures { IfOk result (λ license. IsReadable (verdict_of verdict.now)
        → option_map license_of license ≡ spec.license_in (verdict_of verdict.now)) }
{
    match *verdict {
        Verdict::Allowed(_, text) => printed_text(alloc, text),
        Verdict::NoExpression(_, text) => named(alloc, text),
        Verdict::NotAllowed(_, _) | Verdict::OnlyFile(_, _) => Ok(None),
        Verdict::NoLicense(_) | Verdict::NoManifest(_) | Verdict::Differ(_) => Ok(None),
    }
}

/// The expression in a text, as it is printed, if the text is one.
fn printed_text(alloc: Global, text: &str) -> Result<Option<License>, AllocError>
    ensures { IfOk result (λ made. (e : Tree) → IsExpression text.now e
        → option_map license_of made ≡ Some (bill.Expression (printed (tokens text.now)))) }
{
    match Expression::parse(alloc, text)? {
        Some(expression) => Ok(Some(License::Expression(format!(in alloc; "{expression}")?))),
        None => Ok(None),
    }
}

/// A text that is no expression.
fn named(alloc: Global, text: &str) -> Result<Option<License>, AllocError>
    ensures { IfOk result
        (λ made. option_map license_of made ≡ Some (bill.Named text.now)) }
{
    let name = String::from_str(alloc, text)?;
    Ok(Some(License::Named(name)))
}
