//! The policy that the arguments of `licenses` name.
ghost use Rattle.std.specs.Prelude.{◌≡◌, IfOk, Some, map, string_bytes};
ghost use Rattle.std.specs.List.{AllZip};
ghost use Rattle.clap.specs.Matches.{found_of};
ghost use Rattle.cargo_lock_licenses.specs.Policy.{ReadsExemption, ReadsGiven, exemption_of};
ghost use Rattle.cargo_lock_licenses.specs.Policy.{given_of};
ghost use Rattle.cargo_lock_licenses.specs.Policy as spec;
ghost use Rattle.cargo_lock_licenses.specs.Terms.{IsTerm};
ghost use Rattle.cli_folder_commands.specs.Policy.{IsExemptionBy, IsGivenBy, IsPolicy, IsTermBy};

use crate::texts;
use crate::texts::refused;
use cargo_lock_licenses::{Exemption, Given, Policy, is_term};
use clap::ArgMatches;
use cli_support::Fault;
use std::alloc::Global;

/// What each option takes, as a fault says it.
const ALLOW: &str = "--allow takes one term, as `MIT` or `Apache-2.0 WITH LLVM-exception`";

const LICENSE: &str = "--license takes NAME@VERSION=EXPRESSION";

const EXEMPT: &str = "--exempt takes NAME=TERM or NAME@VERSION=TERM, with one term";

/// The policy that the arguments name. Fails if one of their words does not read.
pub(crate) fn policy_of(alloc: Global, options: &ArgMatches<'_>) -> Result<Policy, Fault>
    ensures { IfOk result (λ policy. IsPolicy (found_of options.now) (spec.policy_of policy)) }
{
    let allowed = terms(alloc, texts::among(options, "allow"))?;
    let given = all_given(alloc, texts::among(options, "license"))?;
    let exemptions = all_exemptions(alloc, texts::among(options, "exempt"))?;
    Ok(Policy {
        allowed,
        given,
        exemptions,
    })
}

// Texts that are terms. Fails if one is none.
fn terms(alloc: Global, texts: &[&str]) -> Result<Vec<String>, Fault>
    ensures { IfOk result (λ terms. AllZip IsTermBy (map (λ text. text.now) texts.now)
        (map string_bytes terms.items)) }
{
    let mut terms = Vec::new(alloc);
    for text in texts {
        terms.push(term(alloc, text)?)?;
    }
    Ok(terms)
}

// A text that is a term. Fails if it is none.
fn term(alloc: Global, text: &str) -> Result<String, Fault>
    ensures { IfOk result (λ term. IsTermBy text.now (string_bytes term)) }
{
    if !is_term(alloc, text)? {
        return Err(refused(alloc, ALLOW, text));
    }
    let term = String::from_str(alloc, text)?;
    Ok(term)
}

// What is given by words. Fails if one of them does not read.
fn all_given(alloc: Global, texts: &[&str]) -> Result<Vec<Given>, Fault>
    ensures { IfOk result (λ given. AllZip IsGivenBy (map (λ text. text.now) texts.now)
        (map given_of given.items)) }
{
    let mut all = Vec::new(alloc);
    for text in texts {
        all.push(given(alloc, text)?)?;
    }
    Ok(all)
}

// What is given by words. Fails if they do not read.
fn given(alloc: Global, words: &str) -> Result<Given, Fault>
    ensures { IfOk result (λ given. ReadsGiven words.now (Some (given_of given))) }
{
    match Given::parse(alloc, words)? {
        Some(given) => Ok(given),
        None => Err(refused(alloc, LICENSE, words)),
    }
}

// The exemptions of words. Fails if one of them does not read.
fn all_exemptions(alloc: Global, texts: &[&str]) -> Result<Vec<Exemption>, Fault>
    ensures { IfOk result (λ exemptions. AllZip IsExemptionBy (map (λ text. text.now) texts.now)
        (map exemption_of exemptions.items)) }
{
    let mut all = Vec::new(alloc);
    for text in texts {
        all.push(exemption(alloc, text)?)?;
    }
    Ok(all)
}

// The exemption of words. Fails if they do not read.
fn exemption(alloc: Global, words: &str) -> Result<Exemption, Fault>
    ensures { IfOk result
        (λ exemption. ReadsExemption words.now (Some (exemption_of exemption))) }
{
    match Exemption::parse(alloc, words)? {
        Some(exemption) => Ok(exemption),
        None => Err(refused(alloc, EXEMPT, words)),
    }
}
