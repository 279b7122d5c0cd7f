//! The texts that are given for an option, and the options for how findings are printed.
ghost use Rattle.std.specs.Prelude.{◌≡◌, IfOk, map, string_bytes};
ghost use Rattle.clap.specs.Matches.{found_of};
ghost use Rattle.cli_folder_commands.specs.Texts.{given_texts};

use cargo_lock_parts::Error;
use clap::{Arg, ArgAction, ArgMatches, Command};
use cli_support::terminal::in_line;
use cli_support::{Fault, words};
use std::alloc::{AllocError, Global};

/// An option for texts, one each time that it is given.
pub(crate) fn option<'a>(alloc: Global, name: &'a str, shown: &'a str) -> Arg<'a> {
    Arg::new(alloc, name)
        .long(name)
        .value_name(shown)
        .action(ArgAction::Append)
}

/// A parser with the options for how findings are printed.
pub(crate) fn with_forms<'a>(
    alloc: Global,
    command: Command<'a>,
) -> Result<Command<'a>, AllocError> {
    command
        .arg(words::json(alloc)?)?
        .arg(words::format(alloc)?)?
        .arg(words::name(alloc)?)
}

/// The texts that are given for this option, as they stand among the arguments.
pub(crate) fn among<'a>(options: &'a ArgMatches<'_>, name: &str) -> &'a [&'a str]
    ensures { map (λ text. text.now) result.now ≡ given_texts (found_of options.now) name.now }
{
    options.get_strs(name).unwrap_or(&[])
}

/// The same as texts of their own. Fails when out of memory.
pub(crate) fn given(
    alloc: Global,
    options: &ArgMatches<'_>,
    name: &str,
) -> Result<Vec<String>, AllocError>
    ensures { IfOk result
        (λ texts. map string_bytes texts.items ≡ given_texts (found_of options.now) name.now) }
{
    match options.get_strs(name) {
        Some(texts) => owned(alloc, texts),
        None => Ok(Vec::new(alloc)),
    }
}

fn owned(alloc: Global, texts: &[&str]) -> Result<Vec<String>, AllocError>
    ensures { IfOk result
        (λ owned. map string_bytes owned.items ≡ map (λ text. text.now) texts.now) }
{
    let mut owned = Vec::with_capacity(alloc, texts.len())?;
    for text in texts {
        owned.push(String::from_str(alloc, text)?)?;
    }
    Ok(owned)
}

/// The fault of words that an option does not take.
pub(crate) fn refused(alloc: Global, takes: &str, words: &str) -> Fault {
    match refusal(alloc, takes, words) {
        Ok(text) => Fault::Refused(text),
        Err(_) => Fault::Library(Error::Memory),
    }
}

fn refusal(alloc: Global, takes: &str, words: &str) -> Result<String, AllocError> {
    let words = in_line(alloc, words)?;
    format!(in alloc; "{takes}, not `{words}`")
}
