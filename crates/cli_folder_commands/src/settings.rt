//! The settings that the arguments of `audit` name.
ghost use Rattle.std.specs.Prelude.{IfOk, map};
ghost use Rattle.std.specs.List.{AllZip};
ghost use Rattle.clap.specs.Matches.{found_of};
ghost use Rattle.cargo_lock_audit.specs.Settings.{settings_of};
ghost use Rattle.cli_folder_commands.specs.Settings.{AreSettings, NamesRegistry};

use crate::texts;
use crate::texts::refused;
use cargo_lock_audit::{Settings, registry_of};
use cargo_lock_parts::Error;
use cargo_lock_parts::package::SourceId;
use clap::ArgMatches;
use cli_support::Fault;
use std::alloc::Global;

/// What the option takes, as a fault says it.
const REGISTRY: &str =
    "--registry takes a registry as a lockfile names it, `registry+URL` or `sparse+URL`";

/// The settings that the arguments name. Fails if a URL is not that of a registry.
pub(crate) fn settings_of(alloc: Global, options: &ArgMatches<'_>) -> Result<Settings, Fault>
    ensures { IfOk result
        (λ settings. AreSettings (found_of options.now) (settings_of settings)) }
{
    let registries = registries(alloc, texts::among(options, "registry"))?;
    let ignored = texts::given(alloc, options, "ignore")?;
    let denied = texts::given(alloc, options, "deny")?;
    Ok(Settings {
        registries,
        ignored,
        denied,
    })
}

// Registries, each by its text. Fails if one of them does not read.
fn registries(alloc: Global, texts: &[&str]) -> Result<Vec<SourceId>, Fault>
    ensures { IfOk result (λ registries. AllZip NamesRegistry
        (map (λ text. text.now) texts.now) registries.items) }
{
    let mut all = Vec::new(alloc);
    for text in texts {
        all.push(registry(alloc, text)?)?;
    }
    Ok(all)
}

// The registry that a text names. Fails if it names none.
fn registry(alloc: Global, text: &str) -> Result<SourceId, Fault>
    ensures { IfOk result (NamesRegistry text.now) }
{
    match registry_of(alloc, text) {
        Ok(registry) => Ok(registry),
        Err(Error::Memory) => Err(Fault::Library(Error::Memory)),
        Err(_) => Err(refused(alloc, REGISTRY, text)),
    }
}
