//! The command `list`: the packages of a lockfile, one line each.
ghost use Rattle.std.specs.Prelude.{◌≡◌, ◌++◌, None, OnOk, codes, if◌then◌else◌};
ghost use Rattle.std.specs.Prelude.{option_copied, option_map};
ghost use Rattle.std.specs.Io.KnownBytes.{Appends};
ghost use Rattle.std.specs.List.{flat_map};
ghost use Rattle.clap.specs.Matches.{found_of};
ghost use Rattle.semver.specs.Identifiers.{parts_of, parts_text};
ghost use Rattle.cargo_lock_parts.specs.Identity.{source_part};
ghost use Rattle.cli_lockfile_commands.specs.List.{PrintsList, identity_line, is_wanted, list_text};
ghost use Rattle.cli_lockfile_commands.specs.List.{listed_package_lines};

use cargo_lock::{Dependency, Name, Package, SourceId, Version};
use clap::{ArgMatches, Command};
use cli_input::load::lockfile;
use cli_support::Fault;
use cli_support::output::put;
use cli_support::words::{any_size, file, flag, value};
use std::alloc::{AllocError, Global};
use std::io::{Input, Write};
use std::rt::Files;

/// The parser of this command: its options.
pub fn command<'a>(alloc: Global) -> Result<Command<'a>, AllocError> {
    Command::new(alloc, "list")
        .args_override_self(true)
        .about("Lists the packages of a lockfile")
        .arg(file(alloc))?
        .arg(any_size(alloc)?)?
        .arg(value(alloc, "package", 'p', "NAME").help("Lists only the packages of this name"))?
        .arg(flag(alloc, "dependencies", 'd')?.help("Lists the dependencies of each package"))?
        .arg(flag(alloc, "sources", 's')?.help("Shows where each comes from"))
}

/// What is printed of a package besides its name and version.
#[derive(Clone, Copy)]
struct Detail {
    dependencies: bool,
    sources: bool,
}

/// Prints each package of the lockfile in list order, or each with the name that is asked for.
/// Fails if the lockfile is not read or `out` fails; a prefix of the text was then written.
pub fn run<R: Files + Input + AllocGlobal, W: Write>(
    rt: &R,
    options: &ArgMatches<'_>,
    out: &mut W,
) -> Result<(), Fault>
    ensures { OnOk result
        (PrintsList (found_of options.now) (W.contents out.old) (W.contents out.new)) }
{
    let detail = Detail {
        dependencies: options.get_flag("dependencies"),
        sources: options.get_flag("sources"),
    };
    let wanted = options.get_str("package");
    let lockfile = lockfile(rt, options, "file")?;
    print_packages(out, lockfile.packages.as_slice(), wanted, detail)
}

/// Prints each of the packages, or each with the name that is asked for.
fn print_packages<W: Write>(
    out: &mut W,
    packages: &[Package],
    wanted: Option<&str>,
    detail: Detail,
) -> Result<(), Fault>
    ensures { OnOk result (Appends (W.contents out.old) (W.contents out.new)
        (list_text detail.dependencies detail.sources (option_copied wanted.entry)
        packages.now)) }
{
    for package in packages {
        if is_wanted(package, wanted) {
            print_package(out, package, detail)?;
        }
    }
    Ok(())
}

/// Whether the package has the name that is asked for. If no name is, each package is wanted.
fn is_wanted(package: &Package, wanted: Option<&str>) -> bool
    ensures { result ≡ is_wanted (option_copied wanted.entry) «package».now }
{
    match wanted {
        Some(name) => package.name.as_str() == name,
        None => true,
    }
}

/// Prints a package, and its dependencies if they are asked for.
fn print_package<W: Write>(out: &mut W, package: &Package, detail: Detail) -> Result<(), Fault>
    ensures { OnOk result (Appends (W.contents out.old) (W.contents out.new)
        (listed_package_lines detail.dependencies detail.sources «package».now)) }
{
    let source = shown_source(&package.source, detail.sources);
    print_identity(out, "- ", &package.name, &package.version, source)?;
    if detail.dependencies {
        print_dependencies(out, package.dependencies.as_slice(), detail.sources)?;
    }
    Ok(())
}

/// The source, if sources are asked for and there is one.
fn shown_source(source: &Option<SourceId>, sources: bool) -> Option<&SourceId>
    ensures { option_map (λ s. s.now) result ≡ if sources then source.now else None }
{
    if sources { source.as_ref() } else { None }
}

/// Prints the dependencies of a package in their order, one line each.
fn print_dependencies<W: Write>(
    out: &mut W,
    dependencies: &[Dependency],
    sources: bool,
) -> Result<(), Fault>
    ensures { OnOk result (Appends (W.contents out.old) (W.contents out.new)
        (flat_map (identity_line (codes "  - ") sources) dependencies.now)) }
{
    for dependency in dependencies {
        let source = shown_source(&dependency.source, sources);
        print_identity(out, "  - ", &dependency.name, &dependency.version, source)?;
    }
    Ok(())
}

/// Prints what a line begins with, a name, a version and, if there is one, a source in round
/// brackets, and ends the line.
fn print_identity<W: Write>(
    out: &mut W,
    start: &str,
    name: &Name,
    version: &Version,
    source: Option<&SourceId>,
) -> Result<(), Fault>
    ensures { OnOk result (Appends (W.contents out.old) (W.contents out.new)
        (start.now ++ (name.now ++ codes " " ++ parts_text (parts_of version.now)
        ++ source_part (option_map (λ s. s.now) source.entry)) ++ codes "\n")) }
{
    put(out, format_args!("{start}{name} {version}"))?;
    print_source(out, source)?;
    put(out, "\n")?;
    Ok(())
}

/// Prints a source in round brackets, if there is one.
fn print_source<W: Write>(out: &mut W, source: Option<&SourceId>) -> Result<(), Fault>
    ensures { OnOk result (Appends (W.contents out.old) (W.contents out.new)
        (source_part (option_map (λ s. s.now) source.entry))) }
{
    if let Some(source) = source {
        put(out, format_args!(" ({source})"))?;
    }
    Ok(())
}
