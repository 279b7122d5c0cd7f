//! The line of counts with which `check` and `licenses` end.
ghost use Rattle.std.specs.Prelude.{◌≡◌, IfOk, string_bytes};
ghost use Rattle.cli.specs.Counts as spec;

use std::alloc::{AllocError, Global};

/// How many packages were looked at, and how much was found, as `7 packages, 2 findings`, with its
/// newline. Fails when out of memory.
pub(crate) fn counts_line(
    alloc: Global,
    packages: usize,
    findings: usize,
) -> Result<String, AllocError>
    ensures { IfOk result (λ line. string_bytes line ≡ spec.counts_line packages findings) }
{
    let package = noun(packages, "package", "packages");
    let finding = noun(findings, "finding", "findings");
    format!(in alloc; "{packages} {package}, {findings} {finding}\n")
}

/// A noun in the singular or the plural.
fn noun(number: usize, one: &'static str, more: &'static str) -> &'static str
    ensures { result.now ≡ spec.noun number one.now more.now }
{
    if number == 1 { one } else { more }
}
