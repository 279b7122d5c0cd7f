//! The bill of materials of a lockfile, as it is printed.

ghost use Rattle.std.specs.Prelude.{◌≡◌, ◌≤◌, ◌⊎◌, IfErr, IfOk, string_bytes};
ghost use Rattle.cargo_lock_bom.specs.Printed.{IsPrintedBill};
ghost use Rattle.cargo_lock_c.specs.Answers.{IsHandedOut};
ghost use Rattle.cargo_lock_c.specs.Bills.{IsBillOfLockfile, IsBillOfText, IsRepeatedText};
ghost use Rattle.cargo_lock_c.specs.Bills.{IsUnresolvedBill, LacksBill, own_options};
ghost use Rattle.cargo_lock_c.specs.Bills.{packages_in_bill};
ghost use Rattle.cargo_lock_c.specs.Statuses.{status_of};
ghost use Rattle.cargo_lock_c.specs.Texts.{RefusesText};

use crate::difference::compared;
use crate::handing::hand_out;
use crate::reading::read;
use crate::refusal::Refusal;
use cargo_lock::dependency::graph::NodeIndex;
use cargo_lock::{Lockfile, Package};
use cargo_lock_bom::options::{Listed, Options, VERSION};
use cargo_lock_bom::printed::{printed_bill, with_root};
use std::alloc::Global;

/// The bill of materials of the lockfile of a text, as `cargo-lock bom` prints it without options,
/// or, if it is compact, with `--compact`. Status 7 means that a dependency has no package, and 12
/// that the same text would refer to two packages.
#[unsafe(no_mangle)]
pub extern "C" fn cargo_lock_bill(
    alloc: Global,
    text: &[u8],
    compact: bool,
    out: &mut [u8],
    length: &mut usize,
) -> u32
    ensures bill { IsHandedOut (IsBillOfText text.now compact) result out.old out.new
        length.old length.new }
    ensures unresolved { result ≡ 7 → IsUnresolvedBill text.now }
    ensures repeated { result ≡ 12 → IsRepeatedText text.now }
    ensures refused { RefusesText text.now result }
    ensures status { (result ≤ 3) ⊎ (result ≡ 5) ⊎ (result ≡ 7) ⊎ (result ≡ 12) }
{
    match bill(alloc, text, compact) {
        Ok(bill) => hand_out(bill.as_bytes(), out, length),
        Err(refusal) => refusal.status(),
    }
}

/// The bill of the lockfile of a text's bytes.
fn bill(alloc: Global, bytes: &[u8], compact: bool) -> Result<String, Refusal>
    ensures ok { IfOk result (λ bill. IsBillOfText bytes.now compact (string_bytes bill)) }
    ensures unresolved { IfErr result (λ refusal. status_of refusal ≡ 7
        → IsUnresolvedBill bytes.now) }
    ensures repeated { IfErr result (λ refusal. status_of refusal ≡ 12
        → IsRepeatedText bytes.now) }
    ensures refused { IfErr result (λ refusal. RefusesText bytes.now (status_of refusal)) }
    ensures kind { IfErr result (λ refusal. (status_of refusal ≤ 3) ⊎ (status_of refusal ≡ 7)
        ⊎ (status_of refusal ≡ 12)) }
{
    let lockfile = read(alloc, bytes)?;
    let bill = bill_of(alloc, lockfile, compact)?;
    Ok(bill)
}

/// The bill of a lockfile, with the checksums that Cargo reads.
fn bill_of(alloc: Global, lockfile: Lockfile, compact: bool) -> Result<String, Refusal>
    ensures ok { IfOk result (λ bill. IsBillOfLockfile lockfile compact (string_bytes bill)) }
    ensures err { IfErr result (LacksBill (packages_in_bill lockfile)) }
{
    let lockfile = compared(alloc, lockfile)?;
    let (packages, own) = with_root(lockfile.packages, lockfile.root)?;
    printed(alloc, &packages, own, compact)
}

/// The bill of packages, with the package of this node as its root, if there is one.
fn printed(
    alloc: Global,
    packages: &Vec<Package>,
    own: Option<NodeIndex>,
    compact: bool,
) -> Result<String, Refusal>
    ensures ok { IfOk result (λ bill. IsPrintedBill packages.now.items (own_options own) compact
        (string_bytes bill)) }
    ensures err { IfErr result (LacksBill packages.now.items) }
{
    match printed_bill(alloc, packages, &options_of(own), compact) {
        Ok(bill) => Ok(bill),
        Err(fault) => Err(Refusal::of_bill(fault)),
    }
}

/// The options of a bill that the program writes without options, with this node as its root, if
/// there is one.
fn options_of(own: Option<NodeIndex>) -> Options<'static>
    ensures { «result» ≡ own_options own }
{
    Options {
        root: own,
        listed: Listed::All,
        tool_version: VERSION,
        timestamp: None,
        authors: &[],
        properties: &[],
        has_serial: false,
        licenses: &[],
    }
}
