//! The checksum and the replacement of a merged package.

ghost use Rattle.std.specs.Prelude.{◌≡◌, None, is_some, option_map};
ghost use Rattle.std.specs.Bool.{Decides};
ghost use Rattle.cargo_lock_merge_core.specs.Agreed.{AreEqual, IsOnlyOf};
ghost use Rattle.cargo_lock_merge_core.specs.Choices.{IsOfSide, HasNoChecksumFor, checksum_if, if_same};
ghost use Rattle.cargo_lock_merge_core.specs.Choices.{replacement_if};
ghost use Rattle.cargo_lock_merge_core.specs.Numbered.{IsChecksumChoice, IsReplacementChoice};
ghost use Rattle.cargo_lock_merge_core.specs.Numbered.{data_if, placed_data};
ghost use Rattle.cargo_lock_parts.specs.Checksum.{digest_of};

use crate::placed::{Placed, are_same};
use crate::rule3::{Equal, Side, agreed_side};
use cargo_lock_parts::package::{Checksum, Package};

/// The checksum that the chosen package has after a merge, if it has one: the only one that packages
/// with its identity have. `None` if they have two.
pub fn choose_checksum<'a, 'd>(
    base: Option<Placed<'a, 'd>>,
    ours: Option<Placed<'a, 'd>>,
    theirs: Option<Placed<'a, 'd>>,
    chosen: Placed<'a, 'd>,
) -> Option<Option<Checksum>>
    ensures { IsChecksumChoice (data_if base.entry) (data_if ours.entry) (data_if theirs.entry)
        (placed_data chosen.entry) (option_map (option_map digest_of) result) }
{
    let base = checksum_if(if_same(chosen, base));
    let ours = checksum_if(if_same(chosen, ours));
    let theirs = checksum_if(if_same(chosen, theirs));
    match only_checksum(base, ours) {
        Some(first) => only_checksum(first, theirs),
        None => None,
    }
}

// The only checksum of two that may be absent, if there is one. `None` if they differ.
fn only_checksum(one: Option<Checksum>, other: Option<Checksum>) -> Option<Option<Checksum>>
    ensures { IsOnlyOf (option_map digest_of one) (option_map digest_of other)
        (option_map (option_map digest_of) result) }
{
    match (one, other) {
        (None, other) => Some(other),
        (one, None) => Some(one),
        (Some(one), Some(other)) => if are_equal(one, other) {
            Some(Some(one))
        } else {
            None
        },
    }
}

fn are_equal(one: Checksum, other: Checksum) -> bool
    ensures { Decides result (digest_of one ≡ digest_of other) }
{
    let Checksum::Sha256(one) = one;
    let Checksum::Sha256(other) = other;
    one == other
}

/// Whether the package is there, has the identity of the chosen one, and a checksum.
pub fn has_checksum<'a, 'd>(chosen: Placed<'a, 'd>, package: Option<Placed<'a, 'd>>) -> bool
    ensures { result ≡ is_some (checksum_if (if_same (placed_data chosen.entry)
        (data_if «package».entry))) }
{
    checksum_if(if_same(chosen, package)).is_some()
}

/// Whether the package is there, has the identity of the chosen one, and no checksum.
pub fn lacks_checksum<'a, 'd>(chosen: Placed<'a, 'd>, package: Option<Placed<'a, 'd>>) -> bool
    ensures { Decides result (HasNoChecksumFor (placed_data chosen.entry) (data_if «package».entry)) }
{
    match if_same(chosen, package) {
        Some(package) => has_no_checksum(package.package),
        None => false,
    }
}

fn has_no_checksum(package: &Package) -> bool
    ensures { Decides result («package».now.checksum ≡ None) }
{
    package.checksum.is_none()
}

// The checksum of the package, if there is one and it has one.
fn checksum_if(package: Option<Placed>) -> Option<Checksum>
    ensures { option_map digest_of result ≡ checksum_if (data_if «package».entry) }
{
    let package = package?.package;
    package.checksum
}

/// The side whose replacement the chosen package has after a merge. `None` if the sides are in
/// conflict about it.
pub fn choose_replacement<'a, 'd>(
    base: Option<Placed<'a, 'd>>,
    ours: Option<Placed<'a, 'd>>,
    theirs: Option<Placed<'a, 'd>>,
    chosen: Placed<'a, 'd>,
) -> Option<Side>
    requires { IsOfSide (data_if ours) (data_if theirs) (placed_data chosen) }
    ensures { IsReplacementChoice (data_if base.entry) (data_if ours.entry) (data_if theirs.entry)
        (placed_data chosen.entry) result }
{
    let base = if_same(chosen, base);
    match (if_same(chosen, ours), if_same(chosen, theirs)) {
        (Some(ours), Some(theirs)) => agreed_side(equal_replacements(base, ours, theirs)),
        (Some(_), None) => Some(Side::Ours),
        (None, Some(_)) => Some(Side::Theirs),
        (None, None) => None,
    }
}

// The package, if it has the identity of the chosen one.
fn if_same<'a, 'd>(
    chosen: Placed<'a, 'd>,
    package: Option<Placed<'a, 'd>>,
) -> Option<Placed<'a, 'd>>
    ensures { data_if result ≡ if_same (placed_data chosen.entry) (data_if «package».entry) }
{
    match package {
        Some(package) if are_same(package.package, chosen.package) => Some(package),
        _ => None,
    }
}

// Which of the replacements are equal.
fn equal_replacements<'a, 'd>(
    base: Option<Placed<'a, 'd>>,
    ours: Placed<'a, 'd>,
    theirs: Placed<'a, 'd>,
) -> Equal
    ensures { AreEqual (replacement_if (data_if base.entry)) ours.entry.replacement
        theirs.entry.replacement result }
{
    let old = replacement_of(base);
    Equal {
        sides: ours.replacement == theirs.replacement,
        ours: ours.replacement == old,
        theirs: theirs.replacement == old,
    }
}

// The place of the replacement of the package, if there is one.
fn replacement_of(package: Option<Placed>) -> Option<usize>
    ensures { result ≡ replacement_if (data_if «package».entry) }
{
    match package {
        Some(package) => package.replacement,
        None => None,
    }
}
