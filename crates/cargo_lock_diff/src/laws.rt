//! Laws of differences, each the contract of a function. The body of a law of equality is `==`, and
//! the others have none.

ghost use Rattle.std.specs.Prelude.{◌≡◌, ◌↔◌, IsTrue};
ghost use Rattle.cargo_lock_diff.specs.Change.{EachChangeIsOneLine, NoneIfPermuted};
ghost use Rattle.cargo_lock_diff.specs.Dependencies.{EqualIfCarried};
ghost use Rattle.cargo_lock_diff.specs.Difference.{EmptyIfPermuted, NoneIsLeftAlone};
ghost use Rattle.cargo_lock_diff.specs.Difference.{OrderDoesNotCount};
ghost use Rattle.cargo_lock_diff.specs.Difference.{PairingMirrored, ToldByCount, ToldOnce};
ghost use Rattle.cargo_lock_diff.specs.Mirror.{AsManyLinesThereAndBack, NoneToItself};
ghost use Rattle.cargo_lock_diff.specs.PairingLaws.{MirroredInTurn, NoneIsLeftInTurn};
ghost use Rattle.cargo_lock_diff.specs.PairingLaws.{PairedExactly, ToldInTurn};
ghost use Rattle.cargo_lock_diff.specs.Summary.{SummaryIsOneLine};

use crate::likeness::Likeness;
use crate::summary::{Kind, Summary};

/// Each package is kept, in a pair or left, as often as it was given.
pub fn packages_are_told_once()
    ensures { ToldOnce }
{}

/// For each package, as many old ones are reported as the old list has more of it than the new
/// list, and as many new ones as the new list has more of it.
pub fn packages_are_told_by_count()
    ensures { ToldByCount }
{}

/// Nothing is reported exactly if both lists have the same packages, each as often, in any order.
pub fn equal_packages_have_no_difference()
    ensures { EmptyIfPermuted }
{}

/// No change is reported exactly if both lists have the same packages, each as often: each pair has
/// at least one change.
pub fn equal_packages_tell_no_change()
    ensures { NoneIfPermuted }
{}

/// If the lists are exchanged, the members of all pairs are exchanged, and so are the packages that
/// are left.
pub fn exchanged_packages_have_exchanged_pairs()
    ensures { PairingMirrored }
{}

/// As many lines report the changes there and back, but for alarms that have a line beside others:
/// of a checksum that is not that of the old package of the pair, or of an added package, and of an
/// added package that comes from a new source.
pub fn lines_are_as_many_there_and_back()
    ensures { AsManyLinesThereAndBack }
{}

/// A list in which no two packages are wholly alike has no change to itself, dependencies included,
/// whether packages fit them or not.
pub fn no_list_has_a_change_to_itself()
    ensures { NoneToItself }
{}

/// The order of the lists does not matter: for other lists with the same packages, each as often,
/// as many pairs are wholly like two packages, and as many of the packages that are left are wholly
/// like one.
pub fn order_of_packages_does_not_count()
    ensures { OrderDoesNotCount }
{}

/// No name, version and place has exactly one removed and exactly one added package; neither has a
/// name and origin, nor a name.
pub fn no_package_is_left_alone()
    ensures { NoneIsLeftAlone }
{}

/// Each change is exactly one line, whatever its names, versions, sources and checksums hold.
pub fn changes_are_lines()
    ensures { EachChangeIsOneLine }
{}

/// The lines of changes and the summary are exactly as many lines as changes, and one more.
pub fn summaries_are_lines()
    ensures { SummaryIsOneLine }
{}

/// The packages of a pair have the same dependencies exactly if the pairs carry the old ones onto
/// the new ones.
pub fn equal_dependencies_are_carried()
    ensures { EqualIfCarried }
{}

/// The pairs of a pairing are exactly an old and a new package that are alike, and like no other
/// package of their lists.
pub fn pairs_are_exactly_those_only_alike()
    ensures { PairedExactly }
{}

/// After several pairings in turn, each package is in one pair or left, as often as it was given.
pub fn packages_are_paired_once_or_left()
    ensures { ToldInTurn }
{}

/// If the lists are exchanged, the members of all pairs are exchanged, and so are the packages that
/// are left.
pub fn exchanged_lists_have_exchanged_pairs()
    ensures { MirroredInTurn }
{}

/// After all pairings, no package is left that is the only one alike on both sides, by a likeness
/// that is finer than all likenesses after it.
pub fn nothing_is_left_once_on_both_sides()
    ensures { NoneIsLeftInTurn }
{}

/// Two likenesses are equal exactly if they are the same.
pub fn likenesses_are_equal_by_value(likeness: Likeness, other: Likeness) -> bool
    ensures { IsTrue result ↔ (likeness ≡ other) }
{
    likeness == other
}

/// Two kinds of changes are equal exactly if they are the same.
pub fn kinds_are_equal_by_value(kind: Kind, other: Kind) -> bool
    ensures { IsTrue result ↔ (kind ≡ other) }
{
    kind == other
}

/// Two summaries are equal exactly if each of their counts is.
pub fn summaries_are_equal_by_counts(summary: &Summary, other: &Summary) -> bool
    ensures { IsTrue result ↔ (summary.now ≡ other.now) }
{
    *summary == *other
}
