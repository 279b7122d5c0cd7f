//! Laws of the merge, each the contract of a function without a body.

ghost use Rattle.cargo_lock_merge_core.specs.Assembled.{AssembledAreMerge};
ghost use Rattle.cargo_lock_merge_core.specs.Laws.{DependenciesAreOfSides, MergeIsClosed};
ghost use Rattle.cargo_lock_merge_core.specs.Laws.{MergeIsSymmetric, NumbersOfPlaces};
ghost use Rattle.cargo_lock_merge_core.specs.Laws.{BothStay, MergeHasNoConflict, PackagesAreOfSides};
ghost use Rattle.cargo_lock_merge_core.specs.Laws.{ConflictsAreSymmetric, MovedReferencesAreSymmetric};
ghost use Rattle.cargo_lock_merge_core.specs.Laws.{TakenAwayIsGone};
ghost use Rattle.cargo_lock_merge_core.specs.Listings.{ListingsHaveOneConflict, ListingsHaveOneMerge};
ghost use Rattle.cargo_lock_merge_core.specs.Listings.{ListingsAreSymmetric, ListingsHaveOneMoved};
ghost use Rattle.cargo_lock_merge_core.specs.Listings.{MergeOfListsIsSymmetric, MergeOfListsIsUnique};
ghost use Rattle.cargo_lock_merge_core.specs.LawsOfMerges.{IdentityOfBothStays, MergeIsSound};
ghost use Rattle.cargo_lock_merge_core.specs.LawsOfMerges.{MergeExcludesConflicts, MergeIsStable};
ghost use Rattle.cargo_lock_merge_core.specs.LawsOfMerges.{MergeIsUnique, MergeOfListsIsSound};
ghost use Rattle.cargo_lock_merge_core.specs.LawsOfMerges.{MergeOfListsIsStable, MergeWithBase};
ghost use Rattle.cargo_lock_merge_core.specs.LawsOfMerges.{MergeWithBaseAgrees, MergeWithItself};
ghost use Rattle.cargo_lock_merge_core.specs.LawsOfMerges.{PlacedAreLockfile, UnmovedAreOfSides};
ghost use Rattle.cargo_lock_merge_core.specs.Origins.{ChecksumsAreListed, MergeOfListsWithBase};
ghost use Rattle.cargo_lock_merge_core.specs.Origins.{MergeOfListsWithItself};

/// A merge by numbers of places is a merge by the places, where no two places have one number.
pub fn numbers_are_of_places()
    ensures { NumbersOfPlaces }
{}

/// The sides of a merge may be exchanged.
pub fn merge_is_symmetric()
    ensures { MergeIsSymmetric }
{}

/// Each merged package is, by identity, that of a side at its place.
pub fn packages_are_of_sides()
    ensures { PackagesAreOfSides }
{}

/// Each merged dependency is that of a side's package at its place.
pub fn dependencies_are_of_sides()
    ensures { DependenciesAreOfSides }
{}

/// Each merged dependency has its package.
pub fn merge_is_closed()
    ensures { MergeIsClosed }
{}

/// A merge has no conflict about a package, a checksum or a replacement.
pub fn merge_has_no_conflict()
    ensures { MergeHasNoConflict }
{}

/// A dependency stays that both sides have at a package that both have.
pub fn both_stay()
    ensures { BothStay }
{}

/// A dependency is gone that the base has, and that one side has not at a package that both have.
pub fn taken_away_is_gone()
    ensures { TakenAwayIsGone }
{}

/// The sides of a conflict may be exchanged.
pub fn conflicts_are_symmetric()
    ensures { ConflictsAreSymmetric }
{}

/// The sides of a moved reference may be exchanged.
pub fn moved_references_are_symmetric()
    ensures { MovedReferencesAreSymmetric }
{}

/// The packages that are assembled of a merge by numbers of places are the merge of the lockfiles.
pub fn assembled_are_merge()
    ensures { AssembledAreMerge }
{}

/// Two merges of the same lists have the same packages.
pub fn merge_is_unique()
    ensures { MergeIsUnique }
{}

/// The packages of a list at their places are a lockfile, where each git source is at one commit.
pub fn placed_are_lockfile()
    ensures { PlacedAreLockfile }
{}

/// A merge of lockfiles is a sound lockfile.
pub fn merge_is_sound()
    ensures { MergeIsSound }
{}

/// The merge of three lists of packages is sound.
pub fn merge_of_lists_is_sound()
    ensures { MergeOfListsIsSound }
{}

/// Where there is a merge, the sides are in conflict about nothing.
pub fn merge_excludes_conflicts()
    ensures { MergeExcludesConflicts }
{}

/// The identity that both sides have at a place is that of the merged package there.
pub fn identity_of_both_stays()
    ensures { IdentityOfBothStays }
{}

/// A dependency that is no moved reference is, identity to identity, one of a side.
pub fn unmoved_are_of_sides()
    ensures { UnmovedAreOfSides }
{}

/// Where one side is the base, the merge is the other side.
pub fn merge_with_base()
    ensures { MergeWithBase }
{}

/// That is so only where no commit has two versions of a package, and each checksum is kept.
pub fn merge_with_base_agrees()
    ensures { MergeWithBaseAgrees }
{}

/// Where the sides are equal, the merge is each of them.
pub fn merge_with_itself()
    ensures { MergeWithItself }
{}

/// Merged again with either side, a merge stays as it is.
pub fn merge_is_stable()
    ensures { MergeIsStable }
{}

/// The same of lists of packages, where none has two packages of one name without source.
pub fn merge_of_lists_is_stable()
    ensures { MergeOfListsIsStable }
{}

/// Where the packages of three lists are at their places, their order and that of the dependencies
/// do not matter: each such listing has the same merges.
pub fn listings_have_one_merge()
    ensures { ListingsHaveOneMerge }
{}

/// Each such listing has the same conflicts.
pub fn listings_have_one_conflict()
    ensures { ListingsHaveOneConflict }
{}

/// Each such listing has the same moved references of a merge.
pub fn listings_have_one_moved()
    ensures { ListingsHaveOneMoved }
{}

/// Two merges of the same lists of packages have the same packages.
pub fn merge_of_lists_is_unique()
    ensures { MergeOfListsIsUnique }
{}

/// The sides of a merge of lists of packages may be exchanged.
pub fn merge_of_lists_is_symmetric()
    ensures { MergeOfListsIsSymmetric }
{}

/// Lists of packages at their places are so where the sides are exchanged.
pub fn listings_are_symmetric()
    ensures { ListingsAreSymmetric }
{}

/// A merged package has a checksum exactly if one of the three lists has it for the same identity.
pub fn checksums_are_listed()
    ensures { ChecksumsAreListed }
{}

/// The same as `merge_with_base`, of lists of packages.
pub fn merge_of_lists_with_base()
    ensures { MergeOfListsWithBase }
{}

/// The same as `merge_with_itself`, of lists of packages.
pub fn merge_of_lists_with_itself()
    ensures { MergeOfListsWithItself }
{}
