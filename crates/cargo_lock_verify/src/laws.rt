//! Laws of what is found, each the contract of a function without a body.

ghost use Rattle.cargo_lock_verify.specs.Archives.{ArchiveClassesAreExact, ArchiveFindingsAreExact};
ghost use Rattle.cargo_lock_verify.specs.Archives.{ArchivesAreClean, NoneIfVerified};
ghost use Rattle.cargo_lock_verify.specs.Class.{CountsArePartition};
ghost use Rattle.cargo_lock_verify.specs.Entries.{EntryFindingsAreExact, LinesOfEntriesAreExact};
ghost use Rattle.cargo_lock_verify.specs.Lines.{EachArchiveFindingIsOneLine};
ghost use Rattle.cargo_lock_verify.specs.Vendored.{FolderClassesAreExact, FolderFindingsAreExact};
ghost use Rattle.cargo_lock_verify.specs.Vendored.{NoneIfVendored};
ghost use Rattle.cargo_lock_verify.specs.VendoredLines.{EachFolderFindingIsOneLine};

/// What is found is exactly each archive of a package with a checksum that is not verified, each
/// package with a checksum and no archive, and each package of a registry without a checksum.
pub fn findings_are_exact()
    ensures { ArchiveFindingsAreExact }
{}

/// Nothing is found exactly if an archive of each package with a checksum has that checksum, and each
/// package of a registry has a checksum.
pub fn none_if_verified()
    ensures { NoneIfVerified }
{}

/// Each finding is one line, whatever names, sources and paths hold.
pub fn each_is_one_line()
    ensures { EachArchiveFindingIsOneLine }
{}

/// What is found of folders is exactly what is wrong with those of each package with a source.
pub fn folder_findings_are_exact()
    ensures { FolderFindingsAreExact }
{}

/// Nothing is found of folders exactly if each package with a source has one, each of them is as its
/// list says, with the checksum of the lockfile, and each package of a registry has a checksum.
pub fn none_if_vendored()
    ensures { NoneIfVendored }
{}

/// Each finding of a folder is one line, whatever names, sources and paths hold.
pub fn each_of_folders_is_one_line()
    ensures { EachFolderFindingIsOneLine }
{}

/// The counts of classes are those of a partition: together they are as many as the packages.
pub fn counts_are_partition()
    ensures { CountsArePartition }
{}

/// Each package is in exactly the class whose meaning it has, by its archives.
pub fn archive_classes_are_exact()
    ensures { ArchiveClassesAreExact }
{}

/// The counts of archives are clean exactly if no package is changed, some package matches where one
/// can be compared, and, where all is asked for, each that can has an archive and a checksum.
pub fn archives_are_clean()
    ensures { ArchivesAreClean }
{}

/// Each package is in exactly the class whose meaning it has, by its folders.
pub fn folder_classes_are_exact()
    ensures { FolderClassesAreExact }
{}

/// An entry has a line exactly if Cargo does not pass it over, it is no folder of a package with a
/// source, and it is no folder of another package where these are passed over.
pub fn lines_of_entries_are_exact()
    ensures { LinesOfEntriesAreExact }
{}

/// What is found of entries is exactly what is wrong with each of them.
pub fn entry_findings_are_exact()
    ensures { EntryFindingsAreExact }
{}
