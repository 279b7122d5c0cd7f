//! Laws of what is found, each the contract of a function without a body.

ghost use Rattle.cargo_lock_audit.specs.Advisory.{ConcernIsExact};
ghost use Rattle.cargo_lock_audit.specs.Findings.{AdvisoryFindingsAreExact, IgnoringLeavesOut};
ghost use Rattle.cargo_lock_audit.specs.Coverage.{CoverageIsExact};
ghost use Rattle.cargo_lock_audit.specs.Findings.{AllBroughtSinceNone, BroughtIsExact};
ghost use Rattle.cargo_lock_audit.specs.Findings.{NoneBroughtSinceItself, NoneIfUnconcerned};
ghost use Rattle.cargo_lock_audit.specs.Findings.{NoneWithoutCratesIo, SameFoundSince};
ghost use Rattle.cargo_lock_audit.specs.Findings.{WarningsDenyAll};
ghost use Rattle.cargo_lock_audit.specs.Lines.{EachAuditedIsOneLine, FaultsArePrintable};
ghost use Rattle.cargo_lock_audit.specs.Lines.{LinesArePrintable};

/// An advisory concerns a package exactly if both are about a crate of crates.io with one name, the
/// advisory was not withdrawn, and the version lies in none of its requirements. The packages of
/// registries that are named count as those of crates.io.
pub fn concern_is_exact()
    ensures { ConcernIsExact }
{}

/// What is found is exactly each package with each advisory that concerns it and is not ignored.
pub fn findings_are_exact()
    ensures { AdvisoryFindingsAreExact }
{}

/// Nothing is found exactly if each advisory that concerns a package is ignored.
pub fn none_if_unconcerned()
    ensures { NoneIfUnconcerned }
{}

/// Nothing is found in a lockfile without packages that count as those of crates.io.
pub fn none_without_crates_io()
    ensures { NoneWithoutCratesIo }
{}

/// To ignore more advisories leaves out their findings, and changes nothing else.
pub fn ignoring_leaves_out()
    ensures { IgnoringLeavesOut }
{}

/// Where `warnings` is denied, each finding is denied that no older lockfile has.
pub fn warnings_deny_all()
    ensures { WarningsDenyAll }
{}

/// A finding is brought since an older lockfile exactly if its advisory concerns no package of its
/// name in that one.
pub fn brought_is_exact()
    ensures { BroughtIsExact }
{}

/// Nothing is brought since the lockfile itself.
pub fn none_brought_since_itself()
    ensures { NoneBroughtSinceItself }
{}

/// All is brought since a lockfile without packages.
pub fn all_brought_since_none()
    ensures { AllBroughtSinceNone }
{}

/// The same is found, in the same order, whatever an older lockfile has.
pub fn same_found_since()
    ensures { SameFoundSince }
{}

/// The packages that are compared with advisories and those that are not are together the packages,
/// each once, and exactly those that count as those of crates.io are compared.
pub fn coverage_is_exact()
    ensures { CoverageIsExact }
{}

/// A report is a line for each finding, for each text that was ignored in vain, and for what was
/// compared, whatever names, ids, titles and requirements hold.
pub fn each_is_one_line()
    ensures { EachAuditedIsOneLine }
{}

/// Each of these lines is printable ASCII.
pub fn lines_are_printable()
    ensures { LinesArePrintable }
{}

/// So is the line of why a database is refused, where a clause says that line.
pub fn faults_are_printable()
    ensures { FaultsArePrintable }
{}
