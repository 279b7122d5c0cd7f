//! Laws of licence expressions and of what is reported, each the contract of a function without a
//! body.

ghost use Rattle.cargo_lock_licenses.specs.Allowed.{MoreAllowMore};
ghost use Rattle.cargo_lock_licenses.specs.Grammar.{OneReading};
ghost use Rattle.cargo_lock_licenses.specs.Judged.{ExemptionsReachTheirOwn, GivenReachTheirOwn};
ghost use Rattle.cargo_lock_licenses.specs.Judged.{MoreExemptionsAddNoFinding};
ghost use Rattle.cargo_lock_licenses.specs.Lines.{EachVerdictIsOneLine};
ghost use Rattle.cargo_lock_licenses.specs.Printed.{PrintedReadsAgain};
ghost use Rattle.cargo_lock_licenses.specs.Report.{EachIsOneLine};
ghost use Rattle.cargo_lock_licenses.specs.Terms.{TermsAreLeaves};
ghost use Rattle.cargo_lock_licenses.specs.Verdicts.{MoreAddNoFinding};

/// No tokens read as two expressions.
pub fn one_reading()
    ensures { OneReading }
{}

/// An expression that is printed and read again is the same one.
pub fn printed_reads_again()
    ensures { PrintedReadsAgain }
{}

/// More allowed terms forbid no expression.
pub fn more_allow_more()
    ensures { MoreAllowMore }
{}

/// More allowed terms make no finding.
pub fn more_add_no_finding()
    ensures { MoreAddNoFinding }
{}

/// What is said of each package is one line, whatever names, sources, paths and texts hold.
pub fn each_is_one_line()
    ensures { EachVerdictIsOneLine }
{}

/// What is said of each package, and of each part of a policy that was said in vain, is one line.
pub fn each_of_report_is_one_line()
    ensures { EachIsOneLine }
{}

/// The terms of an expression are those of its one tree.
pub fn terms_are_leaves()
    ensures { TermsAreLeaves }
{}

/// An exemption changes nothing of a package that it is not for.
pub fn exemptions_reach_their_own()
    ensures { ExemptionsReachTheirOwn }
{}

/// An expression that is given changes nothing of a package for which it is not.
pub fn given_reach_their_own()
    ensures { GivenReachTheirOwn }
{}

/// More exemptions make no finding.
pub fn more_exemptions_add_no_finding()
    ensures { MoreExemptionsAddNoFinding }
{}
