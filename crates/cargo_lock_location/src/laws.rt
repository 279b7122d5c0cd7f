//! Laws of the lines of packages, each the contract of a function without a body.

ghost use Rattle.cargo_lock_location.specs.Lines.{LinesAreOwn};
ghost use Rattle.cargo_lock_location.specs.Location.{EachPackageIsAnswered, LinesAreThoseOfNames};
ghost use Rattle.cargo_lock_location.specs.Location.{LinesAreThoseOfPackages, LinesBeginPackages};

/// The number of a package's line is exactly that of the line that begins it: there are as many lines
/// that begin packages as packages, as many of them before it as packages before this one, and below it,
/// before the next line that begins with a bracket, stands its name. A package that no line begins so
/// has no number.
pub fn lines_are_those_of_packages()
    ensures { LinesAreThoseOfPackages }
{}

/// The same where some of the packages have no name, as in a table that is no lockfile. These have no
/// number.
pub fn lines_are_those_of_names()
    ensures { LinesAreThoseOfNames }
{}

/// There is a number, or none, for each package.
pub fn each_package_is_answered()
    ensures { EachPackageIsAnswered }
{}

/// The line with the number of a package is `[[package]]`.
pub fn lines_begin_packages()
    ensures { LinesBeginPackages }
{}

/// The number that is found for a package of the lockfile is that of its own place, whatever others the
/// lockfile has.
pub fn lines_are_own()
    ensures { LinesAreOwn }
{}
