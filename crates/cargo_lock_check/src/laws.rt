//! Laws of findings, each the contract of a function without a body.

ghost use Rattle.cargo_lock_check.specs.Finding.{EachLockfileFindingIsOneLine};
ghost use Rattle.cargo_lock_check.specs.Sound.{EmptyIfSound, NoneToldIfEmpty};
ghost use Rattle.cargo_lock_flaws.specs.Stale.{StaleKeysAreExact};

/// Nothing is found in a text and its lockfile exactly if nothing is wrong.
pub fn nothing_is_found_where_nothing_is_wrong()
    ensures { EmptyIfSound }
{}

/// Each finding is exactly one line, whatever its names, sources, keys and quoted lines hold.
pub fn findings_are_lines()
    ensures { EachLockfileFindingIsOneLine }
{}

/// No line is reported for a text and its lockfile exactly if nothing is found.
pub fn no_line_is_told_where_nothing_is_found()
    ensures { NoneToldIfEmpty }
{}

/// A key of the metadata is reported as stale exactly if it begins with `checksum `, its value is
/// not `<none>`, and it is of no package.
pub fn stale_keys_are_exact()
    ensures { StaleKeysAreExact }
{}
