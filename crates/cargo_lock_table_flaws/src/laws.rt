//! Laws of what is found in a table, each the contract of a function without a body.

ghost use Rattle.cargo_lock_table_flaws.specs.Finding.{EachTableFindingIsOneLine};
ghost use Rattle.cargo_lock_table_flaws.specs.Laws.{LockfileIfResolved, NoReportOfLockfile};
ghost use Rattle.cargo_lock_table_flaws.specs.Laws.{NoneUnreadIfRead, ReadIfNoneUnread};

/// Each finding is exactly one line, whatever the texts in it hold.
pub fn table_findings_are_lines()
    ensures { EachTableFindingIsOneLine }
{}

/// The table of a package reads exactly if no value of it is told.
pub fn packages_read_where_nothing_is_unread()
    ensures { ReadIfNoneUnread }
{}

/// Nothing is told as unread of a table that has values.
pub fn nothing_is_unread_where_values_read()
    ensures { NoneUnreadIfRead }
{}

/// Values with a format are those of a lockfile exactly if no reference of them is told.
pub fn values_mean_where_references_resolve()
    ensures { LockfileIfResolved }
{}

/// A table that means a lockfile has no report.
pub fn no_report_of_a_lockfile()
    ensures { NoReportOfLockfile }
{}
