//! Laws of bills, each the contract of a function without a body.

ghost use Rattle.cargo_lock_bom.specs.References.{WorkspaceIsNoPackage};
ghost use Rattle.cargo_lock_bom.specs.Root.{ListedIsClosed, TopIsOne};

/// At most one package without a source is the top: no other package needs it, and it leads to each
/// package without a source.
pub fn there_is_one_top()
    ensures { TopIsOne }
{}

/// No edge leads from a package that a bill lists to one that it does not list, so each entry is
/// about components of the bill.
pub fn what_is_listed_is_closed()
    ensures { ListedIsClosed }
{}

/// The text that refers to the workspace refers to no package.
pub fn the_workspace_is_no_package()
    ensures { WorkspaceIsNoPackage }
{}
