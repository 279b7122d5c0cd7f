//! Writing a lockfile.

ghost use Rattle.std.specs.Prelude.{◌≡◌, IfOk, IsOkUnless, string_bytes};
ghost use Rattle.toml.specs.View.{table_view};
ghost use Rattle.cargo_lock_parts.specs.declared.error.Error.TheVariants.{Memory};
ghost use Rattle.cargo_lock.specs.Shortest.{HasShortestReferences};
ghost use Rattle.cargo_lock_encoding.specs.Table.{table_of};
ghost use Rattle.cargo_lock_lines.specs.Layout.{join_lines};
ghost use Rattle.cargo_lock_encoding.specs.Text.{lines_of};

use crate::error::Result;
use crate::lockfile::Lockfile;
use std::alloc::Global;
use toml::Table;

impl Lockfile {
    /// The table of the lockfile, in the lockfile's format, as Cargo writes it. The one error is
    /// `Memory`.
    ///
    /// If the lockfile survives its format, which is V2 or later, and no two packages are equal in
    /// identity, a dependency that is among the packages has the shortest form that names it in
    /// every order of the packages.
    ///
    /// ```
    /// let table = lockfile.to_table(alloc)?;
    /// let read = Lockfile::from_table(alloc, &table)?;
    /// ```
    pub fn to_table(&self, alloc: Global) -> Result<Table>
        ensures ok { IfOk result (λ t. table_view t ≡ table_of self.now) }
        ensures shortest { IfOk result (λ t. HasShortestReferences self.now (table_view t)) }
        ensures err { IsOkUnless result Memory }
    {
        self.by_ref().to_table(alloc)
    }

    /// The text of the lockfile, in the lockfile's format, as Cargo writes it. The root is left
    /// out, and so is the replacement of a package with dependencies. The one error is `Memory`.
    ///
    /// ```
    /// lockfile.version = ResolveVersion::V4;
    /// let text = lockfile.to_string(alloc)?;
    /// ```
    pub fn to_string(&self, alloc: Global) -> Result<String>
        ensures ok { IfOk result (λ text. string_bytes text ≡ join_lines (lines_of self.now)) }
        ensures err { IsOkUnless result Memory }
    {
        self.by_ref().to_string(alloc)
    }
}
