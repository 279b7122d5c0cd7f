//! Translation between formats.

ghost use Rattle.std.specs.Prelude.{◌≡◌, IfErr, IfOk, IsOkUnless};
ghost use Rattle.toml.specs.View.{table_view};
ghost use Rattle.cargo_lock_parts.specs.declared.error.Error.TheVariants.{Memory};
ghost use Rattle.cargo_lock_parts.specs.Error.{Reads, Refuses};
ghost use Rattle.cargo_lock_encoding.specs.Meaning.{meaning};
ghost use Rattle.cargo_lock_encoding.specs.Survives.{in_format};
ghost use Rattle.cargo_lock_encoding.specs.Table.{table_of};
ghost use Rattle.cargo_lock.specs.Translation.{IsStuck, KeepsThrough, LeadsTo, SurvivesEach};
ghost use Rattle.cargo_lock.specs.Translation.{translate_in_turn};

use crate::error::{Error, Result};
use crate::lockfile::Lockfile;
use crate::lockfile::reading::read;
use cargo_lock_references::ResolveVersion;
use std::alloc::Global;
use toml::Table;

impl Lockfile {
    /// The lockfile, translated to each of these formats in order: it is set to the format, written
    /// as a table and read. Without formats it is a copy.
    ///
    /// If the lockfile before each step survives the format of the step (see `survives`), the
    /// packages, the root and the patches stay equal, and the one error is `Memory`. Otherwise they
    /// may change, or the table of a step may mean no lockfile, which is `Parse`. A URL of 4 GB or
    /// more is `Memory` here.
    ///
    /// ```
    /// let translated = lockfile.translate_through(alloc, &[ResolveVersion::V4])?;
    /// let text = translated.to_string(alloc)?;
    /// ```
    pub fn translate_through(&self, alloc: Global, formats: &[ResolveVersion]) -> Result<Lockfile>
        ensures chain { IfOk result (LeadsTo formats.now self.now) }
        ensures stuck { IfErr result (λ e. Refuses e (IsStuck formats.now self.now)) }
        ensures kept { SurvivesEach formats.now self.now
            → IfOk result (KeepsThrough formats.now self.now) }
        ensures refused { SurvivesEach formats.now self.now → IsOkUnless result Memory }
    {
        self.translate_in_turn(alloc, formats)
    }

    fn translate_in_turn(&self, alloc: Global, formats: &[ResolveVersion]) -> Result<Lockfile>
        ensures { Reads (λ x. x) result (translate_in_turn formats.now self.now) }
    {
        let mut lockfile = self.clone()?;
        for format in formats {
            lockfile = lockfile.step(alloc, *format)?;
        }
        Ok(lockfile)
    }

    // One step: the lockfile, written in this format and read.
    fn step(self, alloc: Global, format: ResolveVersion) -> Result<Lockfile>
        ensures { Reads (λ x. x) result (meaning (table_of (in_format format self))) }
    {
        let table = self.in_format(format).to_table(alloc)?;
        read_again(alloc, &table)
    }

    fn in_format(self, format: ResolveVersion) -> Lockfile
        ensures { result ≡ in_format format self }
    {
        let Lockfile {
            version: _,
            packages,
            root,
            metadata,
            patch,
        } = self;
        Lockfile {
            version: format,
            packages,
            root,
            metadata,
            patch,
        }
    }
}

// Reads a table that was written here. A URL of 4 GB or more is `Memory`.
fn read_again(alloc: Global, table: &Table) -> Result<Lockfile>
    ensures { Reads (λ x. x) result (meaning (table_view table.now)) }
{
    match read(alloc, table) {
        Ok(lockfile) => Ok(lockfile),
        Err(fault) if fault.is_too_long() => Err(Error::Memory),
        Err(fault) => Err(fault),
    }
}
