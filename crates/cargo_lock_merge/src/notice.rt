//! What a merge reports of places where the sides are in no conflict.

ghost use Rattle.std.specs.Prelude.{◌≡◌, ℕ, IfOk, IsOkUnless, is_none, string_bytes};
ghost use Rattle.cargo_lock_parts.specs.declared.error.Error.TheVariants.{Memory};
ghost use Rattle.cargo_lock_merge_core.specs.Merge.{Triple, lockfiles_of};
ghost use Rattle.cargo_lock_merge_core.specs.Merged.{HasPlan};
ghost use Rattle.cargo_lock_merge.specs.Lines.{notice_lines, remark_lines, sides_of_loss};
ghost use Rattle.cargo_lock_merge.specs.Lines as spec;
ghost use Rattle.cargo_lock_merge.specs.Notice.{AreNotices};

use crate::conflict::cmp_conflicts;
use crate::moved::{Moved, moved_lines};
use cargo_lock_display::NameVersion;
use cargo_lock_merge_core::commits::Commits;
use cargo_lock_merge_core::conflicts::{Conflict as Matter, Kind, conflicts};
use cargo_lock_merge_core::placed::are_same;
use cargo_lock_merge_core::plan::Plan;
use cargo_lock_parts::error::Result;
use cargo_lock_parts::package::Package;
use printing::Shown;
use std::alloc::{AllocError, Global};
use std::fmt;

/// What a merge reports, each as a line.
#[derive(Drop)]
pub struct Remarks<'a> {
    /// The versions of members that it chose and the checksums that a side lost, in the order of the
    /// packages.
    pub notices: Vec<Matter<'a>>,

    /// The references that it moved, in the order of the packages.
    pub moved: Vec<Moved<'a>>,
}

impl<'a> Remarks<'a> {
    /// All lines, each with its newline: notices, and then moved references. Fails when out of
    /// memory.
    ///
    /// ```
    /// let lines = remarks.lines(rt.alloc())?;
    /// ```
    pub fn lines(&self, alloc: Global) -> std::result::Result<String, AllocError>
        ensures { IfOk result (λ lines. string_bytes lines ≡ remark_lines self.now) }
    {
        let mut lines = notice_lines(alloc, &self.notices)?;
        lines.push_str(moved_lines(alloc, &self.moved)?.as_str())?;
        Ok(lines)
    }
}

/// What there is to report of places where the sides are in no conflict, in the order of the packages.
/// The one error is `Memory`.
pub(crate) fn notices_of<'a, 'd>(
    alloc: Global,
    commits: &Commits<'a, 'd>,
    plan: &Plan<'a, 'd>,
) -> Result<Vec<Matter<'a>>>
    ensures ok { IfOk result (λ all. (s : Triple ℕ) → HasPlan s plan.now
        → commits.now ≡ lockfiles_of s → AreNotices s all.items) }
    ensures err { IsOkUnless result Memory }
{
    let mut all = conflicts(alloc, commits, plan, Kind::Version)?;
    all.extend_from_slice(&conflicts(alloc, commits, plan, Kind::LostChecksum)?)?;
    all.sort_by(|one, other| cmp_conflicts(one, other))?;
    Ok(all)
}

// The lines of notices.
fn notice_lines(alloc: Global, notices: &[Matter<'_>]) -> std::result::Result<String, AllocError>
    ensures { IfOk result (λ lines. string_bytes lines ≡ notice_lines notices.now) }
{
    let mut lines = String::new(alloc);
    for one in notices {
        let notice = Notice(*one);
        let line = format!(in alloc; "{notice}\n")?;
        lines.push_str(line.as_str())?;
    }
    Ok(lines)
}

/// The line of a notice.
#[derive(Clone, Copy)]
pub struct Notice<'a>(pub Matter<'a>);

impl fmt::Display for Notice<'_> {
    ghost use Rattle.std.specs.Prelude.{Some};
    ghost use Rattle.cargo_lock_merge.specs.Lines.{notice_line};

    ghost output = { λ notice. Some (notice_line notice.0) };

    fn fmt<W: fmt::Write>(&self, f: &mut fmt::Formatter<W>) -> fmt::Result {
        let Notice(matter) = *self;
        match (matter.kind, matter.base, matter.ours, matter.theirs) {
            (Kind::Version, _, Some(ours), Some(theirs)) => {
                let versions = Versions { ours, theirs };
                write!(f, "version: {versions}: its manifest decides")
            }
            (Kind::LostChecksum, Some(base), ours, theirs) => {
                let package = NameVersion(base);
                let sides = sides_of_loss(base, ours, theirs);
                write!(f, "alarm: {package}: checksum gone in {sides}")
            }
            _ => f.write_str("none"),
        }
    }
}

// The name of a member of the workspace, and its two new versions.
#[derive(Clone, Copy)]
struct Versions<'a> {
    ours: &'a Package,
    theirs: &'a Package,
}

impl fmt::Display for Versions<'_> {
    ghost use Rattle.std.specs.Prelude.{Some};
    ghost use Rattle.cargo_lock_merge.specs.Lines.{versions_text};

    ghost output = { λ versions. Some (versions_text versions.ours.now versions.theirs.now) };

    fn fmt<W: fmt::Write>(&self, f: &mut fmt::Formatter<W>) -> fmt::Result {
        let Versions { ours, theirs } = *self;
        let name = Shown(&ours.name);
        let ours = Shown(&ours.version);
        let theirs = Shown(&theirs.version);
        write!(f, "{name}: {ours} (ours), {theirs} (theirs)")
    }
}

// The sides that lost the checksum of a package.
fn sides_of_loss(base: &Package, ours: Option<&Package>, theirs: Option<&Package>) -> &'static str
    ensures { result.now ≡ sides_of_loss base.now ours.entry theirs.entry }
{
    match (lacks_checksum(base, ours), lacks_checksum(base, theirs)) {
        (true, true) => "ours and theirs",
        (true, false) => "ours",
        (false, true) => "theirs",
        (false, false) => "none",
    }
}

// Whether the package is there, has the identity of another one, and no checksum.
pub(crate) fn lacks_checksum(base: &Package, side: Option<&Package>) -> bool
    ensures { result ≡ spec.lacks_checksum base.now side.entry }
{
    match side {
        Some(side) => are_same(side, base) && has_no_checksum(side),
        None => false,
    }
}

fn has_no_checksum(package: &Package) -> bool
    ensures { result ≡ is_none «package».now.checksum }
{
    package.checksum.is_none()
}
