//! The commits of git sources.

ghost use Rattle.std.specs.Prelude.{◌≡◌, ◌↔◌, ℕ, IfOk, IsOkUnless, IsTrue, List, MatchOption, None};
ghost use Rattle.std.specs.Prelude.{OnOk, Option, Some, option_map};
ghost use Rattle.std.specs.Bool.{Decides};
ghost use Rattle.cargo_lock_parts.specs.declared.error.Error.TheVariants.{Memory};
ghost use Rattle.cargo_lock_parts.specs.Source.{is_git};
ghost use Rattle.cargo_lock_parts.specs.SourceKey.{key_of};
ghost use Rattle.cargo_lock_merge_core.specs.Agreed.{AreEqual};
ghost use Rattle.cargo_lock_merge_core.specs.CommitMaps.{HasPutCommit, IsBareGit, commit_if};
ghost use Rattle.cargo_lock_merge_core.specs.Commits.{AreCommits, HasOneCommitEach, IsAtMergedCommit};
ghost use Rattle.cargo_lock_edges.specs.Nearest.{key_without_commit};
ghost use Rattle.cargo_lock_merge_core.specs.Commits.{IsCommitIn, IsMergedCommit, git_in};
ghost use Rattle.cargo_lock_merge_core.specs.Disputes.{IsSourceOf};
ghost use Rattle.cargo_lock_merge_core.specs.LawsOfMerges.{HaveOneCommitEach};
ghost use Rattle.cargo_lock_merge_core.specs.Numbered.{all_data};
ghost use Rattle.cargo_lock_merge_core.specs.Placed.{contents_of};
ghost use Rattle.cargo_lock_merge_core.specs.Rule3.{IsMergedValue};

use crate::placed::Placed;
use crate::rule3::{Equal, Side, agreed_side};
use cargo_lock_parts::error::Result;
use cargo_lock_parts::package::{Package, SourceId};
use std::alloc::Global;
use std::collections::BTreeMap;
use std::marker::Model;

// The packages of a lockfile, with the commit of each git source.
#[derive(Drop)]
struct Sources<'a, 'd> {
    packages: &'d [Placed<'a, 'd>],
    commits: BTreeMap<SourceId, &'a SourceId>,
}

impl<'a, 'd> Model for Sources<'a, 'd> {
    ghost use Rattle.std.specs.Prelude.{List};
    ghost use Rattle.cargo_lock_parts.specs.Identity.{PackageData};
    ghost use Rattle.cargo_lock_merge_core.specs.CommitMaps.{AreCommitsOf};
    ghost use Rattle.cargo_lock_merge_core.specs.Numbered.{all_data};
    ghost use Rattle.cargo_lock_merge_core.specs.Placed.{contents_of};

    ghost Value = { List PackageData };

    ghost view = { λ s. contents_of (all_data s.packages.now) };

    ghost invariant = { λ s. AreCommitsOf (contents_of (all_data s.packages.now)) s.commits };
}

impl<'a, 'd> Sources<'a, 'd> {
    // These packages, with the commits of their git sources.
    fn of(alloc: Global, packages: &'d [Placed<'a, 'd>]) -> Result<Sources<'a, 'd>>
        ensures ok { IfOk result (λ sources. sources ≡ contents_of (all_data packages.now)) }
        ensures err { IsOkUnless result Memory }
    {
        let mut commits = BTreeMap::new(alloc);
        for package in packages {
            put_commit(&mut commits, package.package)?;
        }
        Ok(Sources { packages, commits })
    }

    // The source at its commit, if a package is of the git source.
    fn get(&self, bare: &SourceId) -> Option<&'a SourceId>
        requires { IsBareGit bare.now }
        ensures { IsCommitIn self.now (key_of bare.now) (commit_if result) }
    {
        self.commits.get(bare).copied()
    }
}

// Adds the commit of the package, if it is of a git source.
fn put_commit<'a>(
    commits: &mut BTreeMap<SourceId, &'a SourceId>,
    package: &'a Package,
) -> Result<()>
    ensures ok { OnOk result (HasPutCommit commits.old commits.new «package».now) }
    ensures err { IsOkUnless result Memory }
{
    if let Some(source) = &package.source {
        if source.is_git() {
            commits.insert(source.with_precise(None)?, source)?;
        }
    }
    Ok(())
}

/// A git source, and where it is at its commit in the base and in the two sides.
#[derive(Clone, Copy)]
pub struct SourceCommits<'a> {
    /// The git source, at one of its commits.
    pub source: &'a SourceId,

    /// The source of a package of the base. `None` if the base has none of the git source.
    pub base: Option<&'a SourceId>,

    /// The same of ours.
    pub ours: Option<&'a SourceId>,

    /// The same of theirs.
    pub theirs: Option<&'a SourceId>,
}

/// The commits of git sources in the base and in the two sides.
#[derive(Drop)]
pub struct Commits<'a, 'd> {
    base: Sources<'a, 'd>,
    ours: Sources<'a, 'd>,
    theirs: Sources<'a, 'd>,
}

impl<'a, 'd> Model for Commits<'a, 'd> {
    ghost use Rattle.cargo_lock_merge_core.specs.Commits.{Lockfiles, HasOneCommitEach};

    ghost Value = { Lockfiles };

    ghost view = { λ c. record { base = c.base; ours = c.ours; theirs = c.theirs } };

    ghost invariant = { λ c. HasOneCommitEach c.base × HasOneCommitEach c.ours
        × HasOneCommitEach c.theirs };
}

impl<'a, 'd> Commits<'a, 'd> {
    /// The commits of these packages. In each of the three lists, each git source is at one commit.
    /// The one error is `Memory`.
    pub fn of(
        alloc: Global,
        base: &'d [Placed<'a, 'd>],
        ours: &'d [Placed<'a, 'd>],
        theirs: &'d [Placed<'a, 'd>],
    ) -> Result<Commits<'a, 'd>>
        requires base { HasOneCommitEach (contents_of (all_data base.now)) }
        requires ours { HasOneCommitEach (contents_of (all_data ours.now)) }
        requires theirs { HasOneCommitEach (contents_of (all_data theirs.now)) }
        ensures ok { IfOk result (λ commits. commits ≡ record {
          base = contents_of (all_data base.now);
          ours = contents_of (all_data ours.now);
          theirs = contents_of (all_data theirs.now);
        }) }
        ensures err { IsOkUnless result Memory }
    {
        Ok(Commits {
            base: Sources::of(alloc, base)?,
            ours: Sources::of(alloc, ours)?,
            theirs: Sources::of(alloc, theirs)?,
        })
    }

    /// The git source of the package, with its commits. `None` if the package is of no git source.
    /// The one error is `Memory`.
    pub fn source_of(&self, package: &'a Package) -> Result<Option<SourceCommits<'a>>>
        ensures ok { IfOk result (λ found. MatchOption found
            (git_in «package».now.source ≡ None) (IsSourceOf self.now «package».now)) }
        ensures err { IsOkUnless result Memory }
    {
        let source = match &package.source {
            Some(source) => source,
            None => return Ok(None),
        };
        if source.is_git() {
            let bare = source.with_precise(None)?;
            Ok(Some(self.commits_of(&bare, source)))
        } else {
            Ok(None)
        }
    }

    // The source with the commits of its git source.
    fn commits_of(&self, bare: &SourceId, source: &'a SourceId) -> SourceCommits<'a>
        requires { IsBareGit bare.now }
        ensures source { result.source.now ≡ source.now }
        ensures commits { AreCommits self.now (key_of bare.now) (commit_if result.base)
            (commit_if result.ours) (commit_if result.theirs) }
        ensures one { HaveOneCommitEach self.now }
    {
        SourceCommits {
            source,
            base: self.base.get(bare),
            ours: self.ours.get(bare),
            theirs: self.theirs.get(bare),
        }
    }

    /// Whether the package is of a git source, at the merged commit. The one error is `Memory`.
    pub fn has(&self, package: &Package) -> Result<bool>
        ensures ok { IfOk result (λ found. Decides found
            (IsAtMergedCommit self.now «package».now)) }
        ensures err { IsOkUnless result Memory }
    {
        match &package.source {
            Some(source) => self.has_source(source),
            None => Ok(false),
        }
    }

    // The same of the package's source.
    fn has_source(&self, source: &SourceId) -> Result<bool>
        ensures ok { IfOk result (λ found. Decides found
            (IsTrue (is_git source.now.kind)
            × IsMergedCommit self.now (key_without_commit source.now) source.now.precise)) }
        ensures err { IsOkUnless result Memory }
    {
        if source.is_git() {
            let bare = source.with_precise(None)?;
            Ok(self.is_merged(&bare, source))
        } else {
            Ok(false)
        }
    }

    // Whether the merged commit of a git source is that of the other source.
    fn is_merged(&self, bare: &SourceId, source: &SourceId) -> bool
        requires { IsBareGit bare.now }
        ensures { Decides result
            (IsMergedCommit self.now (key_of bare.now) source.now.precise) }
    {
        match self.merged(bare) {
            Some(merged) => is_commit(merged, source),
            None => false,
        }
    }

    // The source at its merged commit. `None` if no side has it, or if the commits conflict.
    fn merged(&self, bare: &SourceId) -> Option<&'a SourceId>
        requires { IsBareGit bare.now }
        ensures { (c : Option (List ℕ))
            → IsMergedCommit self.now (key_of bare.now) c ↔ (commit_if result ≡ Some c) }
    {
        let base = self.base.get(bare);
        merged_commit(base, self.ours.get(bare), self.theirs.get(bare))
    }
}

// The source at the commit that is merged of these.
fn merged_commit<'a>(
    base: Option<&'a SourceId>,
    ours: Option<&'a SourceId>,
    theirs: Option<&'a SourceId>,
) -> Option<&'a SourceId>
    ensures { MatchOption result
        ((c : Option (List ℕ)) → ¬ IsMergedValue (commit_if base.entry)
        (option_map Some (commit_if ours.entry)) (option_map Some (commit_if theirs.entry))
        (Some c))
        (λ s. IsMergedValue (commit_if base.entry)
        (option_map Some (commit_if ours.entry)) (option_map Some (commit_if theirs.entry))
        (Some s.now.precise)) }
{
    match (ours, theirs) {
        (None, None) => None,
        (Some(only), None) => Some(only),
        (None, Some(only)) => Some(only),
        (Some(ours), Some(theirs)) => match agreed_side(equality(base, ours, theirs)) {
            Some(Side::Ours) => Some(ours),
            Some(Side::Theirs) => Some(theirs),
            None => None,
        },
    }
}

// Which of the commits are equal.
pub(crate) fn equality<'a>(
    base: Option<&'a SourceId>,
    ours: &'a SourceId,
    theirs: &'a SourceId,
) -> Equal
    ensures { AreEqual (commit_if base.entry) (Some ours.now.precise) (Some theirs.now.precise)
        result }
{
    Equal {
        sides: is_commit(ours, theirs),
        ours: is_commit_of(base, ours),
        theirs: is_commit_of(base, theirs),
    }
}

// Whether the base has the source at the commit.
fn is_commit_of<'a>(base: Option<&'a SourceId>, source: &'a SourceId) -> bool
    ensures { Decides result (Some source.now.precise ≡ commit_if base.entry) }
{
    match base {
        Some(base) => is_commit(source, base),
        None => false,
    }
}

// Whether two sources are at one commit.
pub(crate) fn is_commit(one: &SourceId, other: &SourceId) -> bool
    ensures { Decides result (one.now.precise ≡ other.now.precise) }
{
    one.precise() == other.precise()
}
