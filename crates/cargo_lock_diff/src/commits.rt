//! How commits are printed.

ghost use Rattle.std.specs.Prelude.{◌≡◌, Some, option_copied};
ghost use Rattle.std.specs.Char.{is_ascii_hexdigit};
ghost use Rattle.std.specs.List.{list_all};
ghost use Rattle.cargo_lock_parts.specs.SourceKey.{precise_if_git};
ghost use Rattle.cargo_lock_diff.specs.Commits.{commit_by, own_commit, commits_for, short_text};
ghost use Rattle.cargo_lock_diff.specs.Commits as spec;

use crate::same::have_one_origin;
use cargo_lock_parts::package::{Package, SourceId};
use printing::Shown;
use std::fmt;

/// How commits are printed where a line has both of a package.
#[derive(Debug, Clone, Copy)]
pub enum Commits {
    /// By their first eight digits, unless these are the same.
    Short,

    /// By all of their digits.
    Full,
}

impl Commits {
    // The text of a commit.
    fn text(self, commit: &str) -> &str
        ensures { result.now ≡ commit_by self commit.now }
    {
        match self {
            Commits::Short => short(commit),
            Commits::Full => commit,
        }
    }

    // The same, or in full if the short texts of both commits are the same.
    fn between(self, old: Option<&str>, new: Option<&str>) -> Commits
        ensures { result ≡ commits_for self (option_copied old.entry) (option_copied new.entry) }
    {
        match (old, new) {
            (Some(old), Some(new)) => self.apart(old, new),
            _ => self,
        }
    }

    fn apart(self, old: &str, new: &str) -> Commits
        ensures { result ≡ commits_for self (Some old.now) (Some new.now) }
    {
        if short(old) == short(new) {
            Commits::Full
        } else {
            self
        }
    }
}

// The first eight digits of a commit of forty. Another text is whole.
fn short(text: &str) -> &str
    ensures { result.now ≡ short_text text.now }
{
    if is_commit(text) { &text[..8] } else { text }
}

// Whether a text is a commit as Git names it: forty hexadecimal digits.
fn is_commit(text: &str) -> bool
    ensures { result ≡ spec.is_commit text.now }
{
    text.len() == 40 && are_digits(text)
}

fn are_digits(text: &str) -> bool
    ensures { result ≡ list_all is_ascii_hexdigit text.now }
{
    text.as_bytes().iter().all(|byte| byte.is_ascii_hexdigit())
}

// The commit of a source, if it is a repository and names one.
fn commit(source: &Option<SourceId>) -> Option<&str>
    ensures { option_copied result ≡ own_commit source.now }
{
    match source {
        Some(source) => repository_commit(source),
        None => None,
    }
}

fn repository_commit(source: &SourceId) -> Option<&str>
    ensures { option_copied result ≡ precise_if_git source.now.kind source.now.precise }
{
    if source.is_git() {
        source.precise()
    } else {
        None
    }
}

// Whether packages are of one repository at one URL, and of one branch, tag or revision.
pub(crate) fn have_one_repository(old: &Package, new: &Package) -> bool
    ensures { result ≡ spec.have_one_repository old.now new.now }
{
    is_of_repository(&new.source) && have_one_origin(old, new)
}

fn is_of_repository(source: &Option<SourceId>) -> bool
    ensures { result ≡ spec.is_of_repository source.now }
{
    match source {
        Some(source) => source.is_git(),
        None => false,
    }
}

// Both commits of a pair.
#[derive(Clone, Copy)]
pub(crate) struct Revisions<'a>(
    pub(crate) Commits,
    pub(crate) &'a Package,
    pub(crate) &'a Package,
);

impl fmt::Display for Revisions<'_> {
    ghost use Rattle.std.specs.Prelude.{Some};
    ghost use Rattle.cargo_lock_diff.specs.Commits.{own_commit, commits_text};

    ghost output = { λ shown. Some (commits_text shown.0 (own_commit shown.1.now.source)
        (own_commit shown.2.now.source)) };

    fn fmt<W: fmt::Write>(&self, f: &mut fmt::Formatter<W>) -> fmt::Result {
        let Revisions(commits, old, new) = *self;
        let from = commit(&old.source);
        let to = commit(&new.source);
        let commits = commits.between(from, to);
        let from = CommitText(commits, from);
        let to = CommitText(commits, to);
        write!(f, ": rev {from} -> {to}")
    }
}

// A commit, or `none`.
#[derive(Clone, Copy)]
struct CommitText<'a>(Commits, Option<&'a str>);

impl fmt::Display for CommitText<'_> {
    ghost use Rattle.std.specs.Prelude.{Some, option_copied};
    ghost use Rattle.cargo_lock_diff.specs.Commits.{commit_or_none};

    ghost output = { λ shown. Some (commit_or_none shown.0 (option_copied shown.1)) };

    fn fmt<W: fmt::Write>(&self, f: &mut fmt::Formatter<W>) -> fmt::Result {
        let CommitText(commits, commit) = *self;
        match commit {
            Some(commit) => {
                let text = Shown(commits.text(commit));
                write!(f, "{text}")
            }
            None => f.write_str("none"),
        }
    }
}
