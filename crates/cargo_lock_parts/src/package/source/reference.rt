//! The branch, tag or commit of a git repository.

ghost use Rattle.std.specs.Prelude.{◌≡◌, ◌≢◌, Some, MatchOption};
ghost use Rattle.std.specs.Fmt.{DisplaysOnOk};
ghost use Rattle.form_urlencoded.specs.Form.{byte_serialize};
ghost use Rattle.cargo_lock_parts.specs.SourceText.{value_text};

use std::alloc::AllocError;
use std::fmt;
use std::marker::Model;

/// What is checked out of a git repository. A dependency on a repository names at most one of
/// these.
#[derive(Debug, PartialEq, Eq, PartialOrd, Ord, Hash, Drop)]
pub enum GitReference {
    /// The repository's default branch.
    DefaultBranch,

    /// A tag, by its name.
    Tag(String),

    /// The head of a branch, by its name.
    Branch(String),

    /// The commit that git finds for this text, mostly its hash.
    Rev(String),
}

impl Clone for GitReference {
    ghost use Rattle.std.specs.Prelude.{◌≡◌};
    ghost use Rattle.cargo_lock_parts.specs.Source.{git_reference_of};

    ghost is_clone = { λ reference copy. git_reference_of copy ≡ git_reference_of reference };

    fn clone(&self) -> std::result::Result<GitReference, AllocError> {
        match self {
            GitReference::DefaultBranch => Ok(GitReference::DefaultBranch),
            GitReference::Tag(text) => Ok(GitReference::Tag(text.clone()?)),
            GitReference::Branch(text) => Ok(GitReference::Branch(text.clone()?)),
            GitReference::Rev(text) => Ok(GitReference::Rev(text.clone()?)),
        }
    }
}

impl GitReference {
    ghost use Rattle.cargo_lock_parts.specs.Source.{GitReference, DefaultBranch, git_reference_of};

    /// The reference as it is in the query of a URL, such as `tag=v1.0`, with its value escaped as
    /// in a form or unchanged. `None` for the default branch, which has no such text.
    pub fn pretty_ref(&self, escaped: bool) -> Option<PrettyRef<'_>>
        ensures { MatchOption result (git_reference_of self.now ≡ DefaultBranch)
            (λ shown. (git_reference_of self.now ≢ DefaultBranch)
            × (shown ≡ record { reference = git_reference_of self.now; escaped = escaped })) }
    {
        match self {
            GitReference::DefaultBranch => None,
            GitReference::Tag(_) | GitReference::Branch(_) | GitReference::Rev(_) => {
                Some(PrettyRef {
                    reference: self,
                    escaped,
                })
            }
        }
    }
}

/// A git reference that can be displayed. `GitReference::pretty_ref` makes it.
#[derive(Drop)]
pub struct PrettyRef<'a> {
    reference: &'a GitReference,
    escaped: bool,
}

impl<'a> Model for PrettyRef<'a> {
    ghost use Rattle.cargo_lock_parts.specs.Source.{MarkedGitReference, git_reference_of};

    ghost Value = { MarkedGitReference };

    ghost view = { λ shown.
        record { reference = git_reference_of shown.reference.now; escaped = shown.escaped } };
}

impl fmt::Display for PrettyRef<'_> {
    ghost use Rattle.std.specs.Prelude.{Some};
    ghost use Rattle.cargo_lock_parts.specs.SourceText.{marked_pair_text};

    ghost output = { λ shown. Some (marked_pair_text shown) };

    fn fmt<W: fmt::Write>(&self, f: &mut fmt::Formatter<W>) -> fmt::Result {
        match self.reference {
            GitReference::DefaultBranch => Ok(()),
            GitReference::Tag(text) => {
                f.write_str("tag=")?;
                write_value(text.as_str(), self.escaped, f)
            }
            GitReference::Branch(text) => {
                f.write_str("branch=")?;
                write_value(text.as_str(), self.escaped, f)
            }
            GitReference::Rev(text) => {
                f.write_str("rev=")?;
                write_value(text.as_str(), self.escaped, f)
            }
        }
    }
}

fn write_value<W: fmt::Write>(text: &str, escaped: bool, f: &mut fmt::Formatter<W>) -> fmt::Result
    ensures { DisplaysOnOk W.write_str_gives f.old result
        (Some (value_text escaped text.now)) f.new }
{
    if escaped {
        write_serialized(text, f)
    } else {
        f.write_str(text)
    }
}

// The text escaped as in a form.
fn write_serialized<W: fmt::Write>(text: &str, f: &mut fmt::Formatter<W>) -> fmt::Result
    ensures { DisplaysOnOk W.write_str_gives f.old result (Some (byte_serialize text.now)) f.new }
{
    for piece in form_urlencoded::byte_serialize(text.as_bytes()) {
        f.write_str(piece)?;
    }
    Ok(())
}
