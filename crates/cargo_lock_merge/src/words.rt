//! The parts of the lines of conflicts, of moved references and of refusals. Texts that come from a
//! lockfile are shown as `Shown` shows them.

ghost use Rattle.std.specs.Prelude.{Some};
ghost use Rattle.std.specs.Fmt.{DisplaysOnOk};
ghost use Rattle.cargo_lock_parts.specs.Source.{git_reference_of};
ghost use Rattle.cargo_lock_merge.specs.Words.{mark_of, reference_query, replacement_with_commit};
ghost use Rattle.cargo_lock_merge.specs.Words.{start_of};

use cargo_lock_display::{ChecksumText, NameVersion};
use cargo_lock_parts::dependency::Dependency;
use cargo_lock_parts::package::{GitReference, Package, SourceId, SourceKind};
use printing::Shown;
use std::fmt;

// The name, the version and the commit.
#[derive(Clone, Copy)]
pub(crate) struct WithCommit<'a>(pub(crate) &'a Package);

impl fmt::Display for WithCommit<'_> {
    ghost use Rattle.std.specs.Prelude.{Some};
    ghost use Rattle.cargo_lock_merge.specs.Words.{with_commit_text};

    ghost output = { λ shown. Some (with_commit_text shown.0.now) };

    fn fmt<W: fmt::Write>(&self, f: &mut fmt::Formatter<W>) -> fmt::Result {
        let WithCommit(package) = *self;
        let named = NameVersion(package);
        let commit = CommitMark(&package.source);
        write!(f, "{named}{commit}")
    }
}

// The name, the version and the commit of an identity.
#[derive(Clone, Copy)]
pub(crate) struct IdentityText<'a>(pub(crate) &'a Dependency);

impl fmt::Display for IdentityText<'_> {
    ghost use Rattle.std.specs.Prelude.{Some};
    ghost use Rattle.cargo_lock_merge.specs.Words.{identity_text};

    ghost output = { λ shown. Some (identity_text shown.0.now) };

    fn fmt<W: fmt::Write>(&self, f: &mut fmt::Formatter<W>) -> fmt::Result {
        let IdentityText(identity) = *self;
        let name = Shown(&identity.name);
        let version = Shown(&identity.version);
        let commit = CommitMark(&identity.source);
        write!(f, "{name} {version}{commit}")
    }
}

// The beginning of the commit of a git source, after `#`.
#[derive(Clone, Copy)]
struct CommitMark<'a>(&'a Option<SourceId>);

impl fmt::Display for CommitMark<'_> {
    ghost use Rattle.std.specs.Prelude.{Some};
    ghost use Rattle.cargo_lock_merge.specs.Words.{commit_mark};

    ghost output = { λ shown. Some (commit_mark shown.0.now) };

    fn fmt<W: fmt::Write>(&self, f: &mut fmt::Formatter<W>) -> fmt::Result {
        let CommitMark(source) = *self;
        match source {
            Some(source) => {
                if source.is_git() {
                    write_mark(source, f)
                } else {
                    Ok(())
                }
            }
            None => Ok(()),
        }
    }
}

fn write_mark<W: fmt::Write>(source: &SourceId, f: &mut fmt::Formatter<W>) -> fmt::Result
    ensures { DisplaysOnOk W.write_str_gives f.old result
        (Some (mark_of source.now.precise)) f.new }
{
    match source.precise() {
        Some(commit) => {
            let commit = Shown(Start(commit));
            write!(f, "#{commit}")
        }
        None => Ok(()),
    }
}

// The beginning of the commit of a source, or `none`.
#[derive(Clone, Copy)]
pub(crate) struct CommitText<'a>(pub(crate) &'a SourceId);

impl fmt::Display for CommitText<'_> {
    ghost use Rattle.std.specs.Prelude.{Some};
    ghost use Rattle.cargo_lock_merge.specs.Words.{commit_text};

    ghost output = { λ shown. Some (commit_text shown.0.now.precise) };

    fn fmt<W: fmt::Write>(&self, f: &mut fmt::Formatter<W>) -> fmt::Result {
        let CommitText(source) = *self;
        match source.precise() {
            Some(commit) => {
                let commit = Shown(Start(commit));
                write!(f, "{commit}")
            }
            None => f.write_str("none"),
        }
    }
}

// The first eight characters of a text.
#[derive(Clone, Copy)]
struct Start<'a>(&'a str);

impl fmt::Display for Start<'_> {
    ghost use Rattle.std.specs.Prelude.{Some};
    ghost use Rattle.cargo_lock_merge.specs.Words.{start_of};

    ghost output = { λ shown. Some (start_of shown.0.now) };

    fn fmt<W: fmt::Write>(&self, f: &mut fmt::Formatter<W>) -> fmt::Result {
        let Start(text) = *self;
        write_start(text, f)
    }
}

#[tactic(auto, unfolding(crate::specs::Words::start_of))]
fn write_start<W: fmt::Write>(text: &str, f: &mut fmt::Formatter<W>) -> fmt::Result
    ensures { DisplaysOnOk W.write_str_gives f.old result (Some (start_of text.now)) f.new }
{
    for c in text.chars().take(8) {
        f.write_char(c)?;
    }
    Ok(())
}

// The source without a commit in round brackets, if there is one.
#[derive(Clone, Copy)]
pub(crate) struct SourceBehind<'a>(pub(crate) &'a Option<SourceId>);

impl fmt::Display for SourceBehind<'_> {
    ghost use Rattle.std.specs.Prelude.{Some};
    ghost use Rattle.cargo_lock_merge.specs.Words.{bare_source_behind};

    ghost output = { λ shown. Some (bare_source_behind shown.0.now) };

    fn fmt<W: fmt::Write>(&self, f: &mut fmt::Formatter<W>) -> fmt::Result {
        let SourceBehind(source) = *self;
        match source {
            Some(source) => {
                let source = SourceText(source);
                write!(f, " ({source})")
            }
            None => Ok(()),
        }
    }
}

// A source without a commit.
#[derive(Clone, Copy)]
struct SourceText<'a>(&'a SourceId);

impl fmt::Display for SourceText<'_> {
    ghost use Rattle.std.specs.Prelude.{Some};
    ghost use Rattle.cargo_lock_merge.specs.Words.{source_text};

    ghost output = { λ shown. Some (source_text shown.0.now) };

    fn fmt<W: fmt::Write>(&self, f: &mut fmt::Formatter<W>) -> fmt::Result {
        let SourceText(source) = *self;
        if source.is_git() {
            let source = BareSource(source);
            write!(f, "{source}")
        } else {
            let source = Shown(source);
            write!(f, "{source}")
        }
    }
}

// A git source without its commit.
#[derive(Clone, Copy)]
pub(crate) struct BareSource<'a>(pub(crate) &'a SourceId);

impl fmt::Display for BareSource<'_> {
    ghost use Rattle.std.specs.Prelude.{Some};
    ghost use Rattle.cargo_lock_merge.specs.Words.{bare_text};

    ghost output = { λ shown. Some (bare_text shown.0.now) };

    fn fmt<W: fmt::Write>(&self, f: &mut fmt::Formatter<W>) -> fmt::Result {
        let BareSource(source) = *self;
        let url = Shown(source.url());
        let query = Query(source);
        write!(f, "git+{url}{query}")
    }
}

// The reference of a git source, after `?`.
#[derive(Clone, Copy)]
struct Query<'a>(&'a SourceId);

impl fmt::Display for Query<'_> {
    ghost use Rattle.std.specs.Prelude.{Some};
    ghost use Rattle.cargo_lock_merge.specs.Words.{query_of};

    ghost output = { λ shown. Some (query_of shown.0.now.kind) };

    fn fmt<W: fmt::Write>(&self, f: &mut fmt::Formatter<W>) -> fmt::Result {
        let Query(source) = *self;
        match source.kind() {
            SourceKind::Git(reference) => write_reference(reference, f),
            _ => Ok(()),
        }
    }
}

fn write_reference<W: fmt::Write>(
    reference: &GitReference,
    f: &mut fmt::Formatter<W>,
) -> fmt::Result
    ensures { DisplaysOnOk W.write_str_gives f.old result
        (Some (reference_query (git_reference_of reference.now))) f.new }
{
    match reference.pretty_ref(true) {
        Some(pair) => {
            let pair = Shown(&pair);
            write!(f, "?{pair}")
        }
        None => Ok(()),
    }
}

// What the base or a side has of what a conflict is about.
#[derive(Clone, Copy)]
pub(crate) enum Value<'a> {
    // A package, by its version.
    Version(&'a Package),

    // A source, by its commit.
    Commit(&'a SourceId),

    // A package, by its checksum.
    Checksum(&'a Package),

    // A package, by its replacement.
    Replacement(&'a Package),

    // Nothing.
    Absent,
}

impl fmt::Display for Value<'_> {
    ghost use Rattle.std.specs.Prelude.{Some};
    ghost use Rattle.cargo_lock_merge.specs.Words.{side_value_text};

    ghost output = { λ value. Some (side_value_text value) };

    fn fmt<W: fmt::Write>(&self, f: &mut fmt::Formatter<W>) -> fmt::Result {
        match *self {
            Value::Version(package) => {
                let version = Shown(&package.version);
                write!(f, "{version}")
            }
            Value::Commit(source) => {
                let commit = CommitText(source);
                write!(f, "{commit}")
            }
            Value::Checksum(package) => {
                let checksum = ChecksumText(package);
                write!(f, "{checksum}")
            }
            Value::Replacement(package) => write_replacement(&package.replace, f),
            Value::Absent => f.write_str("none"),
        }
    }
}

fn write_replacement<W: fmt::Write>(
    replace: &Option<Dependency>,
    f: &mut fmt::Formatter<W>,
) -> fmt::Result
    ensures { DisplaysOnOk W.write_str_gives f.old result
        (Some (replacement_with_commit replace.now)) f.new }
{
    match replace {
        Some(identity) => {
            let identity = IdentityText(identity);
            write!(f, "{identity}")
        }
        None => f.write_str("none"),
    }
}

// What the base has, if that is shown, and what ours and theirs have.
#[derive(Clone, Copy)]
pub(crate) struct Values<'a> {
    pub(crate) old: Option<Value<'a>>,
    pub(crate) ours: Value<'a>,
    pub(crate) theirs: Value<'a>,
}

impl fmt::Display for Values<'_> {
    ghost use Rattle.std.specs.Prelude.{Some};
    ghost use Rattle.cargo_lock_merge.specs.Words.{values_text};

    ghost output = { λ values. Some (values_text values) };

    fn fmt<W: fmt::Write>(&self, f: &mut fmt::Formatter<W>) -> fmt::Result {
        let Values { old, ours, theirs } = *self;
        match old {
            Some(old) => write!(f, "{old} -> {ours} (ours), {theirs} (theirs)"),
            None => write!(f, "{ours} (ours), {theirs} (theirs)"),
        }
    }
}
