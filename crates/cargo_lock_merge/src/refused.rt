//! Why one of the three lists cannot be merged, as a line.

ghost use Rattle.std.specs.Prelude.{Some};
ghost use Rattle.std.specs.Fmt.{DisplaysOnOk};
ghost use Rattle.cargo_lock_merge.specs.Lines.{one_place_text};

use crate::words::{BareSource, CommitText};
use cargo_lock_display::NameVersion;
use cargo_lock_merge_core::placed::are_same;
use cargo_lock_merge_core::refusal::Refusal;
use cargo_lock_merge_core::triple::Role;
use cargo_lock_parts::package::Package;
use printing::Quoted;
use std::fmt;

/// Why the lockfile with this part cannot be merged. `Display` writes it as a line without a
/// newline: the part, a colon, and the reason, as `ours: package syn 2.0.66 is listed twice`.
#[derive(Clone, Copy)]
pub struct Refused<'a, 'r>(pub Role, pub &'r Refusal<'a>);

impl fmt::Display for Refused<'_, '_> {
    ghost use Rattle.std.specs.Prelude.{Some};
    ghost use Rattle.cargo_lock_merge.specs.Lines.{refused_line};

    ghost output = { λ refused. Some (refused_line refused.0 refused.1.now) };

    fn fmt<W: fmt::Write>(&self, f: &mut fmt::Formatter<W>) -> fmt::Result {
        let Refused(role, refusal) = *self;
        let role = RoleText(role);
        let reason = ReasonText(refusal);
        write!(f, "{role}: {reason}")
    }
}

// The part of a lockfile in a merge.
#[derive(Clone, Copy)]
pub(crate) struct RoleText(pub(crate) Role);

impl fmt::Display for RoleText {
    ghost use Rattle.std.specs.Prelude.{Some};
    ghost use Rattle.cargo_lock_merge.specs.Lines.{role_text};

    ghost output = { λ shown. Some (role_text shown.0) };

    fn fmt<W: fmt::Write>(&self, f: &mut fmt::Formatter<W>) -> fmt::Result {
        let RoleText(role) = *self;
        match role {
            Role::Base => f.write_str("base"),
            Role::Ours => f.write_str("ours"),
            Role::Theirs => f.write_str("theirs"),
        }
    }
}

// Why a lockfile cannot be merged.
#[derive(Clone, Copy)]
struct ReasonText<'a, 'r>(&'r Refusal<'a>);

impl fmt::Display for ReasonText<'_, '_> {
    ghost use Rattle.std.specs.Prelude.{Some};
    ghost use Rattle.cargo_lock_merge.specs.Lines.{reason_text};

    ghost output = { λ shown. Some (reason_text shown.0.now) };

    fn fmt<W: fmt::Write>(&self, f: &mut fmt::Formatter<W>) -> fmt::Result {
        let ReasonText(refusal) = *self;
        match refusal {
            Refusal::OnePlace(one, other) => write_one_place(one, other, f),
            Refusal::TwoCommits(one, other) => {
                let source = BareSource(one);
                let commit = CommitText(one);
                let other = CommitText(other);
                write!(f, "{source} is at {commit} and {other}")
            }
            Refusal::Unreplaced(package) => {
                let package = NameVersion(package);
                write!(f, "no package is the replacement of {package}")
            }
            Refusal::Lost(text) => {
                let text = Quoted(text);
                write!(f, "{text}")
            }
        }
    }
}

fn write_one_place<W: fmt::Write>(
    one: &Package,
    other: &Package,
    f: &mut fmt::Formatter<W>,
) -> fmt::Result
    ensures { DisplaysOnOk W.write_str_gives f.old result
        (Some (one_place_text one.now other.now)) f.new }
{
    let package = NameVersion(one);
    if are_same(one, other) {
        return write!(f, "package {package} is listed twice");
    }
    let other = NameVersion(other);
    write!(f, "packages {package} and {other} are at one place")
}
