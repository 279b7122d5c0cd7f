//! How a command ends.

ghost use Rattle.std.specs.Prelude.{◌≡◌, ◌↔◌, IsTrue};
ghost use Rattle.cli.specs.Ending.{IsEnd, status_in};
ghost use Rattle.cli.specs.declared.ending.Reader.TheVariants.{Person};

use cli_support::Fault;
use std::process::ExitCode;

/// How a command ends without a fault.
#[derive(Drop)]
pub(crate) enum Ended {
    /// With a status alone.
    Silent(ExitCode),

    /// With a status, and lines for standard error, each with its newline.
    WithLines(ExitCode, String),

    /// With findings, which are a failure, and a line that counts them, for standard error.
    Found(String),

    /// Without findings, and with a line that counts what was looked at, for a person.
    FoundNothing(String),

    /// With the status of a fault, since lockfiles were not read or cannot be merged, the faults of
    /// these, and a line that counts what was found in others.
    Failed(ExitCode, Vec<Fault>, String),
}

impl Ended {
    // How a command ends that returns nothing: with success, and without lines.
    pub(crate) fn success(_: ()) -> Ended
        ensures status { status_in result ≡ ExitCode.SUCCESS }
        ensures end { IsEnd result }
    {
        Ended::Silent(ExitCode::SUCCESS)
    }
}

/// Who reads standard error.
#[derive(Clone, Copy)]
pub enum Reader {
    /// A person, at a terminal.
    Person,

    /// A program, or a file.
    Program,
}

impl Reader {
    /// Who reads where standard error is, or is not, a terminal.
    pub fn of_terminal(is_terminal: bool) -> Reader {
        if is_terminal {
            Reader::Person
        } else {
            Reader::Program
        }
    }

    // Whether it is a person.
    pub(crate) fn is_person(self) -> bool
        ensures { IsTrue result ↔ (self ≡ Person) }
    {
        match self {
            Reader::Person => true,
            Reader::Program => false,
        }
    }
}
