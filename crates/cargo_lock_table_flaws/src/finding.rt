//! What is found in a table that is no lockfile, each displayed as a line.

ghost use Rattle.std.specs.Prelude.{◌≡◌, Some, option_map};
ghost use Rattle.std.specs.Fmt.{DisplaysOnOk};
ghost use Rattle.cargo_lock_table_flaws.specs.Finding.{digits_refusal, encoded_shown};
ghost use Rattle.cargo_lock_table_flaws.specs.Finding.{key_word, noun_of, owner_of};
ghost use Rattle.cargo_lock_table_flaws.specs.Finding.{owner_shown, place_words, role_fault};
ghost use Rattle.cargo_lock_table_flaws.specs.Finding.{role_verb, unread_line, unresolved_line};
ghost use Rattle.cargo_lock_table_flaws.specs.Finding.{why_text, written_of};

use cargo_lock_references::identified::Identified;
use cargo_lock_references::{EncodableDependency, EncodablePackage};
use printing::{Quoted, Shown};
use std::fmt;

/// Where the table of a package is in the table of a lockfile.
#[derive(Clone, Copy)]
pub enum Place {
    /// In the list under `package`, where it has this number, from 1 on.
    Listed(usize),

    /// Under `root`.
    Root,

    /// In the list of unused patches, where it has this number, from 1 on.
    Unused(usize),
}

/// The table of a package, as messages name it.
#[derive(Clone, Copy)]
pub struct Owner<'a> {
    /// Where it is.
    pub place: Place,

    /// The text under `name`, if there is one.
    pub name: Option<&'a str>,

    /// The text under `version`, if there is one.
    pub version: Option<&'a str>,
}

/// A key of the table of a package.
#[derive(Clone, Copy)]
pub enum Key {
    /// `name`.
    Name,

    /// `version`.
    Version,

    /// `source`.
    Source,

    /// `checksum`.
    Checksum,

    /// `dependencies`: one of its list.
    Dependencies,

    /// `replace`.
    Replace,
}

/// What stands under a key, or in the list under it.
#[derive(Clone, Copy)]
pub enum Written<'a> {
    /// Nothing: the table does not have the key.
    Nothing,

    /// A text.
    Text(&'a str),

    /// A value that is not a text.
    NoText,

    /// A value that is not a list, where one is wanted.
    NoList,
}

/// What a reference is of its package.
#[derive(Clone, Copy)]
pub enum Role {
    /// A dependency that is named among the packages of the lockfile.
    Dependency,

    /// A dependency that is named in full, as in V1 and in a separate root.
    FullDependency,

    /// The replacement, which is named in full.
    Replacement,
}

/// One thing that keeps a table from being read as a lockfile. `Display` writes it as a line
/// without a newline.
#[derive(Clone, Copy)]
pub enum TableFinding<'a> {
    /// What stands under a key does not read: `KEY: PACKAGE: WHY`, as
    /// `checksum: foo 1.0.0: expected 64 hex digits, got 2`.
    Unread(Owner<'a>, Key, Written<'a>),

    /// A reference of the package at a place resolves to nothing, as
    /// `reference: app 0.1.0 depends on cc, which no package is`.
    Unresolved(Place, &'a EncodablePackage, &'a EncodableDependency, Role),
}

impl fmt::Display for TableFinding<'_> {
    ghost use Rattle.std.specs.Prelude.{Some};
    ghost use Rattle.cargo_lock_table_flaws.specs.Finding.{table_finding_line, table_finding_of};

    ghost output = { λ finding. Some (table_finding_line (table_finding_of finding)) };

    fn fmt<W: fmt::Write>(&self, f: &mut fmt::Formatter<W>) -> fmt::Result {
        match *self {
            TableFinding::Unread(owner, key, written) => write_unread(owner, key, written, f),
            TableFinding::Unresolved(_, one, reference, role) => {
                write_unresolved(one, reference, role, f)
            }
        }
    }
}

fn write_unread<W: fmt::Write>(
    owner: Owner<'_>,
    key: Key,
    written: Written<'_>,
    f: &mut fmt::Formatter<W>,
) -> fmt::Result
    ensures { DisplaysOnOk W.write_str_gives f.old result
        (Some (unread_line (owner_of owner.entry) key (written_of written.entry))) f.new }
{
    let word = key.as_str();
    let owner = OwnerText(owner);
    let why = Why(key, written);
    write!(f, "{word}: {owner}: {why}")
}

fn write_unresolved<W: fmt::Write>(
    one: &EncodablePackage,
    reference: &EncodableDependency,
    role: Role,
    f: &mut fmt::Formatter<W>,
) -> fmt::Result
    ensures { DisplaysOnOk W.write_str_gives f.old result
        (Some (unresolved_line one.now reference.now role)) f.new }
{
    let one = EncodedText(one);
    let verb = role.verb();
    let name = Shown(&reference.name);
    let fault = role.fault();
    write!(f, "reference: {one}{verb}{name}{fault}")
}

impl Key {
    /// The key itself.
    pub fn as_str(self) -> &'static str
        ensures { result.now ≡ key_word self }
    {
        match self {
            Key::Name => "name",
            Key::Version => "version",
            Key::Source => "source",
            Key::Checksum => "checksum",
            Key::Dependencies => "dependencies",
            Key::Replace => "replace",
        }
    }

    // What a text under the key is.
    fn noun(self) -> &'static str
        ensures { result.now ≡ noun_of self }
    {
        match self {
            Key::Name => "name",
            Key::Version => "version",
            Key::Source => "source",
            Key::Checksum => "checksum",
            Key::Dependencies | Key::Replace => "reference",
        }
    }
}

impl Role {
    // What a message has between the package and the name in the reference.
    fn verb(self) -> &'static str
        ensures { result.now ≡ role_verb self }
    {
        match self {
            Role::Dependency | Role::FullDependency => " depends on ",
            Role::Replacement => " is replaced by ",
        }
    }

    // What a message has behind the name in the reference.
    fn fault(self) -> &'static str
        ensures { result.now ≡ role_fault self }
    {
        match self {
            Role::Dependency => ", which no package is",
            Role::FullDependency | Role::Replacement => ", which is named without a version",
        }
    }
}

// Displays why what stands under a key does not read.
#[derive(Clone, Copy)]
struct Why<'a>(Key, Written<'a>);

impl fmt::Display for Why<'_> {
    ghost use Rattle.std.specs.Prelude.{Some};
    ghost use Rattle.cargo_lock_table_flaws.specs.Finding.{why, written_of};

    ghost output = { λ shown. Some (why shown.0 (written_of shown.1)) };

    fn fmt<W: fmt::Write>(&self, f: &mut fmt::Formatter<W>) -> fmt::Result {
        let Why(key, written) = *self;
        match written {
            Written::Nothing => f.write_str("missing"),
            Written::Text(text) => write_refused(key, text, f),
            Written::NoText => f.write_str("not a text"),
            Written::NoList => f.write_str("not a list"),
        }
    }
}

fn write_refused<W: fmt::Write>(key: Key, text: &str, f: &mut fmt::Formatter<W>) -> fmt::Result
    ensures { DisplaysOnOk W.write_str_gives f.old result (Some (why_text key text.now)) f.new }
{
    match key {
        Key::Checksum => write_digits(text, f),
        Key::Name | Key::Version | Key::Source | Key::Dependencies | Key::Replace => {
            let noun = key.noun();
            let text = Quoted(text);
            write!(f, "`{text}` is not a {noun}")
        }
    }
}

// Writes why a text is not 64 hex digits.
fn write_digits<W: fmt::Write>(text: &str, f: &mut fmt::Formatter<W>) -> fmt::Result
    ensures { DisplaysOnOk W.write_str_gives f.old result
        (Some (digits_refusal text.now)) f.new }
{
    let length = text.len();
    if length == 64 {
        return f.write_str("not hexadecimal");
    }
    write!(f, "expected 64 hex digits, got {length}")
}

// Displays the name and the version of the table of a package, as far as they are texts, or where
// it is.
#[derive(Clone, Copy)]
struct OwnerText<'a>(Owner<'a>);

impl fmt::Display for OwnerText<'_> {
    ghost use Rattle.std.specs.Prelude.{Some};
    ghost use Rattle.cargo_lock_table_flaws.specs.Finding.{owner_of, owner_shown};

    ghost output = { λ shown. Some (owner_shown (owner_of shown.0)) };

    fn fmt<W: fmt::Write>(&self, f: &mut fmt::Formatter<W>) -> fmt::Result {
        let OwnerText(owner) = *self;
        let Some(name) = owner.name else {
            return write_place(owner.place, f);
        };
        let name = Shown(name);
        match owner.version {
            Some(version) => {
                let version = Shown(version);
                write!(f, "{name} {version}")
            }
            None => write!(f, "{name}"),
        }
    }
}

fn write_place<W: fmt::Write>(place: Place, f: &mut fmt::Formatter<W>) -> fmt::Result
    ensures { DisplaysOnOk W.write_str_gives f.old result (Some (place_words place)) f.new }
{
    match place {
        Place::Listed(number) => write!(f, "package {number}"),
        Place::Root => f.write_str("root"),
        Place::Unused(number) => write!(f, "patch {number}"),
    }
}

// Displays the name, the version and the source of a package.
#[derive(Clone, Copy)]
struct EncodedText<'a>(&'a EncodablePackage);

impl fmt::Display for EncodedText<'_> {
    ghost use Rattle.std.specs.Prelude.{Some};
    ghost use Rattle.cargo_lock_table_flaws.specs.Finding.{encoded_shown};

    ghost output = { λ shown. Some (encoded_shown shown.0.now) };

    fn fmt<W: fmt::Write>(&self, f: &mut fmt::Formatter<W>) -> fmt::Result {
        let EncodedText(one) = *self;
        let name = Shown(&one.name);
        let version = Shown(&one.version);
        match one.source() {
            Some(source) => {
                let source = Shown(source);
                write!(f, "{name} {version} ({source})")
            }
            None => write!(f, "{name} {version}"),
        }
    }
}
