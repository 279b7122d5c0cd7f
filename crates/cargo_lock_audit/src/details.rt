//! What the file of an advisory says besides, for who reads of it.

use std::marker::Model;

/// What the file of an advisory says besides, as it has it. None of it decides which packages the
/// advisory concerns.
#[derive(Drop)]
pub struct Details {
    /// When it was disclosed, as `2021-01-08`.
    pub date: String,

    /// A URL that tells of it.
    pub url: Option<String>,

    /// How severe it is, by CVSS, as `CVSS:3.1/AV:N/AC:L/PR:N/UI:N/S:U/C:H/I:H/A:H`.
    pub cvss: Option<String>,

    /// Further URLs.
    pub references: Vec<String>,

    /// Its categories, as `memory-corruption`.
    pub categories: Vec<String>,

    /// Its keywords.
    pub keywords: Vec<String>,

    /// What is affected, if that is said.
    pub affected: Option<Affected>,
}

impl Model for Details {
    ghost use Rattle.std.specs.Prelude.{option_map, string_bytes};
    ghost use Rattle.cargo_lock_audit.specs.Details.{DetailsData};
    ghost use Rattle.cargo_lock_audit.specs.Texts.{bytes_of_texts};

    ghost Value = { DetailsData };

    ghost view = { λ d. record {
      date = string_bytes d.date;
      url = option_map string_bytes d.url;
      cvss = option_map string_bytes d.cvss;
      references = bytes_of_texts d.references.items;
      categories = bytes_of_texts d.categories.items;
      keywords = bytes_of_texts d.keywords.items;
      affected = d.affected;
    } };
}

/// What an advisory says is affected of its package. What is empty is not said.
#[derive(Drop)]
pub struct Affected {
    /// The functions, in the order of their paths.
    pub functions: Vec<Function>,

    /// The operating systems, as `windows`.
    pub os: Vec<String>,

    /// The architectures, as `x86_64`.
    pub arch: Vec<String>,
}

impl Model for Affected {
    ghost use Rattle.cargo_lock_audit.specs.Details.{AffectedData};
    ghost use Rattle.cargo_lock_audit.specs.Texts.{bytes_of_texts};

    ghost Value = { AffectedData };

    ghost view = { λ a. record {
      functions = a.functions.items;
      os = bytes_of_texts a.os.items;
      arch = bytes_of_texts a.arch.items;
    } };
}

/// A function that is affected.
#[derive(Drop)]
pub struct Function {
    /// Its path, as `smallvec::SmallVec::insert_many`.
    pub path: String,

    /// The requirements on versions in which it is affected.
    pub versions: Vec<String>,
}

impl Model for Function {
    ghost use Rattle.std.specs.Prelude.{string_bytes};
    ghost use Rattle.cargo_lock_audit.specs.Details.{FunctionData};
    ghost use Rattle.cargo_lock_audit.specs.Texts.{bytes_of_texts};

    ghost Value = { FunctionData };

    ghost view = { λ f. record {
      path = string_bytes f.path;
      versions = bytes_of_texts f.versions.items;
    } };
}
