//! Laws of tables, each the contract of a function without a body.

ghost use Rattle.cargo_lock_encoding.specs.PrintedTable.{TextIsRead, ValuesAreRead};
ghost use Rattle.cargo_lock_encoding.specs.TableMetadata.{MeansKeyByKey, ReadsKeyByKey};

/// The metadata of a lockfile that a table means has, at each key, exactly the text of the last
/// pair with the key in the table under `metadata`, and nothing if no pair has the key. A value
/// reads as metadata exactly if it is a table with only texts, or is absent.
pub fn metadata_is_read_key_by_key()
    ensures means { MeansKeyByKey }
    ensures reads { ReadsKeyByKey }
{}

/// `toml` reads the text of `EncodableLockfile::to_string` as the table of its values without the
/// root, without an empty list of packages, without the replacement of a package that has
/// dependencies, and without a number below 3. The law requires that the number is below 2^63,
/// which an `i64` always is.
pub fn values_are_read()
    ensures { ValuesAreRead }
{}

/// `toml` reads the printed text of every lockfile as its table without the root, without an empty
/// list of packages and without the replacement of a package that has dependencies.
pub fn text_is_read()
    ensures { TextIsRead }
{}
