//! The law of the lines of words, the contract of a function without a body.

ghost use Rattle.cargo_lock_lines.specs.Layout.{WordsAreRead};

/// `toml` reads the lines of any words, as Cargo writes them, as the table of the words, whatever
/// has to be escaped. The law requires that the keys of the metadata ascend, as Cargo writes them,
/// and that the number, if there is one, is an `i64` that is not negative.
pub fn words_are_read()
    ensures { WordsAreRead }
{}
