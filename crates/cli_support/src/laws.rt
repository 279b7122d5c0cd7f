//! Laws of this crate, each the contract of a function without a body.

ghost use Rattle.cli_support.specs.Terminal.{NothingIsHidden};

/// What is shown to a terminal of a text has no character that a terminal obeys or does not show.
pub fn nothing_is_hidden()
    ensures { NothingIsHidden }
{}
