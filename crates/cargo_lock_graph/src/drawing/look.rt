//! The options of a drawing.

use crate::drawing::symbols::Symbols;

/// The options of a drawing.
#[derive(Clone, Copy)]
pub struct Look<'a> {
    /// The symbols from which its lines are made.
    pub symbols: &'a Symbols,

    /// Whether its labels are exact: with the checksum, or else the source, or else `inexact`.
    pub exact: bool,
}
