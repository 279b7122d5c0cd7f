//! Laws of shown texts, each the contract of a function without a body.

ghost use Rattle.printing.specs.Laws.{PlainIsVisible, PrintableAreLines, QuotedHasNoBackquote};
ghost use Rattle.printing.specs.Laws.{ShownApart, ShownAsItStands, ShownIsPrintable};

/// A shown text has no byte outside 0x20 to 0x7E, whatever bytes are shown.
pub fn shown_is_printable()
    ensures { ShownIsPrintable }
{}

/// In the plain form it has no space either.
pub fn plain_is_visible()
    ensures { PlainIsVisible }
{}

/// Between backquotes it has no backquote, so the next one ends it.
pub fn quoted_has_no_backquote()
    ensures { QuotedHasNoBackquote }
{}

/// A text whose bytes are all kept is shown unchanged.
pub fn shown_as_it_stands()
    ensures { ShownAsItStands }
{}

/// Texts that are shown alike are equal.
pub fn shown_apart()
    ensures { ShownApart }
{}

/// Printable texts, each with a newline after it, are exactly as many lines.
pub fn printable_are_lines()
    ensures { PrintableAreLines }
{}
