//! Laws of labels and of the lines of pictures, each the contract of a function without a body.

ghost use Rattle.cargo_lock_diagram.specs.DiagramLaws.{EachArrowIsOneLine, EachPackageIsOneLine};
ghost use Rattle.cargo_lock_diagram.specs.Labels.{DotLabelIsRead, MermaidLabelHasNoQuote};
ghost use Rattle.cargo_lock_diagram.specs.Pictures.{PictureIsRead};

/// Graphviz reads exactly the text as the label, and then what follows.
pub fn dot_label_is_read()
    ensures { DotLabelIsRead }
{}

/// A label of Mermaid has no quote, so the next one ends it.
pub fn mermaid_label_has_no_quote()
    ensures { MermaidLabelHasNoQuote }
{}

/// A package of a picture is one line, whatever its name and its version hold.
pub fn each_package_is_one_line()
    ensures { EachPackageIsOneLine }
{}

/// An edge of a picture is one line.
pub fn each_arrow_is_one_line()
    ensures { EachArrowIsOneLine }
{}

/// The text of a picture reads back, line by line, as its packages and its edges, each once.
pub fn picture_is_read()
    ensures { PictureIsRead }
{}
