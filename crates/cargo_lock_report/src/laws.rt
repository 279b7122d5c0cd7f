//! Laws of reports, each the contract of a function without a body.

ghost use Rattle.cargo_lock_report.specs.Annotations.{EachAnnotationIsOneLine, EachLineIsOwn};
ghost use Rattle.cargo_lock_report.specs.Annotations.{PropertiesAreApart};
ghost use Rattle.cargo_lock_report.specs.Rules.{RulesAreThoseOfFindings};
ghost use Rattle.cargo_lock_report.specs.Uris.{UrisAreClean};

/// Annotations are exactly one line for each finding, in their order, whatever paths and messages hold.
pub fn each_annotation_is_one_line()
    ensures { EachAnnotationIsOneLine }
{}

/// Each line begins with `::error file=` or `::warning file=`, and so with no text of a stranger.
pub fn each_line_is_own()
    ensures { EachLineIsOwn }
{}

/// A path ends neither its property nor the command.
pub fn properties_are_apart()
    ensures { PropertiesAreApart }
{}

/// The rules of a log are those of its results, each once.
pub fn rules_are_those_of_findings()
    ensures { RulesAreThoseOfFindings }
{}

/// The reference of a path has no character that a URI has not.
pub fn uris_are_clean()
    ensures { UrisAreClean }
{}
