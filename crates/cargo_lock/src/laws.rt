//! Laws of this crate: each is the contract of a function that does nothing, or only compares two
//! values. They use the definitions of the contracts of `Lockfile` and of the types of
//! `lockfile::encoding`. `headline` has the promises of this library in one.

ghost use Rattle.cargo_lock.specs.Headline.{Headline};
ghost use Rattle.cargo_lock_encoding.specs.Means.{MeansOne};
ghost use Rattle.cargo_lock.specs.Shortest.{ShortestReferences, WrittenByBearers};
ghost use Rattle.cargo_lock_encoding.specs.Survives.{SurvivesExactly};
ghost use Rattle.cargo_lock.specs.Translation.{SameByTexts, WrittenAgain};
ghost use Rattle.cargo_lock.specs.Plain.{PlainSurvives};
ghost use Rattle.cargo_lock.specs.Printed.{PrintedBack, TextIsExact, TextMeansOne};
ghost use Rattle.cargo_lock.specs.Same.{EqualExactlyByKeys, EqualTablesAndTexts};

use crate::dependency::tree::laws as drawings;
pub use cargo_lock_encoding::laws::{metadata_is_read_key_by_key, text_is_read, values_are_read};
pub use cargo_lock_graph::drawing::laws::{
    drawing_exists, drawing_is_unique, drawings_are_one_form, edges_match_entries,
    entries_are_counted, entries_are_lines, graph_has_one_drawing, node_occurs_where_reachable,
    reachable_node_is_expanded, text_is_ended_lines, text_is_of_one_drawing,
    text_is_told_by_later_entries, text_tells_the_drawing,
};
pub use cargo_lock_graph::laws::{
    directions_compare_in_order, edges_are_one, lost_dependencies_have_no_edges,
};
pub use cargo_lock_parts::laws::{
    checksums_read_back, dependencies_are_equal_by_keys, git_references_compare_in_order,
    kinds_compare_in_order, no_rank_is_no_match, packages_are_equal_by_keys,
    patches_are_equal_by_keys, rank_is_symmetric, rank_one_is_equal_keys, ranks_imply_last,
    rooted_paths_have_sources, sources_are_equal_by_keys,
};
pub use cargo_lock_references::laws::{
    checksums_stand_at_least_keys, formats_compare_by_number, marked_sources_are_equal_by_keys,
    references_are_equal_by_keys, references_are_shortened_by_places, shortened_references_stay,
    written_metadata_key_by_key,
};

/// A table means at most one lockfile, in every field.
pub fn table_means_one()
    ensures { MeansOne }
{}

/// Two lockfiles are equal by `==` exactly if their formats, their metadata and the keys of their
/// packages, roots and unused patches are equal, in order.
pub fn lockfiles_are_equal_by_keys()
    ensures { EqualExactlyByKeys }
{}

/// Equal lockfiles have equal tables and equal texts.
pub fn equal_lockfiles_are_written_alike()
    ensures { EqualTablesAndTexts }
{}

/// A lockfile survives a format exactly if the table written in that format means a lockfile of
/// that format with equal packages, root and patches.
pub fn survival_is_exact()
    ensures { SurvivesExactly }
{}

/// If a lockfile survives its own format, writing, reading and writing again gives the same table.
pub fn survivors_are_written_again()
    ensures { WrittenAgain }
{}

/// If a lockfile survives its own format, which is V2 or later, and no two packages are equal in
/// identity, each dependency that is among the packages is in the table in its shortest form. The
/// contract of `Lockfile::to_table` has this for its table.
pub fn references_are_shortest()
    ensures { ShortestReferences }
{}

/// The table of a package depends on the format, on the package, and on the packages that have the
/// names of its dependencies. It does not depend on the order of the packages.
pub fn packages_are_written_by_namesakes()
    ensures { WrittenByBearers }
{}

/// If a lockfile survives its own format and no package has both a replacement and dependencies,
/// its printed text means a lockfile of that format with equal packages and patches, the written
/// metadata and no root.
pub fn printed_survivors_are_read_back()
    ensures { PrintedBack }
{}

/// The text printed in a format reads back exactly if the lockfile survives the format, has no
/// root, and no package has both a replacement and dependencies.
pub fn text_is_exact()
    ensures { TextIsExact }
{}

/// A text means at most one lockfile.
pub fn text_means_one()
    ensures { TextMeansOne }
{}

/// If the text of each step of a translation reads back, the translation by texts leads to the same
/// lockfile as the one by tables, which is what `Lockfile::translate_through` does.
pub fn texts_lead_as_tables()
    ensures { SameByTexts }
{}

/// Plain lockfiles survive V2, V3 and V4, and if some package has a checksum V1 too.
pub fn plain_lockfiles_survive()
    ensures { PlainSurvives }
{}

/// What this library promises of lockfiles and their trees: a lockfile survives a format exactly if
/// the table written in it reads back; its text reads back exactly if it also has no root and no
/// package has both a replacement and dependencies; a table or a text means at most one lockfile; a
/// dependency of a lockfile that survives has its shortest form; and a rendering draws its start
/// and each reachable edge exactly once.
pub fn headline()
    ensures { Headline }
{
    table_means_one();
    survival_is_exact();
    survivors_are_written_again();
    printed_survivors_are_read_back();
    text_is_exact();
    text_means_one();
    plain_lockfiles_survive();
    references_are_shortest();
    packages_are_written_by_namesakes();
    edges_are_one();
    drawings::drawing_exists();
    drawings::drawing_is_unique();
    drawings::node_occurs_where_reachable();
    drawings::reachable_node_is_expanded();
    drawings::edges_match_entries();
    drawings::entries_are_counted();
    drawings::text_tells_the_drawing();
    drawings::text_is_of_one_drawing();
}
