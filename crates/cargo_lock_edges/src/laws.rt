//! Laws of where dependencies lead, each the contract of a function without a body.

ghost use Rattle.cargo_lock_edges.specs.Laws.{IdentityIsNearest, LeadIsOne, LostHaveNoOwnEdges};
ghost use Rattle.cargo_lock_edges.specs.Laws.{NearestIsOne, OthersLeadAsInTrees, OwnEndsAreOne};
ghost use Rattle.cargo_lock_edges.specs.Laws.{OwnWordsComeFirst, ReplacedLeadOn};

/// One package is nearest to a dependency.
pub fn nearest_is_one()
    ensures { NearestIsOne }
{}

/// A dependency leads to one package.
pub fn lead_is_one()
    ensures { LeadIsOne }
{}

/// Where a package of the dependency's own words matches it, the nearest package is of these words.
pub fn own_words_come_first()
    ensures { OwnWordsComeFirst }
{}

/// Where no package of the dependency's own words matches it, the nearest package is the one to which
/// it resolves in a tree.
pub fn others_lead_as_in_trees()
    ensures { OthersLeadAsInTrees }
{}

/// The last package with the dependency's identity is nearest.
pub fn identity_is_nearest()
    ensures { IdentityIsNearest }
{}

/// Where the nearest package is replaced, and some package fits the replacement, the dependency leads
/// to what is nearest to that one.
pub fn replaced_lead_on()
    ensures { ReplacedLeadOn }
{}

/// Packages have only one list of edges, by their ends.
pub fn own_ends_are_one()
    ensures { OwnEndsAreOne }
{}

/// Packages have no list of edges if no package matches some dependency.
pub fn lost_dependencies_have_no_own_edges()
    ensures { LostHaveNoOwnEdges }
{}
