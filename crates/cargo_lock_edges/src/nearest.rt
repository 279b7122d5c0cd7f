//! The package that is nearest to a dependency: that of its own words, or else the one to which it
//! resolves in a tree.

ghost use Rattle.std.specs.Prelude.{ℕ, MatchOption};
ghost use Rattle.cargo_lock_graph.specs.Targets.{IsLost, IsTarget, MatchesAt};
ghost use Rattle.cargo_lock_edges.specs.Groups.{AreShared};
ghost use Rattle.cargo_lock_edges.specs.Nearest.{HasNoOwn, IsNearestPackage, IsOwnTarget};

use crate::groups::{Groups, Named};
use crate::likeness::Likeness;
use cargo_lock_parts::dependency::Dependency;

impl<'a> Groups<'a> {
    /// The place of the package that is nearest to a dependency: the last of those of its own words
    /// that match it best, or where none of these matches, the last of those that match it best.
    /// `None` if no package matches.
    ///
    /// ```
    /// let nearest = groups.nearest(dependency);
    /// ```
    pub fn nearest(&self, dependency: &'a Dependency) -> Option<usize>
        ensures { MatchOption result
            (IsLost self.now.packages dependency.now)
            (IsNearestPackage self.now.packages dependency.now) }
    {
        match self.named(dependency) {
            Named::No => None,
            Named::Only(place) => self.only_fit(dependency, place),
            Named::Several => self.nearest_of_several(dependency),
        }
    }

    // The nearest package, where several have the dependency's name and version.
    fn nearest_of_several(&self, dependency: &'a Dependency) -> Option<usize>
        requires { AreShared self.now dependency.now }
        ensures { MatchOption result
            (IsLost self.now.packages dependency.now)
            (IsNearestPackage self.now.packages dependency.now) }
    {
        match self.last_own(dependency) {
            Some(place) => Some(place),
            None => self.last_other(dependency),
        }
    }

    // The last of the packages of the dependency's own words that match it best.
    fn last_own(&self, dependency: &'a Dependency) -> Option<usize>
        requires { AreShared self.now dependency.now }
        ensures { MatchOption result
            (HasNoOwn self.now.packages dependency.now)
            (IsOwnTarget self.now.packages dependency.now) }
    {
        match self.last_like(Likeness::Rank(1), dependency) {
            Some(place) => Some(place),
            None => self.last_with_reference(dependency),
        }
    }

    // The same where no package has the dependency's identity.
    fn last_with_reference(&self, dependency: &'a Dependency) -> Option<usize>
        requires shared { AreShared self.now dependency.now }
        requires first { (k : ℕ) → ¬ MatchesAt self.now.packages dependency.now k 1 }
        ensures { MatchOption result
            (HasNoOwn self.now.packages dependency.now)
            (IsOwnTarget self.now.packages dependency.now) }
    {
        match self.last_like(Likeness::Pinned, dependency) {
            Some(place) => Some(place),
            None => self.last_like(Likeness::Rank(3), dependency),
        }
    }

    // The last of the packages that match a dependency best, where none is of its own words.
    fn last_other(&self, dependency: &'a Dependency) -> Option<usize>
        requires shared { AreShared self.now dependency.now }
        requires none { HasNoOwn self.now.packages dependency.now }
        ensures { MatchOption result
            (IsLost self.now.packages dependency.now)
            (IsTarget self.now.packages dependency.now) }
    {
        match self.last_like(Likeness::Rank(2), dependency) {
            Some(place) => Some(place),
            None => self.last_like(Likeness::Rank(4), dependency),
        }
    }
}
