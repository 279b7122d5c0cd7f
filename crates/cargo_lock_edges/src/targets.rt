//! The package to which a dependency resolves in a tree, found by groups.

ghost use Rattle.std.specs.Prelude.{MatchOption};
ghost use Rattle.cargo_lock_graph.specs.Targets.{IsLost, IsTarget};
ghost use Rattle.cargo_lock_edges.specs.Groups.{AreShared, IsNamedAt, IsOnlyPlace};
ghost use Rattle.cargo_lock_edges.specs.Nearest.{IsNearestTarget};

use crate::groups::{Groups, Named};
use crate::likeness::Likeness;
use cargo_lock_parts::dependency::Dependency;

impl<'a> Groups<'a> {
    /// The place of the package to which a dependency resolves in a tree: the last of those that match
    /// it best. `None` if no package matches.
    ///
    /// ```
    /// let in_tree = groups.target(dependency);
    /// ```
    pub fn target(&self, dependency: &'a Dependency) -> Option<usize>
        ensures { MatchOption result
            (IsLost self.now.packages dependency.now)
            (IsTarget self.now.packages dependency.now) }
    {
        match self.named(dependency) {
            Named::No => None,
            Named::Only(place) => self.only_fit(dependency, place),
            Named::Several => self.target_of_several(dependency),
        }
    }

    // The place, whose package is the only one of a dependency's name and version, if it matches.
    pub(crate) fn only_fit(&self, dependency: &Dependency, place: usize) -> Option<usize>
        requires there { IsNamedAt self.now.packages dependency.now place }
        requires only { IsOnlyPlace self.now.packages dependency.now place }
        ensures { MatchOption result
            (IsLost self.now.packages dependency.now)
            (IsNearestTarget self.now.packages dependency.now) }
    {
        if self.fits(dependency, place) {
            Some(place)
        } else {
            None
        }
    }

    // The same where several packages have the dependency's name and version.
    fn target_of_several(&self, dependency: &'a Dependency) -> Option<usize>
        requires { AreShared self.now dependency.now }
        ensures { MatchOption result
            (IsLost self.now.packages dependency.now)
            (IsTarget self.now.packages dependency.now) }
    {
        let best = self.best_group(dependency)?;
        self.last_like(Likeness::Rank(best.rank), dependency)
    }
}
