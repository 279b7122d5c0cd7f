//! Where dependencies lead.

ghost use Rattle.std.specs.Prelude.{◌<◌, MatchOption, Some, length};
ghost use Rattle.cargo_lock_graph.specs.Targets.{HoldsOf, IsLost};
ghost use Rattle.cargo_lock_edges.specs.Leads.{LeadsToPackage, IsInItsPlace};

use crate::groups::Groups;
use cargo_lock_parts::dependency::Dependency;
use cargo_lock_parts::package::Package;

impl<'a> Groups<'a> {
    /// The place to which a dependency leads: that of the nearest package, or where this is replaced,
    /// that of the package that is nearest to the replacement. `None` if no package matches the
    /// dependency.
    ///
    /// ```
    /// match groups.lead(dependency) {
    ///     Some(place) => println!(rt; "it leads to package {place}")?,
    ///     None => println!(rt; "no package fits it")?,
    /// }
    /// ```
    pub fn lead(&self, dependency: &'a Dependency) -> Option<usize>
        ensures { MatchOption result
            (IsLost self.now.packages dependency.now)
            (LeadsToPackage self.now.packages dependency.now) }
    {
        let near = self.nearest(dependency)?;
        Some(self.standing_for(near))
    }

    // The place of the package that stands for the one at a place.
    fn standing_for(&self, near: usize) -> usize
        requires { near < length self.now.packages }
        ensures { HoldsOf (λ p. IsInItsPlace self.now.packages p.replace near result)
            self.now.packages near }
    {
        self.stand_in(self.package(near), near)
    }

    // The place of the package that stands for this one, which is at a place.
    fn stand_in(&self, package: &'a Package, near: usize) -> usize
        ensures { IsInItsPlace self.now.packages «package».now.replace near result }
    {
        match &package.replace {
            Some(replacement) => self.nearest_or(replacement, near),
            None => near,
        }
    }

    // The place of the package that is nearest to a replacement, or, where no package fits it, of the
    // one that it replaces.
    fn nearest_or(&self, replacement: &'a Dependency, near: usize) -> usize
        ensures { IsInItsPlace self.now.packages (Some replacement.now) near result }
    {
        match self.nearest(replacement) {
            Some(place) => place,
            None => near,
        }
    }
}
