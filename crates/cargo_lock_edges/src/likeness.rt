//! Which packages are like a dependency, by a rank or by the commit and the reference.

ghost use Rattle.std.specs.Prelude.{◌≤◌, ℕ, MatchOption};
ghost use Rattle.std.specs.Bool.{Decides};
ghost use Rattle.std.specs.List.{AllPairs, Contains};
ghost use Rattle.cargo_lock_edges.specs.Groups.{AreShared};
ghost use Rattle.cargo_lock_edges.specs.Likeness.{HasAllLike, IsLastLike, IsLikeAt};

use crate::groups::Groups;
use cargo_lock_parts::dependency::Dependency;

// How a package is like a dependency.
#[derive(Clone, Copy)]
pub(crate) enum Likeness {
    // It matches with this rank.
    Rank(u8),

    // It matches with its commit, and has its reference.
    Pinned,
}

impl<'a> Groups<'a> {
    // The last of the packages that are like a dependency.
    pub(crate) fn last_like(&self, likeness: Likeness, dependency: &'a Dependency) -> Option<usize>
        requires { AreShared self.now dependency.now }
        ensures { MatchOption result
            ((k : ℕ) → ¬ IsLikeAt self.now.packages dependency.now likeness k)
            (IsLastLike self.now.packages dependency.now likeness) }
    {
        let number = self.group_like(likeness, dependency)?;
        self.last_among(likeness, dependency, self.places(number))
    }

    // The group of the packages that can be like a dependency. `None` if it is empty.
    fn group_like(&self, likeness: Likeness, dependency: &'a Dependency) -> Option<usize>
        requires { AreShared self.now dependency.now }
        ensures { MatchOption result
            ((k : ℕ) → ¬ IsLikeAt self.now.packages dependency.now likeness k)
            (HasAllLike self.now dependency.now likeness) }
    {
        match likeness {
            Likeness::Rank(rank) => self.group(rank, dependency),
            Likeness::Pinned => self.pinned_group(dependency),
        }
    }

    // The last of some places, which ascend, whose package is like a dependency.
    fn last_among(
        &self,
        likeness: Likeness,
        dependency: &Dependency,
        places: &[usize],
    ) -> Option<usize>
        requires { AllPairs (λ a b. a ≤ b) places.now }
        ensures { MatchOption result
            ((k : ℕ) → Contains places.now k
            → ¬ IsLikeAt self.now.packages dependency.now likeness k)
            (λ place. IsLikeAt self.now.packages dependency.now likeness place
            × ((k : ℕ) → Contains places.now k
            → IsLikeAt self.now.packages dependency.now likeness k → k ≤ place)) }
    {
        let mut after = places.len();
        while after > 0 {
            after -= 1;
            let place = places[after];
            if self.is_like(likeness, dependency, place) {
                return Some(place);
            }
        }
        None
    }

    // Whether the package at a place is like a dependency.
    fn is_like(&self, likeness: Likeness, dependency: &Dependency, place: usize) -> bool
        ensures { Decides result (IsLikeAt self.now.packages dependency.now likeness place) }
    {
        match likeness {
            Likeness::Rank(rank) => self.is_match(rank, dependency, place),
            Likeness::Pinned => self.is_pinned_match(dependency, place),
        }
    }
}
