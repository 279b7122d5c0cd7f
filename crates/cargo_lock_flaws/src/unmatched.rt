//! The dependencies that no package matches, and the packages that the workspace does not lead to.
//! Both are found by the same index.

ghost use Rattle.std.specs.Prelude.{IfOk, length};
ghost use Rattle.cargo_lock_flaws.specs.Lost.{AreLost};
ghost use Rattle.lists.specs.Places.{IsPlaces};
ghost use Rattle.cargo_lock_flaws.specs.Reach.{IsOrphan};

use crate::lost::lost_among;
use crate::reach::orphans_among;
use cargo_lock_edges::groups::Groups;
use cargo_lock_parts::package::Package;
use std::alloc::{AllocError, Global};

/// The dependencies that no package matches, as `lost_dependencies` has them, and the packages that
/// the workspace does not lead to, as `orphans` has them.
#[derive(Drop)]
pub struct Unmatched {
    pub lost_dependencies: Vec<(usize, usize)>,
    pub orphans: Vec<usize>,
}

impl Unmatched {
    /// Those of some packages and a separate root. Fails when out of memory.
    pub fn of(
        alloc: Global,
        packages: &[Package],
        root: &Option<Package>,
    ) -> Result<Unmatched, AllocError>
        ensures lost { IfOk result (λ found. AreLost packages.now found.lost_dependencies.items) }
        ensures orphans { IfOk result (λ found.
            IsPlaces (IsOrphan packages.now root.now) (length packages.now) found.orphans.items) }
    {
        let groups = Groups::of(alloc, packages)?;
        let lost_dependencies = lost_among(alloc, packages, &groups)?;
        let orphans = orphans_among(alloc, &groups, packages, root)?;
        Ok(Unmatched {
            lost_dependencies,
            orphans,
        })
    }
}
