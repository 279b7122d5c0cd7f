//! Patches of a lockfile.

ghost use Rattle.std.specs.Prelude.{◌≡◌, ◌↔◌, [], IsTrue};

use crate::dependency::Dependency;
use serde::{Deserialize, Serialize};
use std::alloc::{AllocError, Global};
use std::marker::Model;

/// The patches of a lockfile that no package uses.
#[derive(Debug, Drop, Serialize, Deserialize)]
pub struct Patch {
    /// The packages that would replace others.
    pub unused: Vec<Dependency>,
}

impl Model for Patch {
    ghost use Rattle.std.specs.Prelude.{List};
    ghost use Rattle.cargo_lock_parts.specs.Identity.{Identity};

    ghost Value = { List Identity };

    ghost view = { λ patch. patch.unused.items };
}

impl Patch {
    /// No patch. It allocates nothing.
    pub fn new(alloc: Global) -> Patch
        ensures { result ≡ [] }
    {
        Patch {
            unused: Vec::new(alloc),
        }
    }

    /// Whether there is no unused patch.
    pub fn is_empty(&self) -> bool
        ensures { IsTrue result ↔ (self.now ≡ []) }
    {
        self.unused.is_empty()
    }
}

impl Clone for Patch {
    ghost is_clone = { λ patch copy. copy ≡ patch };

    fn clone(&self) -> std::result::Result<Patch, AllocError> {
        Ok(Patch {
            unused: self.unused.clone()?,
        })
    }
}

impl PartialEq for Patch {
    ghost use Rattle.std.specs.Cmp.{partial_equiv_from_equiv};
    ghost use Rattle.cargo_lock_parts.specs.IdentityOrder.{is_same_patch};
    ghost use Rattle.cargo_lock_parts.specs.IdentityLaws.{patch_equivalence};

    ghost eq = { is_same_patch };

    ghost laws = { partial_equiv_from_equiv patch_equivalence };

    fn eq(&self, other: &Patch) -> bool {
        self.unused == other.unused
    }
}

impl Eq for Patch {
    ghost use Rattle.cargo_lock_parts.specs.IdentityLaws.{patch_equivalence};

    ghost laws = { patch_equivalence };
}
