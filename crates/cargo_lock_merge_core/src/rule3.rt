//! The rule of three.

ghost use Rattle.std.specs.Prelude.{◌↔◌, IsTrue};
ghost use Rattle.cargo_lock_merge_core.specs.Agreed.{IsAgreedSide};
ghost use Rattle.cargo_lock_merge_core.specs.Rule3.{IsKept};

/// One of the two sides.
#[derive(Clone, Copy, PartialEq, Eq)]
pub enum Side {
    /// Ours.
    Ours,

    /// Theirs.
    Theirs,
}

/// Which of three values are equal.
#[derive(Clone, Copy)]
pub struct Equal {
    /// Whether the values of the two sides are.
    pub sides: bool,

    /// Whether our value is that of the base.
    pub ours: bool,

    /// Whether their value is that of the base.
    pub theirs: bool,
}

/// The side whose value is agreed on. `None` where both sides changed the value, each to another
/// one.
pub fn agreed_side(equal: Equal) -> Option<Side>
    ensures { IsAgreedSide equal result }
{
    if equal.sides || equal.theirs {
        Some(Side::Ours)
    } else if equal.ours {
        Some(Side::Theirs)
    } else {
        None
    }
}

/// Whether what a base and two sides have or have not is had after a merge.
pub fn keeps(base: bool, ours: bool, theirs: bool) -> bool
    ensures { IsTrue result ↔ IsKept (IsTrue base) (IsTrue ours) (IsTrue theirs) }
{
    if ours == theirs { ours } else { !base }
}
