//! The format of a merge.

ghost use Rattle.cargo_lock_merge.specs.Formats.{IsLaterFormat};

use cargo_lock::ResolveVersion;

/// The later one of the formats of both sides.
pub(crate) fn later_format(ours: ResolveVersion, theirs: ResolveVersion) -> ResolveVersion
    ensures { IsLaterFormat ours theirs result }
{
    if u32::from(ours) < u32::from(theirs) {
        theirs
    } else {
        ours
    }
}
