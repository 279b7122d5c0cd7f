//! The changes that a difference reports, each as a line.

ghost use Rattle.std.specs.Prelude.{◌≡◌, ◌||◌, [], ◌∷◌, ◌++◌, IfOk, OnOk, map};
ghost use Rattle.cargo_lock_diff.specs.Change.{Added, Alarm, NewSource, Removed, change_in};
ghost use Rattle.cargo_lock_diff.specs.Change.{change_of, changes_in, differs_in, has_lost_checksum};
ghost use Rattle.cargo_lock_diff.specs.Change.{has_new_checksum, strange_change};
ghost use Rattle.cargo_lock_diff.specs.Change as spec;
ghost use Rattle.cargo_lock_diff.specs.Difference.{referred_packages, referred_pairs};

use crate::commits::Commits;
use crate::dependencies::Targets;
use crate::line::Line;
use crate::same::{have_one_place, have_one_replacement, have_one_version};
use cargo_lock_parts::dependency::Dependency;
use cargo_lock_parts::package::Package;
use std::alloc::{AllocError, Global};
use std::fmt;

/// One thing that differs. `Display` writes it as a line without a newline, whose first sign says
/// what it is, and commits short. `Line` writes them in full too.
///
/// `SRC` is the source as a V4 lockfile has it, in round brackets; a package without a source has
/// `(path)`, and one of crates.io nothing. Texts that come from a lockfile are shown as `Shown`
/// shows them.
#[derive(Drop)]
pub enum Change<'a> {
    /// An alarm: `! NAME VERSION SRC: checksum OLD -> NEW`, or `-> none`. The old package has the
    /// name and the version of the new one and a checksum, which the new one does not have.
    Alarm(&'a Package, &'a Package),

    /// An alarm: `! NAME VERSION: OLD -> NEW`, with the sources as in `Moved`. The new package comes
    /// from a new source. It was added, or it is in a pair of the same version. The old one has its
    /// name.
    NewSource(&'a Package, &'a Package),

    /// An alarm: `! NAME OLD -> NEW: OLD -> NEW`, as in `Updated`. The new package of a pair of two
    /// versions comes from a new source.
    NewSourceUpdate(&'a Package, &'a Package),

    /// A pair of the same version from another place: `> NAME VERSION: OLD -> NEW`. Here a source
    /// has no brackets, and crates.io is named. Where only the commit of a repository differs, it is
    /// `> NAME VERSION: rev OLD -> NEW`.
    Moved(&'a Package, &'a Package),

    /// A pair of the same version, of which only one package has a checksum:
    /// `? NAME VERSION SRC: checksum none -> NEW`, or `OLD -> none` where the place differs too. At
    /// one place that is an alarm.
    Checksum(&'a Package, &'a Package),

    /// A pair of the same version with another replacement:
    /// `@ NAME VERSION SRC: replacement OLD -> NEW`, each as `NAME VERSION SRC` or `none`.
    Replaced(&'a Package, &'a Package),

    /// A pair of two versions: `~ NAME OLD -> NEW`, then `: OLD -> NEW` or `: rev OLD -> NEW` if the
    /// places differ, and otherwise `SRC`, then `(incompatible)` if the release lines differ, and at
    /// last `(downgrade)` if the new version is less than the old one.
    Updated(&'a Package, &'a Package),

    /// A package that was removed: `- NAME VERSION SRC`.
    Removed(&'a Package),

    /// A package that was added: `+ NAME VERSION SRC`, then `, no checksum` if it is from a
    /// registry and has none.
    Added(&'a Package),

    /// An old and a new package of a pair, of which one has a dependency that the other does not
    /// have: `= NAME VERSION SRC:`, of the new one, then ` - NAME VERSION SRC` for each dependency
    /// that only the old one has, and ` + NAME VERSION SRC` for each that only the new one has.
    /// After the packages come these dependencies, each list in the order of its package. An old
    /// and a new dependency are the same if they have one name, version and origin, or if their
    /// packages are a pair of the difference.
    OtherDependencies(&'a Package, &'a Package, Vec<&'a Dependency>, Vec<&'a Dependency>),
}

impl fmt::Display for Change<'_> {
    ghost use Rattle.std.specs.Prelude.{Some};
    ghost use Rattle.cargo_lock_diff.specs.Change.{change_of, change_line};

    ghost output = { λ change. Some (change_line (change_of change)) };

    fn fmt<W: fmt::Write>(&self, f: &mut fmt::Formatter<W>) -> fmt::Result {
        let line = Line(self, Commits::Short);
        write!(f, "{line}")
    }
}

// The aspects in which a pair may differ. All but the version are compared only if the version is
// the same.
#[derive(Clone, Copy)]
pub(crate) enum Aspect {
    Source,
    Checksum,
    Replacement,
    Version,
}

impl Aspect {
    // Whether the packages of a pair differ in this aspect.
    fn differs(self, old: &Package, new: &Package) -> bool
        ensures { result ≡ differs_in self (old.now, new.now) }
    {
        let one_version = have_one_version(old, new);
        match self {
            Aspect::Source => one_version && !have_one_place(old, new),
            Aspect::Checksum => one_version && has_other_checksum(old, new),
            Aspect::Replacement => one_version && !have_one_replacement(old, new),
            Aspect::Version => !one_version,
        }
    }

    // The change of a pair in this aspect.
    fn change<'a>(self, old: &'a Package, new: &'a Package) -> Change<'a>
        ensures { change_of result ≡ change_in self (old.now, new.now) }
    {
        match self {
            Aspect::Source => Change::Moved(old, new),
            Aspect::Checksum => Change::Checksum(old, new),
            Aspect::Replacement => Change::Replaced(old, new),
            Aspect::Version => Change::Updated(old, new),
        }
    }
}

// Whether only one package of a pair has a checksum: the new one, or the old one where the new one
// comes from another place.
fn has_other_checksum(old: &Package, new: &Package) -> bool
    ensures { result ≡ (has_new_checksum old.now new.now || has_lost_checksum old.now new.now) }
{
    if old.checksum.is_none() {
        new.checksum.is_some()
    } else {
        new.checksum.is_none() && !have_one_place(old, new)
    }
}

pub(crate) fn add_alarms<'a>(
    all: &mut Vec<Change<'a>>,
    alarms: &Vec<(&'a Package, &'a Package)>,
) -> Result<(), AllocError>
    ensures { OnOk result (map change_of all.new.items
        ≡ map change_of all.old.items ++ map (λ a. Alarm a.0 a.1) (referred_pairs alarms.now.items)) }
{
    for alarm in alarms {
        all.push(Change::Alarm(alarm.0, alarm.1))?;
    }
    Ok(())
}

// Adds the alarms of pairs whose new package comes from a new source.
pub(crate) fn add_strange<'a>(
    all: &mut Vec<Change<'a>>,
    pairs: &Vec<(&'a Package, &'a Package)>,
) -> Result<(), AllocError>
    ensures { OnOk result (map change_of all.new.items
        ≡ map change_of all.old.items ++ map strange_change (referred_pairs pairs.now.items)) }
{
    for pair in pairs {
        all.push(strange(pair.0, pair.1))?;
    }
    Ok(())
}

// The alarm of a pair whose new package comes from a new source.
fn strange<'a>(old: &'a Package, new: &'a Package) -> Change<'a>
    ensures { change_of result ≡ strange_change (old.now, new.now) }
{
    if have_one_version(old, new) {
        Change::NewSource(old, new)
    } else {
        Change::NewSourceUpdate(old, new)
    }
}

// Adds the alarms of added packages that come from a new source, each with an old one of its name.
pub(crate) fn add_came<'a>(
    all: &mut Vec<Change<'a>>,
    came: &Vec<(&'a Package, &'a Package)>,
) -> Result<(), AllocError>
    ensures { OnOk result (map change_of all.new.items
        ≡ map change_of all.old.items
        ++ map (λ a. NewSource a.0 a.1) (referred_pairs came.now.items)) }
{
    for pair in came {
        all.push(Change::NewSource(pair.0, pair.1))?;
    }
    Ok(())
}

// Adds the changes of the pairs that differ in an aspect.
pub(crate) fn add_pairs<'a>(
    all: &mut Vec<Change<'a>>,
    aspect: Aspect,
    pairs: &Vec<(&'a Package, &'a Package)>,
) -> Result<(), AllocError>
    ensures { OnOk result (map change_of all.new.items
        ≡ map change_of all.old.items ++ changes_in aspect (referred_pairs pairs.now.items)) }
{
    for pair in pairs {
        if aspect.differs(pair.0, pair.1) {
            all.push(aspect.change(pair.0, pair.1))?;
        }
    }
    Ok(())
}

// Adds packages that were removed.
pub(crate) fn add_removed<'a>(
    all: &mut Vec<Change<'a>>,
    packages: &Vec<&'a Package>,
) -> Result<(), AllocError>
    ensures { OnOk result (map change_of all.new.items
        ≡ map change_of all.old.items ++ map Removed (referred_packages packages.now.items)) }
{
    for package in packages {
        all.push(Change::Removed(package))?;
    }
    Ok(())
}

// Adds packages that were added.
pub(crate) fn add_added<'a>(
    all: &mut Vec<Change<'a>>,
    packages: &Vec<&'a Package>,
) -> Result<(), AllocError>
    ensures { OnOk result (map change_of all.new.items
        ≡ map change_of all.old.items ++ map Added (referred_packages packages.now.items)) }
{
    for package in packages {
        all.push(Change::Added(package))?;
    }
    Ok(())
}

// The pairs with other dependencies.
pub(crate) fn other_dependencies<'a>(
    alloc: Global,
    targets: &Targets<'_>,
    pairs: &Vec<(&'a Package, &'a Package)>,
) -> Result<Vec<Change<'a>>, AllocError>
    ensures { IfOk result (λ all. map change_of all.items
        ≡ spec.other_dependencies targets.now (referred_pairs pairs.now.items)) }
{
    let mut all = Vec::new(alloc);
    for pair in pairs {
        add_dependencies(&mut all, alloc, targets, pair.0, pair.1)?;
    }
    Ok(all)
}

// Adds the change of a pair, if it has other dependencies.
fn add_dependencies<'a>(
    all: &mut Vec<Change<'a>>,
    alloc: Global,
    targets: &Targets<'_>,
    old: &'a Package,
    new: &'a Package,
) -> Result<(), AllocError>
    ensures { OnOk result (map change_of all.new.items ≡ map change_of all.old.items
        ++ spec.other_dependencies targets.now ((old.now, new.now) ∷ [])) }
{
    let gone = targets.only_in(alloc, true, &old.dependencies, &new.dependencies)?;
    let came = targets.only_in(alloc, false, &new.dependencies, &old.dependencies)?;
    if !gone.is_empty() || !came.is_empty() {
        all.push(Change::OtherDependencies(old, new, gone, came))?;
    }
    Ok(())
}
