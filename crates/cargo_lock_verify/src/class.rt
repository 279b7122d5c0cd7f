//! What is known of packages by a comparison, each in exactly one class, and how many are in each.

ghost use Rattle.std.specs.Prelude.{◌≡◌, count_by};
ghost use Rattle.cargo_lock_verify.specs.Class as spec;

/// What is known of a package by a comparison. Each package is in exactly one class.
#[derive(Debug, Clone, Copy, PartialEq, Eq)]
pub enum Class {
    /// An archive has the checksum of the package, and none is changed; or each of its folders is as
    /// its list says.
    Matches,

    /// An archive is changed, or a folder is not as its list says.
    Changed,

    /// There is no archive of its own, or no folder.
    Missing,

    /// The package is of a registry, and the lockfile has no checksum of it.
    NoChecksum,

    /// There is nothing to compare: of archives, the package has no checksum and is of no registry;
    /// of folders, it has no source.
    NotCompared,
}

impl Class {
    /// Whether this class is another.
    pub fn is(self, other: Class) -> bool
        ensures { result ≡ spec.is_class self other }
    {
        match self {
            Class::Matches => matches!(other, Class::Matches),
            Class::Changed => matches!(other, Class::Changed),
            Class::Missing => matches!(other, Class::Missing),
            Class::NoChecksum => matches!(other, Class::NoChecksum),
            Class::NotCompared => matches!(other, Class::NotCompared),
        }
    }
}

/// How many packages are in each class.
#[derive(Debug, Clone, Copy, PartialEq, Eq)]
pub struct Counts {
    /// How many match.
    pub matches: usize,

    /// How many are changed.
    pub changed: usize,

    /// How many have no archive, or no folder.
    pub missing: usize,

    /// How many are of a registry and have no checksum.
    pub without_checksum: usize,

    /// Of how many there is nothing to compare.
    pub not_compared: usize,
}

impl Counts {
    /// How many packages are in each of these classes.
    pub fn of(classes: &[Class]) -> Counts
        ensures { result ≡ spec.counts_of classes.now }
    {
        Counts {
            matches: count(classes, Class::Matches),
            changed: count(classes, Class::Changed),
            missing: count(classes, Class::Missing),
            without_checksum: count(classes, Class::NoChecksum),
            not_compared: count(classes, Class::NotCompared),
        }
    }

    /// Whether nothing that counts is found: no package is changed; and each has what it is compared
    /// with, or, if `all` is not asked for, one that matches is enough.
    ///
    /// ```
    /// let report = Report::of(rt.alloc(), cache, all)?;
    /// let is_clean = report.counts.is_clean(all);
    /// ```
    pub fn is_clean(&self, all: bool) -> bool
        ensures { result ≡ spec.is_clean all self.now }
    {
        self.changed == 0 && (self.has_all_compared() || !all && self.matches != 0)
    }

    // Whether each package has what it is compared with.
    fn has_all_compared(&self) -> bool
        ensures { result ≡ spec.has_all_compared self.now }
    {
        self.missing == 0 && self.without_checksum == 0
    }
}

// How many packages are in a class.
fn count(classes: &[Class], class: Class) -> usize
    ensures { result ≡ count_by (spec.is_class class) classes.now }
{
    let mut number = 0;
    for one in classes {
        if class.is(*one) {
            number += 1;
        }
    }
    number
}
