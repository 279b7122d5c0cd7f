//! A package whose manifests are sought in a folder.

ghost use Rattle.std.specs.Prelude.{◌≡◌, option_map, string_bytes};
ghost use Rattle.cli_folders.specs.Manifests.{is_in_place, sought_of};

use cargo_lock_parts::package::Package;
use cargo_lock_verify::Hosts;

/// A package whose manifests are sought.
#[derive(Clone, Copy)]
pub(crate) struct Sought<'p> {
    /// The package.
    pub(crate) package: &'p Package,

    /// The hosts of its source.
    pub(crate) hosts: Hosts<'p>,

    /// Which manifests count.
    pub(crate) reach: Reach,
}

/// Which manifests of the name and version of a package count.
#[derive(Debug, Clone, Copy, PartialEq, Eq)]
pub(crate) enum Reach {
    /// Those that lie where Cargo has the package.
    Near,

    /// All.
    All,
}

impl<'p> Sought<'p> {
    /// Whether what is in an index folder of this host counts.
    pub(crate) fn reaches(&self, host: &Option<String>) -> bool
        ensures { result ≡ is_in_place (sought_of self.now) (option_map string_bytes host.now) }
    {
        match self.reach {
            Reach::Near => self.hosts.reach(&[], host),
            Reach::All => true,
        }
    }
}
