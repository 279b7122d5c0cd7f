//! Packages with the places to which their dependencies lead.

use cargo_lock_parts::dependency::Dependency;
use cargo_lock_parts::package::Package;
use std::marker::Model;

/// A dependency, and the place of the package to which it leads. `None` means that no package fits
/// it.
#[derive(Drop)]
pub struct Lead<'a> {
    /// The dependency.
    pub dependency: &'a Dependency,

    /// The place of the package in the lockfile's list.
    pub place: Option<usize>,
}

impl<'a> Model for Lead<'a> {
    ghost use Rattle.cargo_lock_json.specs.Linked.{LeadData};

    ghost Value = { LeadData };

    ghost view = { λ lead. record { dependency = lead.dependency.now; place = lead.place } };
}

/// A package, and where its dependencies lead.
#[derive(Drop)]
pub struct Linked<'a> {
    /// The package.
    pub package: &'a Package,

    /// Its dependencies, in its order.
    pub leads: Vec<Lead<'a>>,
}

impl<'a> Model for Linked<'a> {
    ghost use Rattle.cargo_lock_json.specs.Linked.{LinkedData};

    ghost Value = { LinkedData };

    ghost view = { λ linked.
        record { listed = linked.«package».now; leads = linked.leads.items } };
}
