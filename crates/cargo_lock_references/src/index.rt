//! A list of packages with an index, which finds and shortens references without a walk over the
//! list.

ghost use Rattle.std.specs.Prelude.{◌≡◌, [], IfOk, map, option_copied, option_map};
ghost use Rattle.std.specs.List.{find};
ghost use Rattle.semver.specs.Identifiers.{parts_of};
ghost use Rattle.cargo_lock_index.specs.Near.{IsIndexOf};
ghost use Rattle.cargo_lock_references.specs.WrittenReference.{has_name_and_version, has_name};
ghost use Rattle.cargo_lock_references.specs.WrittenReference.{exactly_one};
ghost use Rattle.cargo_lock_references.specs.Index as spec;
ghost use Rattle.cargo_lock_references.specs.Index.{is_of};
ghost use Rattle.cargo_lock_references.specs.ResolutionSearch.{fits};

use crate::EncodableDependencyRef;
use crate::identified::Identified;
use cargo_lock_index::places::{Keys, Places};
use cargo_lock_parts::package::{Name, PartialIdentity, Version};
use std::alloc::{AllocError, Global};
use std::marker::Model;

/// A list, with the places of the items of each name, and of each name and version.
#[derive(Drop)]
pub struct Indexed<'a, T: Identified> {
    list: &'a [T],
    names: Places<'a>,
    versions: Places<'a>,
}

impl<'a, T: Identified> Model for Indexed<'a, T> {
    ghost use Rattle.std.specs.Prelude.{List};
    ghost use Rattle.cargo_lock_references.specs.Index.{AreIndexes};

    ghost Value = { List T };

    ghost view = { λ x. x.list.now };

    ghost invariant = { λ x. AreIndexes T.identity x.list.now x.names x.versions };
}

// The places of the items of each name.
fn names_of<'a, T: Identified>(alloc: Global, list: &'a [T]) -> Result<Places<'a>, AllocError>
    ensures { IfOk result (λ places. IsIndexOf (spec.names_of T.identity list.now) places) }
{
    let mut keys = Keys::with_capacity(alloc, list.len())?;
    for place in 0..list.len() {
        let item = &list[place];
        keys.add(PartialIdentity::name_alone(item.name()))?;
    }
    keys.into_places()
}

// The places of the items of each name and version.
fn versions_of<'a, T: Identified>(alloc: Global, list: &'a [T]) -> Result<Places<'a>, AllocError>
    ensures { IfOk result (λ places. IsIndexOf (spec.versions_of T.identity list.now) places) }
{
    let mut keys = Keys::with_capacity(alloc, list.len())?;
    for place in 0..list.len() {
        let item = &list[place];
        keys.add(PartialIdentity::name_and_version(item.name(), item.version()))?;
    }
    keys.into_places()
}

impl<'a, T: Identified> Indexed<'a, T> {
    /// The list with its index. Fails when out of memory.
    pub fn of(alloc: Global, list: &'a [T]) -> Result<Indexed<'a, T>, AllocError>
        ensures { IfOk result (λ indexed. indexed ≡ list.now) }
    {
        let names = names_of(alloc, list)?;
        let versions = versions_of(alloc, list)?;
        Ok(Indexed {
            list,
            names,
            versions,
        })
    }

    /// The empty list. It allocates nothing.
    pub fn empty(alloc: Global) -> Indexed<'a, T>
        ensures { result ≡ [] }
    {
        Indexed {
            list: &[],
            names: Places::empty(alloc),
            versions: Places::empty(alloc),
        }
    }

    /// Whether exactly one item has the name.
    pub fn is_name_unique(&self, name: &Name) -> bool
        ensures { result ≡ exactly_one (has_name name.now) (map T.identity self.now) }
    {
        self.names.is_only(PartialIdentity::name_alone(name))
    }

    /// Whether exactly one item has the name and the version.
    pub fn is_version_unique(&self, name: &Name, version: &Version) -> bool
        ensures { result
            ≡ exactly_one (has_name_and_version name.now (parts_of version.now))
            (map T.identity self.now) }
    {
        self.versions
            .is_only(PartialIdentity::name_and_version(name, version))
    }

    /// The first item that a reference matches.
    pub fn first_fit(&self, reference: &EncodableDependencyRef<'_>) -> Option<&'a T>
        ensures { option_copied result ≡ find (λ x. fits reference.now (T.identity x)) self.now }
    {
        self.item_at(self.first_place(reference.name, reference.version))
    }

    // The place of the first item with a name and, if there is one, a version.
    fn first_place(&self, name: &Name, version: Option<&Version>) -> Option<usize>
        ensures { spec.item_at self.now result ≡ find
            (λ x. is_of name.now (option_map (λ v. parts_of v.now) version.entry) (T.identity x))
            self.now }
    {
        match version {
            None => self.names.first(PartialIdentity::name_alone(name)),
            Some(version) => self
                .versions
                .first(PartialIdentity::name_and_version(name, version)),
        }
    }

    // The item at a place, if there is a place.
    fn item_at(&self, place: Option<usize>) -> Option<&'a T>
        ensures { option_copied result ≡ spec.item_at self.now place }
    {
        match place {
            Some(place) => self.list.get(place),
            None => None,
        }
    }
}
