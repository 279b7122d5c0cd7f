//! Places in groups, by a key of each.

ghost use Rattle.std.specs.Prelude.{◌≡◌, ◌<◌, [], IfSome, None, OnOk, length, map, slice_get};
ghost use Rattle.std.specs.Prelude.{unwrap_or};
ghost use Rattle.lists.specs.Groups.{HasBegun, HasPutByKey, group_number};

use std::alloc::{AllocError, Global};
use std::collections::BTreeMap;
use std::marker::Model;

/// Places in groups: a group has the places that were put by one key, in the order in which they
/// came. Groups have numbers, in the order in which their first places came.
///
/// The keys are in a tree, so that a stranger who chooses them cannot make a look-up slow.
#[derive(Drop)]
pub struct Grouped<K: Ord + Drop> {
    numbers: BTreeMap<K, usize>,
    groups: Vec<Vec<usize>>,
}

impl<K: Ord + Drop> Model for Grouped<K> {
    ghost use Rattle.std.specs.Prelude.{map};
    ghost use Rattle.lists.specs.Groups.{AreGroupNumbers, GroupedData};

    ghost Value = { GroupedData K };

    ghost view = { λ s. record {
      numbers = s.numbers.entries;
      groups = map (λ group. group.items) s.groups.items;
    } };

    ghost invariant = { λ s. AreGroupNumbers K.cmp (record {
      numbers = s.numbers.entries;
      groups = map (λ group. group.items) s.groups.items;
    }) };
}

impl<K: Ord + Drop> Grouped<K> {
    /// No groups.
    pub fn new(alloc: Global) -> Grouped<K>
        ensures numbers { result.numbers ≡ [] }
        ensures groups { result.groups ≡ [] }
    {
        Grouped {
            numbers: BTreeMap::new(alloc),
            groups: Vec::new(alloc),
        }
    }

    /// How many groups there are.
    pub fn len(&self) -> usize
        ensures { result ≡ length self.now.groups }
    {
        self.groups.len()
    }

    /// The number of the group of a key. `None` if no place was put by it.
    pub fn number(&self, key: &K) -> Option<usize>
        ensures number { result ≡ group_number K.cmp self.now key.now }
        ensures within { IfSome result (λ n. n < length self.now.groups) }
    {
        self.numbers.get(key).copied()
    }

    /// The places of the group with a number. There are none if no group has it.
    pub fn places(&self, number: usize) -> &[usize]
        ensures { result.now ≡ unwrap_or (slice_get self.now.groups number) [] }
    {
        match self.groups.get(number) {
            Some(places) => places.as_slice(),
            None => &[],
        }
    }

    /// The places of each group.
    pub fn into_groups(self) -> Vec<Vec<usize>>
        ensures { map (λ group. group.items) result.items ≡ self.groups }
    {
        let Grouped { numbers: _, groups } = self;
        groups
    }

    /// Puts a place into the group of a key, behind those that are in it. If the key has no group,
    /// the place begins one, behind the others. Fails when out of memory.
    pub fn put(&mut self, alloc: Global, key: K, place: usize) -> Result<(), AllocError>
        ensures { OnOk result (HasPutByKey K.cmp self.old self.new key place) }
    {
        match self.numbers.get(&key).copied() {
            Some(number) => self.groups[number].push(place)?,
            None => self.begin(alloc, key, place)?,
        }
        Ok(())
    }

    // Begins the group of a key that has none.
    fn begin(&mut self, alloc: Global, key: K, place: usize) -> Result<(), AllocError>
        requires { group_number K.cmp self.old key ≡ None }
        ensures { OnOk result (HasBegun K.cmp self.old self.new key place) }
    {
        let number = self.groups.len();
        self.groups.push(vec![in alloc; place]?)?;
        self.numbers.insert(key, number)?;
        Ok(())
    }
}
