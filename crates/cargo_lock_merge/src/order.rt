//! The order in which Cargo writes packages, and the dependencies of a package.

ghost use Rattle.std.specs.Prelude.{◌≡◌, IfOk, OnOk};
ghost use Rattle.std.specs.List.Sorted.{IsPermutation, IsSorted};
ghost use Rattle.std.specs.declared.cmp.Ordering.{Ordering};

use cargo_lock_order::{dependency_order, package_order};
use cargo_lock_parts::dependency::Dependency;
use cargo_lock_parts::package::Package;
use std::alloc::{AllocError, Global};
use std::cmp::Ordering;

/// What Cargo writes in an order of its own.
pub(crate) trait Ordered {
    ghost order: { Self → Self → Ordering };

    /// The order of this one and another one. Fails when out of memory.
    fn order(&self, alloc: Global, other: &Self) -> Result<Ordering, AllocError>
        ensures { IfOk result (λ found. found ≡ order self.now other.now) };
}

impl Ordered for Package {
    ghost use Rattle.cargo_lock_order.specs.Order.{package_order};

    ghost order = { package_order };

    fn order(&self, alloc: Global, other: &Package) -> Result<Ordering, AllocError> {
        package_order(alloc, self, other)
    }
}

impl Ordered for Dependency {
    ghost use Rattle.cargo_lock_order.specs.Order.{dependency_order};

    ghost order = { dependency_order };

    fn order(&self, alloc: Global, other: &Dependency) -> Result<Ordering, AllocError> {
        dependency_order(alloc, self, other)
    }
}

/// Puts a list in the order in which Cargo writes it. What that order does not distinguish stays as
/// it is. Fails when out of memory.
pub(crate) fn put_in_order<T: Ordered>(alloc: Global, list: &mut Vec<T>) -> Result<(), AllocError>
    ensures permutation { OnOk result (IsPermutation list.old.items list.new.items) }
    ensures sorted { OnOk result (IsSorted T.order list.new.items) }
{
    list.sort_by(|one, other| order_or_equal(alloc, one, other))?;
    confirm_order(alloc, list)
}

// The order of two, or `Equal` where memory ran out. A sort by it may then leave another order.
fn order_or_equal<T: Ordered>(alloc: Global, one: &T, other: &T) -> Ordering {
    match one.order(alloc, other) {
        Ok(order) => order,
        Err(_) => Ordering::Equal,
    }
}

// Fails where memory ran out while the list was sorted: then one of it may come before the one that
// it follows.
fn confirm_order<T: Ordered>(alloc: Global, list: &[T]) -> Result<(), AllocError>
    ensures { OnOk result (IsSorted T.order list.now) }
{
    for at in 1..list.len() {
        if list[at].order(alloc, &list[at - 1])? == Ordering::Less {
            return Err(AllocError);
        }
    }
    Ok(())
}
