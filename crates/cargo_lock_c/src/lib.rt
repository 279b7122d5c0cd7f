//! The library for callers in C: it takes the bytes of a lockfile, returns a status, and writes the
//! answer into a buffer of the caller. Nothing is kept between two calls. `bindings/c/cargo_lock.h`
//! is the header.
#![tactic(auto)]

ghost use Rattle.std.specs.Prelude.{◌≡◌};

mod bill;
mod difference;
mod document;
mod duplicates;
mod edges;
mod findings;
mod formats;
mod handing;
mod json;
mod merge;
mod packages;
mod reading;
mod refusal;
mod three;
mod tree;
mod why;

/// The number of this interface. It increases if a call changes.
const INTERFACE: u32 = 1;

/// The number of this interface, 1.
#[unsafe(no_mangle)]
pub extern "C" fn cargo_lock_interface() -> u32
    ensures { result ≡ 1 }
{
    INTERFACE
}
