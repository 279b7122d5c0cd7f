//! The serial number of a bill of materials.

ghost use Rattle.std.specs.Prelude.{◌≡◌, IfOk, string_bytes};
ghost use Rattle.cargo_lock_bom.specs.Serial as spec;

use std::alloc::{AllocError, Global};
use uuid::Uuid;

/// The serial number that is computed from a text, so equal texts have equal numbers. Fails when
/// out of memory.
#[tactic(auto, unfolding(crate::specs::Serial::name_id))]
pub(crate) fn serial_text(alloc: Global, text: &str) -> Result<String, AllocError>
    ensures { IfOk result (λ serial. string_bytes serial ≡ spec.serial_text text.now) }
{
    let id = Uuid::new_v5(&Uuid::NAMESPACE_URL, text.as_bytes());
    let urn = id.urn();
    format!(in alloc; "{urn}")
}
