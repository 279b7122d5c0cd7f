//! Dependencies in JSON.

ghost use Rattle.json.specs.Tree.{json_tokens};
ghost use Rattle.cargo_lock_json.specs.Dependency.{dependency_or_null, listed_dependency_json};
ghost use Rattle.printing.specs.Json.{Adds};

use cargo_lock_display::{begin_identity, put_origin};
use cargo_lock_parts::dependency::Dependency;
use printing::JsonWriter;
use std::alloc::AllocError;

// Writes a dependency.
#[tactic(auto, unfolding(crate::specs::Dependency::listed_dependency_json))]
pub(crate) fn put_dependency(
    out: &mut JsonWriter,
    dependency: &Dependency,
) -> Result<(), AllocError>
    ensures { Adds result out.old out.new (json_tokens (listed_dependency_json dependency.now)) }
{
    let Dependency {
        name,
        version,
        source,
    } = dependency;
    begin_identity(out, name, version, source)?;
    put_origin(out, source)?;
    out.end_object()
}

// Writes a dependency, or null.
pub(crate) fn put_dependency_or_null(
    out: &mut JsonWriter,
    dependency: &Option<Dependency>,
) -> Result<(), AllocError>
    ensures { Adds result out.old out.new (json_tokens (dependency_or_null dependency.now)) }
{
    match dependency {
        Some(dependency) => put_dependency(out, dependency),
        None => out.null(),
    }
}
