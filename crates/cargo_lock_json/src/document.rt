//! The document of a lockfile.

ghost use Rattle.std.specs.Prelude.{◌∷◌, IfOk, codes, option_map, string_bytes};
ghost use Rattle.std.specs.FinMap.{entries};
ghost use Rattle.json.specs.Json.{object};
ghost use Rattle.json.specs.Token.{key};
ghost use Rattle.json.specs.Tree.{json_tokens};
ghost use Rattle.cargo_lock_references.specs.Records.{texts_of};
ghost use Rattle.cargo_lock_json.specs.Document as spec;
ghost use Rattle.cargo_lock_json.specs.Document.{IsDocumentOf, patch_json, texts_members};
ghost use Rattle.printing.specs.Json.{Adds};

use crate::leads::{link_each, link_root};
use crate::linked::Linked;
use crate::package::{put_dependencies, put_packages, put_root};
use cargo_lock::Lockfile;
use cargo_lock::metadata::Metadata;
use cargo_lock_display::{File, begin_document};
use cargo_lock_edges::Groups;
use cargo_lock_parts::patch::Patch;
use cargo_lock_references::checksums::keys_ascend;
use printing::{JsonWriter, ToJson, json_line};
use std::alloc::{AllocError, Global};

/// The document of a lockfile, in one line:
/// `{"schema":"cargo-lock-lockfile/1","path":..,"format":4,"packages":[..],"root":..,..}`. The path is
/// that of its file, if it has one. No lockfile is refused: a dependency that no package fits is in
/// `unresolved` of its package. Fails when out of memory.
///
/// ```
/// let text = lockfile_json(rt.alloc(), Some("Cargo.lock"), lockfile)?;
/// ```
pub fn lockfile_json(
    alloc: Global,
    path: Option<&str>,
    lockfile: &Lockfile,
) -> Result<String, AllocError>
    ensures { IfOk result
        (λ text. IsDocumentOf (option_map (λ t. t.now) path.entry) lockfile.now (string_bytes text)) }
{
    let groups = Groups::of(alloc, lockfile.packages.as_slice())?;
    let packages = link_each(alloc, &groups, lockfile.packages.as_slice())?;
    let root = link_root(alloc, &groups, &lockfile.root)?;
    let file = File {
        path,
        format: lockfile.version,
    };
    json_line(
        alloc,
        &Document {
            file: &file,
            lockfile,
            packages: packages.as_slice(),
            root: &root,
        },
    )
}

// What the document has: a lockfile, and its packages and its root as they are linked.
#[derive(Clone, Copy)]
struct Document<'d, 'a> {
    file: &'d File<'d>,
    lockfile: &'d Lockfile,
    packages: &'d [Linked<'a>],
    root: &'d Option<Linked<'a>>,
}

impl ToJson for Document<'_, '_> {
    ghost use Rattle.cargo_lock_json.specs.Document.{lockfile_json};

    ghost json = { λ d. lockfile_json d.file.now d.lockfile.now d.packages.now d.root.now };

    fn write_json(&self, out: &mut JsonWriter) -> Result<(), AllocError> {
        let lockfile = self.lockfile;
        begin_document(out, "cargo-lock-lockfile/1", self.file)?;
        put_packages(out, self.packages)?;
        put_root(out, self.root)?;
        put_metadata(out, &lockfile.metadata)?;
        put_patch(out, &lockfile.patch)?;
        out.end_object()
    }
}

// Writes the member with the metadata.
fn put_metadata(out: &mut JsonWriter, metadata: &Metadata) -> Result<(), AllocError>
    ensures { Adds result out.old out.new (key (codes "metadata")
        ∷ json_tokens (object (texts_members (entries (texts_of metadata.now.entries))))) }
{
    keys_ascend(metadata);
    out.key("metadata")?;
    put_texts(out, metadata)
}

fn put_texts(out: &mut JsonWriter, metadata: &Metadata) -> Result<(), AllocError>
    ensures { Adds result out.old out.new
        (json_tokens (object (texts_members metadata.now.entries))) }
{
    out.begin_object()?;
    for (key, value) in metadata {
        out.string_member(key.as_str(), value.as_str())?;
    }
    out.end_object()
}

// Writes the member with the patches that no package uses.
fn put_patch(out: &mut JsonWriter, patch: &Patch) -> Result<(), AllocError>
    ensures { Adds result out.old out.new (key (codes "patch")
        ∷ json_tokens (patch_json patch.now)) }
{
    out.key("patch")?;
    out.begin_object()?;
    out.key("unused")?;
    put_dependencies(out, patch.unused.as_slice())?;
    out.end_object()
}
