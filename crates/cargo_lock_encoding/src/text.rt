//! The text of a lockfile, line by line. `encoded_package_of` of `encode.rt` decides what is
//! written of a package.
//!
//! The empty line between two blocks is written with the second one, so no empty line has to be
//! removed at the end of the text.

ghost use Rattle.std.specs.Prelude.{◌≡◌, ◌++◌, ◌∷◌, [], ◌<◌, IfOk, IfSome, IsOkUnless, codes};
ghost use Rattle.std.specs.Prelude.{false, map, option_map, string_bytes};
ghost use Rattle.std.specs.FinMap.{entries};
ghost use Rattle.std.specs.List.{flat_map, list_all};
ghost use Rattle.std.specs.Option.{option_to_list};
ghost use Rattle.semver.specs.Identifiers.{parts_of, parts_text};
ghost use Rattle.cargo_lock_parts.specs.Checksum.{digest_of};
ghost use Rattle.cargo_lock_parts.specs.Identity.{identity_of};
ghost use Rattle.cargo_lock_references.specs.Records.{texts_of};
ghost use Rattle.cargo_lock_lines.specs.Layout.{comment_lines, field, join_lines, metadata_lines};
ghost use Rattle.cargo_lock_lines.specs.Layout.{pair_line};
ghost use Rattle.cargo_lock_lines.specs.Quoting.{escape, hex_digit, is_bare_byte, is_bare_key};
ghost use Rattle.cargo_lock_lines.specs.Quoting.{is_plain_byte, key_text, quote, short_escape};
ghost use Rattle.cargo_lock_encoding.specs.Table.{encoded_package_of};
ghost use Rattle.cargo_lock_encoding.specs.Text.{Adds, AddsLines, checksum_line, dependency_line};
ghost use Rattle.cargo_lock_encoding.specs.Text.{encoded_lines, package_lines, escape_char};
ghost use Rattle.cargo_lock_encoding.specs.Text.{lines_of, patch_lines, reference_lines};
ghost use Rattle.cargo_lock_encoding.specs.Text.{replace_line, source_line, version_lines};
ghost use Rattle.cargo_lock_parts.specs.declared.error.Error.TheVariants.{Memory};
ghost use Rattle.cargo_lock_references.specs.Metadata.{metadata_of};

use crate::encode::{encoded_package_of, written_version};
use crate::table::is_escaped_number;
use crate::values::{EncodableLockfile, LockfileRef};
use cargo_lock_parts::dependency::Dependency;
use cargo_lock_parts::error::Result;
use cargo_lock_parts::package::source::SourceIdAsUrl;
use cargo_lock_parts::package::{Checksum, Name, Package, Version};
use cargo_lock_parts::patch::Patch;
use cargo_lock_references::borrowed::written_source;
use cargo_lock_references::checksums::keys_ascend;
use cargo_lock_references::index::Indexed;
use cargo_lock_references::metadata::{Metadata, MetadataKey, MetadataValue};
use cargo_lock_references::written_metadata::metadata_of;
use cargo_lock_references::{
    EncodableDependencyRef, EncodablePackage, EncodablePackageRef, ResolveVersion,
};
use std::alloc::{AllocError, Global};
use std::fmt;

// The result of a function that adds to the text: memory may run out.
type Put = std::result::Result<(), AllocError>;

// ---- strings

// The digit of a number below 16, in upper case.
fn hex_digit(n: u32) -> char
    requires { n < 16 }
    ensures { result ≡ hex_digit n }
{
    if n < 10 {
        char::from((48 + n) as u8)
    } else {
        char::from((55 + n) as u8)
    }
}

// The letter after the backslash, if a character has one.
fn short_escape(c: char) -> Option<char>
    ensures { result ≡ short_escape c }
{
    match c {
        '"' => Some('"'),
        '\\' => Some('\\'),
        '\u{8}' => Some('b'),
        '\t' => Some('t'),
        '\n' => Some('n'),
        '\u{c}' => Some('f'),
        '\r' => Some('r'),
        _ => None,
    }
}

// A character of a string.
fn put_char(out: &mut String, c: char) -> Put
    ensures { Adds result out.old out.new (escape_char c) }
{
    if let Some(letter) = short_escape(c) {
        out.push('\\')?;
        return out.push(letter);
    }
    if c < ' ' || c == '\u{7f}' {
        let code = c as u32;
        out.push_str("\\u00")?;
        out.push(hex_digit(code / 16))?;
        return out.push(hex_digit(code % 16));
    }
    out.push(c)
}

// Whether a byte of a string stands for itself, and needs no escape.
fn is_plain_byte(byte: u8) -> bool
    ensures { result ≡ is_plain_byte byte }
{
    byte >= b' ' && byte != b'"' && byte != b'\\' && byte != 0x7f
}

// Whether no character of a text needs an escape.
fn is_plain(text: &str) -> bool
    ensures { result ≡ list_all is_plain_byte text.now }
{
    text.as_bytes().iter().all(|byte| is_plain_byte(*byte))
}

// The characters of a string, one by one.
#[tactic(auto, unfolding(cargo_lock_lines::specs::Quoting::escape))]
fn put_each_char(out: &mut String, text: &str) -> Put
    ensures { Adds result out.old out.new (escape text.now) }
{
    for c in text.chars() {
        put_char(out, c)?;
    }
    Ok(())
}

// The characters of a string. A text that needs no escape is put whole.
fn put_escaped(out: &mut String, text: &str) -> Put
    ensures { Adds result out.old out.new (escape text.now) }
{
    if is_plain(text) {
        return out.push_str(text);
    }
    put_each_char(out, text)
}

// A writer that puts each text onto a string as it is between quotation marks.
#[derive(Drop)]
struct EscapingWriter<'a> {
    out: &'a mut String,
}

impl fmt::Write for EscapingWriter<'_> {
    ghost use Rattle.cargo_lock_encoding.specs.Escaping.{EscapesText};

    ghost write_str_gives = { EscapesText };

    fn write_str(&mut self, text: &str) -> fmt::Result {
        put_escaped(self.out, text)?;
        Ok(())
    }
}

// What `Display` writes of a value, escaped.
fn write_escaped<T: fmt::Display>(out: &mut String, value: &T) -> fmt::Result
    ensures { IfSome (T.output value.now) (λ text. Adds result out.old out.new (escape text)) }
{
    let mut formatter = fmt::Formatter::new(EscapingWriter { out });
    let result = formatter.write(value);
    let EscapingWriter { out: inner } = formatter.into_inner();
    // No effect at run time. The proof reads what `out` holds from this use of `inner`.
    let _ = &*inner;
    result
}

// The same. The one error of a string is that memory runs out.
fn put_displayed<T: fmt::Display>(out: &mut String, value: &T) -> Put
    ensures { IfSome (T.output value.now) (λ text. Adds result out.old out.new (escape text)) }
{
    match write_escaped(out, value) {
        Ok(()) => Ok(()),
        Err(fmt::Error) => Err(AllocError),
    }
}

// What `Display` writes of a value, in quotation marks.
fn put_quoted_value<T: fmt::Display>(out: &mut String, value: &T) -> Put
    ensures { IfSome (T.output value.now) (λ text. Adds result out.old out.new (quote text)) }
{
    out.push('"')?;
    put_displayed(out, value)?;
    out.push('"')
}

// A string in quotation marks.
fn put_quoted(out: &mut String, text: &str) -> Put
    ensures { Adds result out.old out.new (quote text.now) }
{
    out.push('"')?;
    put_escaped(out, text)?;
    out.push('"')
}

// ---- lines

// The line `key = "text"` for a bare key.
fn put_field(out: &mut String, key: &str, text: &str) -> Put
    ensures { AddsLines result out.old out.new (field key.now text.now ∷ []) }
{
    out.push_str(key)?;
    out.push_str(" = ")?;
    put_quoted(out, text)?;
    out.push('\n')
}

// The line `key = "text"` for a bare key and what `Display` writes of a value.
fn put_value<T: fmt::Display>(out: &mut String, key: &str, value: &T) -> Put
    ensures { IfSome (T.output value.now)
        (λ text. AddsLines result out.old out.new (field key.now text ∷ [])) }
{
    out.push_str(key)?;
    out.push_str(" = ")?;
    put_quoted_value(out, value)?;
    out.push('\n')
}

fn put_name(out: &mut String, name: &Name) -> Put
    ensures { AddsLines result out.old out.new (field (codes "name") name.now ∷ []) }
{
    put_field(out, "name", name.as_str())
}

fn put_version(out: &mut String, version: &Version) -> Put
    ensures { AddsLines result out.old out.new
        (field (codes "version") (parts_text (parts_of version.now)) ∷ []) }
{
    put_value(out, "version", version)
}

// The line of a source that is written.
fn put_source(out: &mut String, source: &SourceIdAsUrl<'_>) -> Put
    ensures { AddsLines result out.old out.new (source_line source.now ∷ []) }
{
    put_value(out, "source", source)
}

// The source of a package or a patch, if it is written.
fn put_marked_source(out: &mut String, source: &Option<SourceIdAsUrl<'_>>) -> Put
    ensures { AddsLines result out.old out.new
        (option_to_list (option_map source_line source.now)) }
{
    match source {
        Some(source) => put_source(out, source),
        None => Ok(()),
    }
}

fn put_checksum(out: &mut String, checksum: &Option<Checksum>) -> Put
    ensures { AddsLines result out.old out.new
        (option_to_list (option_map checksum_line (option_map digest_of checksum.now))) }
{
    match checksum {
        Some(checksum) => put_value(out, "checksum", checksum),
        None => Ok(()),
    }
}

// ---- packages

// The line of one dependency in the list of them.
fn put_dependency(out: &mut String, dependency: &EncodableDependencyRef<'_>) -> Put
    ensures { AddsLines result out.old out.new (dependency_line dependency.now ∷ []) }
{
    out.push(' ')?;
    put_quoted_value(out, dependency)?;
    out.push_str(",\n")
}

fn put_each_dependency(out: &mut String, dependencies: &[EncodableDependencyRef<'_>]) -> Put
    ensures { AddsLines result out.old out.new (map dependency_line dependencies.now) }
{
    for dependency in dependencies {
        put_dependency(out, dependency)?;
    }
    Ok(())
}

// The list of the dependencies, of which there is at least one.
fn put_dependencies(out: &mut String, dependencies: &[EncodableDependencyRef<'_>]) -> Put
    ensures { AddsLines result out.old out.new
        (codes "dependencies = [" ∷ (map dependency_line dependencies.now ++ codes "]" ∷ [])) }
{
    out.push_str("dependencies = [\n")?;
    put_each_dependency(out, dependencies)?;
    out.push_str("]\n")?;
    Ok(())
}

fn put_replacement(out: &mut String, replace: &Option<EncodableDependencyRef<'_>>) -> Put
    ensures { AddsLines result out.old out.new
        (option_to_list (option_map replace_line replace.now)) }
{
    match replace {
        Some(replace) => put_value(out, "replace", replace),
        None => Ok(()),
    }
}

// The dependencies, or if there are none, the replacement.
fn put_references(
    out: &mut String,
    dependencies: &[EncodableDependencyRef<'_>],
    replace: &Option<EncodableDependencyRef<'_>>,
) -> Put
    ensures { AddsLines result out.old out.new (reference_lines dependencies.now replace.now) }
{
    if dependencies.is_empty() {
        put_replacement(out, replace)?;
    } else {
        put_dependencies(out, dependencies)?;
    }
    Ok(())
}

fn put_package(out: &mut String, package: &EncodablePackageRef<'_>) -> Put
    ensures { AddsLines result out.old out.new (package_lines «package».now) }
{
    out.push_str("\n[[package]]\n")?;
    put_name(out, package.name)?;
    put_version(out, package.version)?;
    put_marked_source(out, &package.source)?;
    put_checksum(out, &package.checksum)?;
    put_references(out, package.dependencies.as_slice(), &package.replace)?;
    Ok(())
}

// Adds the packages, each after an empty line.
fn put_packages(alloc: Global, out: &mut String, packages: &[EncodablePackage]) -> Put
    ensures { AddsLines result out.old out.new (flat_map package_lines packages.now) }
{
    for package in packages {
        put_encoded(alloc, out, package)?;
    }
    Ok(())
}

fn put_encoded(alloc: Global, out: &mut String, package: &EncodablePackage) -> Put
    ensures { AddsLines result out.old out.new (package_lines «package».now) }
{
    let encoded = package.by_ref(alloc)?;
    put_package(out, &encoded)
}

// Adds the packages of a lockfile as they are written in a format, each after an empty line.
fn put_written_packages(
    alloc: Global,
    out: &mut String,
    format: ResolveVersion,
    list: &[Package],
) -> Put
    ensures { AddsLines result out.old out.new
        (flat_map package_lines
        (map (encoded_package_of format (map identity_of list.now)) list.now)) }
{
    let packages = Indexed::of(alloc, list)?;
    put_each_written(alloc, out, format, &packages, list)
}

fn put_each_written<'a>(
    alloc: Global,
    out: &mut String,
    format: ResolveVersion,
    packages: &Indexed<'a, Package>,
    list: &'a [Package],
) -> Put
    ensures { AddsLines result out.old out.new
        (flat_map (λ p. package_lines
        (encoded_package_of format (map identity_of packages.now) p)) list.now) }
{
    for package in list {
        put_written(alloc, out, format, packages, package)?;
    }
    Ok(())
}

fn put_written<'a>(
    alloc: Global,
    out: &mut String,
    format: ResolveVersion,
    packages: &Indexed<'a, Package>,
    package: &'a Package,
) -> Put
    ensures { AddsLines result out.old out.new
        (package_lines (encoded_package_of format (map identity_of packages.now) «package».now)) }
{
    let encoded = encoded_package_of(alloc, format, packages, package)?;
    put_package(out, &encoded)
}

// ---- unused patches

// An unused patch, its source escaped or plain.
fn put_patch(out: &mut String, patch: &Dependency, escaped: bool) -> Put
    ensures { AddsLines result out.old out.new (patch_lines escaped patch.now) }
{
    out.push_str("\n[[patch.unused]]\n")?;
    put_name(out, &patch.name)?;
    put_version(out, &patch.version)?;
    put_marked_source(out, &written_source(escaped, &patch.source))?;
    out.push_str("\n")?;
    Ok(())
}

fn put_each_patch(out: &mut String, unused: &[Dependency], escaped: bool) -> Put
    ensures { AddsLines result out.old out.new (flat_map (patch_lines escaped) unused.now) }
{
    for patch in unused {
        put_patch(out, patch, escaped)?;
    }
    Ok(())
}

// Adds the unused patches, their sources escaped or plain.
fn put_patches(out: &mut String, patch: &Patch, escaped: bool) -> Put
    ensures { AddsLines result out.old out.new (flat_map (patch_lines escaped) patch.now) }
{
    put_each_patch(out, patch.unused.as_slice(), escaped)?;
    Ok(())
}

// ---- metadata

// Whether a key of TOML may have the byte without quotation marks.
fn is_bare_byte(byte: u8) -> bool
    ensures { result ≡ is_bare_byte byte }
{
    matches!(byte, b'A'..=b'Z' | b'a'..=b'z' | b'0'..=b'9' | b'_' | b'-')
}

fn has_bare_bytes(key: &str) -> bool
    ensures { result ≡ list_all is_bare_byte key.now }
{
    key.as_bytes().iter().all(|byte| is_bare_byte(*byte))
}

// Whether a key is written without quotation marks.
fn is_bare_key(key: &str) -> bool
    ensures { result ≡ is_bare_key key.now }
{
    !key.is_empty() && has_bare_bytes(key)
}

fn put_key(out: &mut String, key: &str) -> Put
    ensures { Adds result out.old out.new (key_text key.now) }
{
    if is_bare_key(key) {
        out.push_str(key)
    } else {
        put_quoted(out, key)
    }
}

fn put_pair(out: &mut String, key: &MetadataKey, value: &MetadataValue) -> Put
    ensures { AddsLines result out.old out.new (pair_line (key.now, value.now) ∷ []) }
{
    put_key(out, key.as_str())?;
    out.push_str(" = ")?;
    put_quoted(out, value.as_str())?;
    out.push('\n')
}

// The pairs, in the order of the keys.
fn put_pairs(out: &mut String, metadata: &Metadata) -> Put
    ensures { AddsLines result out.old out.new (map pair_line metadata.now.entries) }
{
    for (key, value) in metadata {
        put_pair(out, key, value)?;
    }
    Ok(())
}

// The metadata as it is stored.
fn put_stored(out: &mut String, metadata: &Metadata) -> Put
    ensures { AddsLines result out.old out.new (metadata_lines metadata.now.entries) }
{
    if metadata.is_empty() {
        return Ok(());
    }
    out.push_str("\n[metadata]\n")?;
    put_pairs(out, metadata)?;
    Ok(())
}

// Adds the metadata, in the order of its keys, unless it is empty.
fn put_metadata(out: &mut String, metadata: &Metadata) -> Put
    ensures { AddsLines result out.old out.new
        (metadata_lines (entries (texts_of metadata.now.entries))) }
{
    keys_ascend(metadata);
    put_stored(out, metadata)?;
    Ok(())
}

// ---- the whole

impl LockfileRef<'_> {
    /// The text of the lockfile, in the lockfile's format, as Cargo writes it. The root is left
    /// out, and so is the replacement of a package with dependencies. The one error is `Memory`.
    pub fn to_string(&self, alloc: Global) -> Result<String>
        ensures ok { IfOk result (λ text. string_bytes text ≡ join_lines (lines_of self.now)) }
        ensures err { IsOkUnless result Memory }
    {
        let mut out = String::new(alloc);
        self.put(alloc, &mut out)?;
        Ok(out)
    }

    // All lines of the lockfile.
    fn put(&self, alloc: Global, out: &mut String) -> Result<()>
        ensures ok { AddsLines result out.old out.new (lines_of self.now) }
        ensures err { IsOkUnless result Memory }
    {
        let format = self.version;
        put_comments(out)?;
        let number = written_version(format);
        put_format(alloc, out, &number)?;
        put_written_packages(alloc, out, format, self.packages)?;
        put_patches(out, self.patch, is_escaped_number(&number))?;
        self.put_metadata(alloc, out)?;
        Ok(())
    }

    // The lines of the metadata that are written.
    fn put_metadata(&self, alloc: Global, out: &mut String) -> Result<()>
        ensures ok { AddsLines result out.old out.new
            (metadata_lines
            (entries (metadata_of self.now.version self.now.metadata self.now.packages))) }
        ensures err { IsOkUnless result Memory }
    {
        let metadata = metadata_of(alloc, self.version, self.metadata, self.packages)?;
        put_metadata(out, &metadata)?;
        Ok(())
    }
}

impl EncodableLockfile {
    /// The text of the lockfile, as Cargo writes it: its packages, the patches that no package
    /// uses, its metadata, and from V3 on its number. The sources of patches are escaped if the
    /// number is 4. The root is not written. The one error is `Memory`.
    pub fn to_string(&self, alloc: Global) -> Result<String>
        ensures ok { IfOk result (λ text. string_bytes text ≡ join_lines (encoded_lines self.now)) }
        ensures err { IsOkUnless result Memory }
    {
        let mut out = String::new(alloc);
        self.put_lines(alloc, &mut out)?;
        Ok(out)
    }

    // All lines of the lockfile.
    fn put_lines(&self, alloc: Global, out: &mut String) -> Put
        ensures { AddsLines result out.old out.new (encoded_lines self.now) }
    {
        put_comments(out)?;
        put_format(alloc, out, &self.version)?;
        put_packages(alloc, out, self.package.as_slice())?;
        put_patches(out, &self.patch, is_escaped_number(&self.version))?;
        put_metadata(out, &self.metadata)?;
        Ok(())
    }
}

// Adds the comments at the head of the file.
fn put_comments(out: &mut String) -> Put
    ensures { AddsLines result out.old out.new comment_lines }
{
    out.push_str(
        "# This file is automatically @generated by Cargo.\n\
         # It is not intended for manual editing.\n",
    )
}

// Adds the number of the format, which is in the file from V3 on.
fn put_format(alloc: Global, out: &mut String, version: &Option<i64>) -> Put
    ensures { AddsLines result out.old out.new (version_lines version.now) }
{
    match version {
        Some(number) if *number >= 3 => {
            let text = format!(in alloc; "version = {number}\n")?;
            out.push_str(text.as_str())
        }
        _ => Ok(()),
    }
}
