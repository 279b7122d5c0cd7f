//! The text of a source.

ghost use Rattle.std.specs.Prelude.{◌≡◌, Some, IfOk, IsOkUnless, false, option_copied};
ghost use Rattle.std.specs.Prelude.{string_bytes};
ghost use Rattle.std.specs.Fmt.{DisplaysOnOk};
ghost use Rattle.cargo_lock_parts.specs.Source.{git_reference_of};
ghost use Rattle.cargo_lock_parts.specs.SourceText.{fragment_text, query_text, text_of};
ghost use Rattle.cargo_lock_parts.specs.declared.error.Error.TheVariants.{Memory};

use crate::error::Result;
use crate::package::source::{GitReference, PrettyRef, SourceId, SourceKind};
use std::alloc::Global;
use std::fmt;
use std::marker::Model;

/// A source that can be displayed, with the value of a git reference escaped or as it is.
/// `SourceId::as_url` makes it.
#[derive(Drop)]
pub struct SourceIdAsUrl<'a> {
    id: &'a SourceId,
    escaped: bool,
}

impl<'a> Model for SourceIdAsUrl<'a> {
    ghost use Rattle.cargo_lock_parts.specs.Source.{MarkedSource};

    ghost Value = { MarkedSource };

    ghost view = { λ shown. record { source = shown.id.now; escaped = shown.escaped } };
}

impl<'a> SourceIdAsUrl<'a> {
    /// The source.
    pub fn source(&self) -> &'a SourceId
        ensures { result.now ≡ self.now.source }
    {
        self.id
    }

    /// Whether the value of a git reference is escaped.
    pub fn is_escaped(&self) -> bool
        ensures { result ≡ self.now.escaped }
    {
        self.escaped
    }
}

impl SourceId {
    /// The source as a text that can be displayed: its prefix, `+` and its URL, as
    /// `registry+https://github.com/rust-lang/crates.io-index`, and for git the reference and the
    /// commit, as `git+https://example.org/u?tag=v1#0123abc`. Lockfiles have the reference's value
    /// escaped as in a form from V4 on, and unchanged before.
    pub fn as_url(&self, escaped: bool) -> SourceIdAsUrl<'_>
        ensures { result ≡ record { source = self.now; escaped = escaped } }
    {
        SourceIdAsUrl { id: self, escaped }
    }

    /// The text that `Display` writes, which is not escaped. The one error is `Memory`.
    ///
    /// ```
    /// let text = tagged.to_text(alloc)?;
    /// ```
    pub fn to_text(&self, alloc: Global) -> Result<String>
        ensures ok { IfOk result (λ text. string_bytes text ≡ text_of false self.now) }
        ensures err { IsOkUnless result Memory }
    {
        Ok(self.to_string(alloc)?)
    }
}

impl fmt::Display for SourceId {
    ghost use Rattle.std.specs.Prelude.{Some, false};
    ghost use Rattle.cargo_lock_parts.specs.SourceText.{text_of};

    ghost output = { λ source. Some (text_of false source) };

    fn fmt<W: fmt::Write>(&self, f: &mut fmt::Formatter<W>) -> fmt::Result {
        fmt::Display::fmt(&self.as_url(false), f)
    }
}

#[tactic(auto, unfolding(crate::specs::SourceText::text_of))]
impl fmt::Display for SourceIdAsUrl<'_> {
    ghost use Rattle.std.specs.Prelude.{Some};
    ghost use Rattle.cargo_lock_parts.specs.SourceText.{marked_text};

    ghost output = { λ shown. Some (marked_text shown) };

    fn fmt<W: fmt::Write>(&self, f: &mut fmt::Formatter<W>) -> fmt::Result {
        let id = self.id;
        let url = id.url().as_str();
        match id.kind() {
            SourceKind::Git(reference) => {
                write!(f, "git+{url}")?;
                write_query(reference, self.escaped, f)?;
                write_fragment(id.precise(), f)
            }
            SourceKind::Path => write!(f, "path+{url}"),
            SourceKind::Registry => write!(f, "registry+{url}"),
            SourceKind::SparseRegistry => write!(f, "sparse+{url}"),
            SourceKind::LocalRegistry => write!(f, "local-registry+{url}"),
            SourceKind::Directory => write!(f, "directory+{url}"),
        }
    }
}

fn write_query<W: fmt::Write>(
    reference: &GitReference,
    escaped: bool,
    f: &mut fmt::Formatter<W>,
) -> fmt::Result
    ensures { DisplaysOnOk W.write_str_gives f.old result
        (Some (query_text escaped (git_reference_of reference.now))) f.new }
{
    match reference.pretty_ref(escaped) {
        None => Ok(()),
        Some(pretty) => write!(f, "?{pretty}"),
    }
}

fn write_fragment<W: fmt::Write>(precise: Option<&str>, f: &mut fmt::Formatter<W>) -> fmt::Result
    ensures { DisplaysOnOk W.write_str_gives f.old result
        (Some (fragment_text (option_copied precise.entry))) f.new }
{
    match precise {
        Some(precise) => write!(f, "#{precise}"),
        None => Ok(()),
    }
}
