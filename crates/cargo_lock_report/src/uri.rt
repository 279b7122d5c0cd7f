//! Paths as references, and which URLs are URIs of the web.

ghost use Rattle.std.specs.Prelude.{◌≡◌};
ghost use Rattle.percent_encoding.specs.Iter.{encoded_text};
ghost use Rattle.cargo_lock_report.specs.Uris as spec;
ghost use Rattle.cargo_lock_report.specs.Uris.{escaped_path};

use percent_encoding::{AsciiSet, NON_ALPHANUMERIC, PercentEncode, ascii_set, utf8_percent_encode};
use std::fmt;

// The ASCII bytes that are escaped in a path.
const PATH: AsciiSet = ascii_set!(
    NON_ALPHANUMERIC
        .remove(b'-')
        .remove(b'.')
        .remove(b'_')
        .remove(b'~')
        .remove(b'/')
);

// Displays a path as a reference of RFC 3986, which is relative if the path is.
#[derive(Clone, Copy)]
pub(crate) struct PathUri<'a>(pub(crate) &'a str);

impl fmt::Display for PathUri<'_> {
    ghost use Rattle.std.specs.Prelude.{Some};
    ghost use Rattle.cargo_lock_report.specs.Uris.{uri_of_path};

    ghost output = { λ shown. Some (uri_of_path shown.0.now) };

    fn fmt<W: fmt::Write>(&self, f: &mut fmt::Formatter<W>) -> fmt::Result {
        let PathUri(path) = *self;
        let escaped = escape(path);
        if path.as_bytes().starts_with(b"/") {
            return write!(f, "file://{escaped}");
        }
        write!(f, "{escaped}")
    }
}

fn escape(path: &str) -> PercentEncode<'_>
    ensures { encoded_text result ≡ escaped_path path.now }
{
    utf8_percent_encode(path, PATH)
}

// Whether a text is a URI of the web that needs no escape.
pub(crate) fn is_link(text: &str) -> bool
    ensures { result ≡ spec.is_link text.now }
{
    let bytes = text.as_bytes();
    if bytes.starts_with(b"https://") {
        return is_link_rest(&bytes[8..]);
    }
    if bytes.starts_with(b"http://") {
        return is_link_rest(&bytes[7..]);
    }
    false
}

// Whether a text is what follows the scheme of such a URI.
fn is_link_rest(rest: &[u8]) -> bool
    ensures { result ≡ spec.is_link_rest rest.now }
{
    !rest.is_empty() && has_link_bytes(rest) && count_of_fragments(rest) <= 1
}

fn has_link_bytes(rest: &[u8]) -> bool
    ensures { result ≡ spec.has_link_bytes rest.now }
{
    rest.iter().all(|byte| is_link_byte(*byte))
}

fn count_of_fragments(rest: &[u8]) -> usize
    ensures { result ≡ spec.count_of_fragments rest.now }
{
    rest.iter().filter(|byte| **byte == b'#').count()
}

fn is_link_byte(byte: u8) -> bool
    ensures { result ≡ spec.is_link_byte byte }
{
    byte.is_ascii_alphanumeric() || is_link_mark(byte)
}

fn is_link_mark(byte: u8) -> bool
    ensures { result ≡ spec.is_link_mark byte }
{
    b"-._~/?#!$&'()*+,;=".contains(&byte)
}
