//! Texts in a list.

ghost use Rattle.std.specs.Prelude.{◌≡◌, bytes_eq, string_bytes};
ghost use Rattle.std.specs.List.{list_any};
ghost use Rattle.cargo_lock_audit.specs.Texts.{bytes_of_texts, is_listed};

// Whether the text is one of the list.
pub(crate) fn is_listed(texts: &[String], text: &str) -> bool
    ensures { result ≡ is_listed (bytes_of_texts texts.now) text.now }
{
    is_among(texts, text)
}

// The same, as a test of each text.
fn is_among(texts: &[String], text: &str) -> bool
    ensures { result ≡ list_any (λ s. bytes_eq text.now (string_bytes s)) texts.now }
{
    texts.iter().any(|one| text == one.as_str())
}
