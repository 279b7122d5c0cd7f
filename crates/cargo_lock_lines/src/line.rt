//! The words of single lines.

ghost use Rattle.std.specs.Prelude.{◌≡◌, ◌≤◌, ◌<◌, ◌++◌, ◌∷◌, [], ℕ, List, true, IfSome, codes};
ghost use Rattle.std.specs.Prelude.{length, map, option_copied, take};
ghost use Rattle.std.specs.List.{list_all};
ghost use Rattle.cargo_lock_lines.specs.Held.{Holds, IsBetween};
ghost use Rattle.cargo_lock_lines.specs.Quoting.{is_bare_byte, is_bare_key, is_plain_byte};
ghost use Rattle.cargo_lock_lines.specs.TableOfWords.{optional_pairs, pair_expression, text_pair};

// What follows a text at the beginning of another, if it stands there.
pub(crate) fn after<'a>(text: &'a str, beginning: &str) -> Option<&'a str>
    ensures { IfSome result (λ rest. text.now ≡ beginning.now ++ rest.now) }
{
    text.strip_prefix(beginning)
}

// Which bytes of a string stand for themselves, each at its place: those with a dot.
static PLAIN: [u8; 256] = *b"\
    !!!!!!!!!!!!!!!!!!!!!!!!!!!!!!!!\
    ..!.............................\
    ............................!...\
    ...............................!\
    ................................\
    ................................\
    ................................\
    ................................";

// Whether a byte of a string stands for itself, and needs no escape.
fn is_plain_byte(byte: u8) -> bool
    ensures { result ≡ is_plain_byte byte }
{
    PLAIN[byte as usize] == b'.'
}

// How many bytes stand for themselves, up to the first one that does not.
fn plain_length(bytes: &[u8]) -> usize
    ensures within { result ≤ length bytes.now }
    ensures plain { list_all is_plain_byte (take result bytes.now) ≡ true }
{
    let mut count = 0;
    while count < bytes.len() && is_plain_byte(bytes[count]) {
        count += 1;
    }
    count
}

// The word between a beginning and an end, if it needs no escape, and what follows.
pub(crate) fn between<'a>(text: &'a str, beginning: &str, end: &str) -> Option<(&'a str, &'a str)>
    ensures { IfSome result
        (λ found. IsBetween text.now beginning.now found.0.now end.now found.1.now) }
{
    let inner = after(text, beginning)?;
    let (word, onward) = inner.split_at_checked(plain_length(inner.as_bytes()))?;
    let rest = after(onward, end)?;
    Some((word, rest))
}

// The word of a line that begins so, and what follows the line.
pub(crate) fn field<'a>(text: &'a str, beginning: &str) -> Option<(&'a str, &'a str)>
    ensures { IfSome result (λ found. (key : List ℕ) → is_bare_key key ≡ true
        → beginning.now ≡ key ++ codes " = \""
        → Holds text.now (pair_expression (text_pair key found.0.now) ∷ []) found.1.now) }
{
    let (word, rest) = between(text, beginning, "\"\n")?;
    Some((word, rest))
}

// The same, if there is such a line.
pub(crate) fn optional_field<'a>(text: &'a str, beginning: &str) -> (Option<&'a str>, &'a str)
    ensures { (key : List ℕ) → is_bare_key key ≡ true → beginning.now ≡ key ++ codes " = \""
        → Holds text.now (map pair_expression (optional_pairs key (option_copied result.0)))
        result.1.now }
{
    match field(text, beginning) {
        Some((word, rest)) => (Some(word), rest),
        None => (None, text),
    }
}

// Whether a key of TOML may have the byte without quotation marks.
fn is_bare_byte(byte: u8) -> bool
    ensures { result ≡ is_bare_byte byte }
{
    matches!(byte, b'A'..=b'Z' | b'a'..=b'z' | b'0'..=b'9' | b'_' | b'-')
}

fn has_bare_bytes(key: &str) -> bool
    ensures { result ≡ list_all is_bare_byte key.now }
{
    key.as_bytes().iter().all(|byte| is_bare_byte(*byte))
}

// The key and the value of a line that begins with a key in quotation marks, which needs them, and
// what follows the line.
pub(crate) fn pair(text: &str) -> Option<(&str, &str, &str)>
    ensures holds { IfSome result
        (λ found. Holds text.now (pair_expression (text_pair found.0.now found.1.now) ∷ [])
        found.2.now) }
    ensures shorter { IfSome result (λ found. length found.2.now < length text.now) }
{
    let (key, onward) = between(text, "\"", "\" = ")?;
    let (value, rest) = between(onward, "\"", "\"\n")?;
    if has_bare_bytes(key) {
        return None;
    }
    Some((key, value, rest))
}

// What follows an empty line, or the text.
pub(crate) fn after_empty_line(text: &str) -> &str
    ensures { Holds text.now [] result.now }
{
    match after(text, "\n") {
        Some(rest) => rest,
        None => text,
    }
}

// What follows two empty lines, one, or the text.
pub(crate) fn after_empty_lines(text: &str) -> &str
    ensures { Holds text.now [] result.now }
{
    after_empty_line(after_empty_line(text))
}
