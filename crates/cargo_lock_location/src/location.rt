//! In which line of its text each package of a lockfile begins.

ghost use Rattle.std.specs.Prelude.{◌≡◌, ◌++◌, [], ◌∷◌, IfOk, None, OnOk, Some, if◌then◌else◌, map};
ghost use Rattle.std.specs.Prelude.{option_map, slice_get, string_bytes};
ghost use Rattle.std.specs.List.{list_all};
ghost use Rattle.std.specs.Str.Lines.{lines};
ghost use Rattle.cargo_lock_location.specs.Location as spec;

use cargo_lock_parts::package::Package;
use std::alloc::{AllocError, Global};

/// The number of the line in which each of these packages of a lockfile begins in its text, from 1 on.
///
/// A package has none where the lines of the text do not show it: where not as many lines are
/// `[[package]]` as there are packages, where a text may go over several lines, where a table of an
/// array begins otherwise, and where the line of the package's name does not stand below.
///
/// # Errors
///
/// Fails when out of memory.
///
/// ```
/// let lines = package_lines(rt.alloc(), text, &lockfile.packages)?;
/// ```
pub fn package_lines(
    alloc: Global,
    text: &str,
    packages: &[Package],
) -> Result<Vec<Option<usize>>, AllocError>
    ensures { IfOk result (λ found. found.items
        ≡ spec.lines_of_packages (lines text.now) (map (λ p. p.name) packages.now)) }
{
    let names = names_of(alloc, packages)?;
    lines_of_names(alloc, text, &names)
}

// The names of packages.
fn names_of<'a>(alloc: Global, packages: &'a [Package]) -> Result<Vec<Option<&'a str>>, AllocError>
    ensures { IfOk result (λ names. map (option_map (λ t. t.now)) names.items
        ≡ map Some (map (λ p. p.name) packages.now)) }
{
    let mut names = Vec::with_capacity(alloc, packages.len())?;
    for package in packages {
        names.push(Some(package.name.as_str()))?;
    }
    Ok(names)
}

/// The number of the line in which each of the packages with these names begins in a text, from 1 on,
/// as `package_lines` says it. A package without a name has none.
///
/// # Errors
///
/// Fails when out of memory.
///
/// ```
/// let lines = lines_of_names(rt.alloc(), text, &[Some("log"), None])?;
/// ```
pub fn lines_of_names(
    alloc: Global,
    text: &str,
    names: &[Option<&str>],
) -> Result<Vec<Option<usize>>, AllocError>
    ensures { IfOk result (λ found. found.items
        ≡ spec.lines_of_names (lines text.now) (map (option_map (λ t. t.now)) names.now)) }
{
    let lines = lines_in(alloc, text)?;
    let headers = headers_in(alloc, &lines)?;
    let shown = headers.len() == names.len() && are_clear(&lines);
    numbers(alloc, names, &lines, &headers, shown)
}

// The number of the line of each package, if the lines show it.
fn numbers(
    alloc: Global,
    names: &[Option<&str>],
    lines: &[&str],
    headers: &[usize],
    shown: bool,
) -> Result<Vec<Option<usize>>, AllocError>
    requires { headers.now ≡ spec.headers_from 0 (map (λ line. line.now) lines.now) }
    ensures { IfOk result (λ found. found.items ≡ spec.numbers_from 0 shown
        (map (λ line. line.now) lines.now) (map (option_map (λ t. t.now)) names.now)) }
{
    let mut found = Vec::with_capacity(alloc, names.len())?;
    for (place, name) in names.iter().enumerate() {
        let header = header_at(headers, place, shown);
        found.push(line_of_name(alloc, lines, *name, header)?)?;
    }
    Ok(found)
}

/// The lines of a text, each without its newline.
///
/// # Errors
///
/// Out of memory.
///
/// ```
/// let lines = lines_in(alloc, text)?;
/// ```
pub fn lines_in<'a>(alloc: Global, text: &'a str) -> Result<Vec<&'a str>, AllocError>
    ensures { IfOk result (λ all. map (λ line. line.now) all.items ≡ lines text.now) }
{
    let mut all = Vec::new(alloc);
    for line in text.lines() {
        all.push(line)?;
    }
    Ok(all)
}

// The places of the lines that begin packages.
fn headers_in(alloc: Global, lines: &[&str]) -> Result<Vec<usize>, AllocError>
    ensures { IfOk result
        (λ headers. headers.items ≡ spec.headers_from 0 (map (λ line. line.now) lines.now)) }
{
    let mut headers = Vec::new(alloc);
    for (place, line) in lines.iter().enumerate() {
        put_if_header(&mut headers, place, line)?;
    }
    Ok(headers)
}

// Adds the place of a line, if it begins a package.
fn put_if_header(headers: &mut Vec<usize>, place: usize, line: &str) -> Result<(), AllocError>
    ensures { OnOk result (headers.new.items ≡ headers.old.items
        ++ (if spec.is_package_header line.now then place ∷ [] else [])) }
{
    if line == "[[package]]" {
        headers.push(place)?;
    }
    Ok(())
}

// Whether no line hides where packages begin.
fn are_clear(lines: &[&str]) -> bool
    ensures { result ≡ list_all spec.is_clear (map (λ line. line.now) lines.now) }
{
    is_each_clear(lines)
}

// The same, as a test of each line.
fn is_each_clear(lines: &[&str]) -> bool
    ensures { result ≡ list_all (λ line. spec.is_clear line.now) lines.now }
{
    lines.iter().all(|line| is_clear(line))
}

// Whether nothing in the line hides where packages begin.
fn is_clear(line: &str) -> bool
    ensures { result ≡ spec.is_clear line.now }
{
    !(has_quotes(line) || begins_other(line))
}

// Whether a text of several lines may begin or end in the line.
fn has_quotes(line: &str) -> bool
    ensures { result ≡ spec.has_quotes line.now }
{
    has_part(line.as_bytes(), b"\"\"\"") || has_part(line.as_bytes(), b"'''")
}

// Whether some part of the text is this one.
fn has_part(text: &[u8], part: &[u8]) -> bool
    ensures { result ≡ spec.is_part part.now text.now }
{
    for start in 0..text.len() {
        if text[start..].starts_with(part) {
            return true;
        }
    }
    part.is_empty()
}

// Whether the line begins a table of an array otherwise than Cargo writes packages and patches.
fn begins_other(line: &str) -> bool
    ensures { result ≡ spec.begins_other line.now }
{
    without_blanks(line.as_bytes()).starts_with(b"[[")
        && !(line == "[[package]]" || line == "[[patch.unused]]")
}

// The line without the white space at its begin.
fn without_blanks(line: &[u8]) -> &[u8]
    ensures { result.now ≡ spec.without_blanks line.now }
{
    for start in 0..line.len() {
        if !is_blank(line[start]) {
            return &line[start..];
        }
    }
    &[]
}

// Whether the byte is a space or a tab.
fn is_blank(byte: u8) -> bool
    ensures { result ≡ spec.is_blank byte }
{
    byte == b' ' || byte == b'\t'
}

// The place of the line that begins the package at a place, if it is shown.
fn header_at(headers: &[usize], place: usize, shown: bool) -> Option<usize>
    ensures { result ≡ (if shown then slice_get headers.now place else None) }
{
    if shown {
        headers.get(place).copied()
    } else {
        None
    }
}

// The number of the line at a place, if there are a name and a place, and the name stands below it.
fn line_of_name(
    alloc: Global,
    lines: &[&str],
    name: Option<&str>,
    header: Option<usize>,
) -> Result<Option<usize>, AllocError>
    ensures { IfOk result (λ line. line ≡ spec.line_of_name (map (λ l. l.now) lines.now)
        (option_map (λ t. t.now) name.entry) header) }
{
    match name {
        Some(name) => line_of_header(alloc, lines, name, header),
        None => Ok(None),
    }
}

// The number of the line at a place, if there is one, and the name stands below it.
fn line_of_header(
    alloc: Global,
    lines: &[&str],
    name: &str,
    header: Option<usize>,
) -> Result<Option<usize>, AllocError>
    ensures { IfOk result
        (λ line. line ≡ spec.line_of_header (map (λ l. l.now) lines.now) name.now header) }
{
    match header {
        Some(place) => line_below(alloc, lines, name, place),
        None => Ok(None),
    }
}

// The number of the line at a place, if the name stands below it.
fn line_below(
    alloc: Global,
    lines: &[&str],
    name: &str,
    place: usize,
) -> Result<Option<usize>, AllocError>
    ensures { IfOk result
        (λ line. line ≡ spec.line_below (map (λ l. l.now) lines.now) name.now place) }
{
    let wanted = name_line(alloc, name)?;
    Ok(line_above(lines, &wanted, place))
}

// The line that has the name of a package.
fn name_line(alloc: Global, name: &str) -> Result<String, AllocError>
    ensures { IfOk result (λ line. string_bytes line ≡ spec.name_line name.now) }
{
    format!(in alloc; "name = \"{name}\"")
}

// The number of the line at a place, if this line stands below it.
fn line_above(lines: &[&str], wanted: &str, place: usize) -> Option<usize>
    ensures { result ≡ spec.line_above (map (λ l. l.now) lines.now) wanted.now place }
{
    if place >= lines.len() {
        return None;
    }
    if is_named(&lines[place + 1..], wanted) {
        return Some(place + 1);
    }
    None
}

// Whether this line is among these before the next one that begins with a bracket.
fn is_named(lines: &[&str], wanted: &str) -> bool
    ensures { result ≡ spec.is_among wanted.now (map (λ line. line.now) lines.now) }
{
    for line in lines {
        if line.as_bytes().starts_with(b"[") {
            return false;
        }
        if *line == wanted {
            return true;
        }
    }
    false
}
