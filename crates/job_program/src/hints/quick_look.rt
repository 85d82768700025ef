//! Whether the texts of a job's databases may have what `entries` hints at. Reading them again would take a fifth of the
//! run's time, and mostly for nothing.
//!
//! A quick look goes from sign to sign and never far from it, so its time is linear: to each `=` for the parents that
//! entries name and for names that end in a comma, and to each `@` for keys. It may take other text for a field or a
//! key. Then the databases are read, and there is nothing to hint at.

use crate::hints::entries::folded;
use bt_job::File;
use indexmap::IndexMap;
use memchr::{memchr_iter, memchr3};
use std::alloc::{AllocError, Global};

/// The names of parents as entries spell them, by their lower-case forms.
type Parents<'a> = IndexMap<Vec<u8>, &'a [u8]>;

pub fn is_database(file: &File) -> bool {
    file.name.as_slice().ends_with(b".bib")
}

fn before(text: &[u8], place: usize) -> &[u8] {
    text.get(..place).unwrap_or(b"").trim_ascii_end()
}

fn after(text: &[u8], place: usize) -> &[u8] {
    text.get(place.saturating_add(1)..)
        .unwrap_or(b"")
        .trim_ascii_start()
}

fn ends_word(byte: u8) -> bool {
    byte == b',' || byte == b'=' || byte.is_ascii_whitespace()
}

/// The field whose `=` comes after this text: a word after a comma. The `=` of an accent or a formula has none.
fn field(text: &[u8]) -> Option<&[u8]> {
    let name = text.rsplit(|byte| ends_word(*byte)).next()?;
    let front = text.get(..text.len().saturating_sub(name.len()))?;
    if front.trim_ascii_end().ends_with(b",") {
        Some(name)
    } else {
        None
    }
}

/// Whether a text may end in a field that is looked at: `author`, `editor` or `crossref`. Most fields end in another
/// letter.
fn may_end_in_field(text: &[u8]) -> bool {
    matches!(text.last(), Some(b'r' | b'R' | b'f' | b'F'))
}

fn is_of_names(name: &[u8]) -> bool {
    name.eq_ignore_ascii_case(b"author") || name.eq_ignore_ascii_case(b"editor")
}

fn begins_with_and(rest: &[u8]) -> bool {
    let is_longer = rest.get(3).is_some_and(|byte| byte.is_ascii_alphabetic());
    !is_longer
        && rest
            .get(..3)
            .is_some_and(|word| word.eq_ignore_ascii_case(b"and"))
}

/// Whether a name may end before this text: at `and`, or at the end of the value.
fn ends_name(rest: &[u8]) -> bool {
    rest.starts_with(b"}") || rest.starts_with(b"\"") || begins_with_and(rest)
}

fn has_last_comma(names: &[u8]) -> bool {
    memchr_iter(b',', names).any(|place| ends_name(after(names, place)))
}

/// The value that begins here, if it is one text without braces inside.
fn value(rest: &[u8]) -> Option<&[u8]> {
    if !rest.starts_with(b"{") && !rest.starts_with(b"\"") {
        return None;
    }
    let inside = rest.get(1..)?;
    let end = memchr3(b'}', b'"', b'=', inside)?;
    inside.get(..end)
}

/// Whether the parent after this `=` was spelled otherwise before.
fn is_spelled_otherwise<'a>(
    alloc: Global,
    text: &'a [u8],
    place: usize,
    parents: &mut Parents<'a>,
) -> Result<bool, AllocError> {
    if let Some(parent) = value(after(text, place))
        && let Some(other) = parents.insert(folded(alloc, parent)?, parent)?
    {
        return Ok(other != parent);
    }
    Ok(false)
}

/// Whether a name may end in a comma between the `=` of a field of names, if there is one, and the next field.
fn has_wrong_name(text: &[u8], from: Option<usize>, place: usize) -> bool {
    match from {
        Some(from) => has_last_comma(text.get(from..place).unwrap_or(b"")),
        None => false,
    }
}

/// Whether a name may end in a comma, or some of the parents so far have two spellings.
fn has_wrong_field<'a>(
    alloc: Global,
    text: &'a [u8],
    parents: &mut Parents<'a>,
) -> Result<bool, AllocError> {
    let mut names_from = None;
    'fields: for place in memchr_iter(b'=', text) {
        let front = before(text, place);
        if (names_from.is_some() || may_end_in_field(front))
            && let Some(name) = field(front)
        {
            if has_wrong_name(text, names_from, place) {
                return Ok(true);
            }
            names_from = if is_of_names(name) { Some(place) } else { None };
            if name.eq_ignore_ascii_case(b"crossref")
                && is_spelled_otherwise(alloc, text, place, parents)?
            {
                return Ok(true);
            }
        }
    }
    Ok(has_wrong_name(text, names_from, text.len()))
}

/// The longest key that is looked at. Otherwise many `@` would each search the whole text.
const LONGEST_KEY: usize = 1_000;

/// The key of the item whose `@` is before this text. There is none if another `@` comes before its opening sign.
fn key(item: &[u8]) -> Option<&[u8]> {
    let open = memchr3(b'{', b'(', b'@', item)?;
    if item.get(open) == Some(&b'@') {
        return None;
    }
    let rest = after(item, open);
    let near = rest.get(..LONGEST_KEY).unwrap_or(rest);
    near.split(|byte| *byte == b'}' || ends_word(*byte)).next()
}

fn has_other_key(alloc: Global, text: &[u8], parents: &Parents<'_>) -> Result<bool, AllocError> {
    'items: for place in memchr_iter(b'@', text) {
        if let Some(found) = key(after(text, place))
            && let Some(parent) = parents.get(folded(alloc, found)?.as_slice())
            && *parent != found
        {
            return Ok(true);
        }
    }
    Ok(false)
}

fn has_wrong_fields<'a>(
    alloc: Global,
    files: &'a [File],
    parents: &mut Parents<'a>,
) -> Result<bool, AllocError> {
    'files: for file in files {
        if is_database(file) && has_wrong_field(alloc, file.text.as_slice(), parents)? {
            return Ok(true);
        }
    }
    Ok(false)
}

fn has_other_keys(
    alloc: Global,
    files: &[File],
    parents: &Parents<'_>,
) -> Result<bool, AllocError> {
    'files: for file in files {
        if is_database(file) && has_other_key(alloc, file.text.as_slice(), parents)? {
            return Ok(true);
        }
    }
    Ok(false)
}

/// Whether the databases may have what is hinted at. The only error is out of memory.
pub fn may_be_wrong(alloc: Global, files: &[File]) -> Result<bool, AllocError> {
    let mut parents = IndexMap::new(alloc);
    if has_wrong_fields(alloc, files, &mut parents)? {
        return Ok(true);
    }
    if parents.is_empty() {
        return Ok(false);
    }
    has_other_keys(alloc, files, &parents)
}
