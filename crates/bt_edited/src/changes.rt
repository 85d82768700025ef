//! Changes that edits of a database are to make to its items.

ghost use Rattle.std.specs.Prelude.{◌≡◌, ◌++◌, option_map, IfOk};
ghost use Rattle.std.specs.List.{fold};
ghost use Rattle.bt_edited.specs.Changes.{name_after, key_after, macro_after, rekeyed_text, with_text, joined_texts, rekeyed_value, is_crossref};

use bt_bib::Part;
use bt_text::{Bytes, eq_ignore_ascii_case, trim_end, white_run};
use std::alloc::{AllocError, Global};

/// What becomes of the items of a database, apart from their places and lines.
#[derive(Drop)]
pub enum Change {
    /// They stay the same.
    Nothing,
    /// The first key becomes the second.
    Key(Bytes, Bytes),
    /// The first macro becomes the second.
    Macro(Bytes, Bytes),
}

fn name_after<'a>(old: &[u8], new: &'a [u8], name: &'a [u8]) -> &'a [u8]
    ensures { result.now ≡ name_after old.now new.now name.now }
{
    if eq_ignore_ascii_case(name, old) {
        new
    } else {
        name
    }
}

impl Change {
    /// What a key becomes.
    pub(crate) fn key_after<'a>(&'a self, key: &'a [u8]) -> &'a [u8]
        ensures { result.now ≡ key_after self.now key.now }
    {
        match self {
            Change::Key(old, new) => name_after(old.as_slice(), new.as_slice(), key),
            Change::Nothing | Change::Macro(_, _) => key,
        }
    }

    /// What a macro's name becomes.
    pub(crate) fn macro_after<'a>(&'a self, name: &'a [u8]) -> &'a [u8]
        ensures { result.now ≡ macro_after self.now name.now }
    {
        match self {
            Change::Macro(old, new) => name_after(old.as_slice(), new.as_slice(), name),
            Change::Nothing | Change::Key(_, _) => name,
        }
    }
}

/// A text that is the old key, apart from case and white space around it, with the new key in its place; none if it isn't.
fn rekeyed_text(
    alloc: Global,
    old: &[u8],
    new: &[u8],
    text: &[u8],
) -> Result<Option<Bytes>, AllocError>
    ensures { IfOk result (λ all. all ≡ rekeyed_text old.now new.now text.now) }
{
    let (white, rest) = text.split_at(white_run(text));
    let key = trim_end(rest);
    if !eq_ignore_ascii_case(key, old) {
        return Ok(None);
    }
    let (_, tail) = rest.split_at(key.len());
    let all = Bytes::of(alloc, &[white, new, tail])?;
    Ok(Some(all))
}

fn with_text(joined: Option<Bytes>, part: &Part) -> Result<Option<Bytes>, AllocError>
    ensures { IfOk result (λ all. all ≡ with_text joined part.now) }
{
    let Some(mut all) = joined else {
        return Ok(None);
    };
    match part {
        Part::Text(text) => {
            all.append(text.as_slice())?;
            Ok(Some(all))
        }
        Part::Macro(_, _) => Ok(None),
    }
}

fn joined_texts(alloc: Global, parts: &[Part]) -> Result<Option<Bytes>, AllocError>
    ensures { IfOk result (λ all. all ≡ joined_texts parts.now) }
{
    let mut joined = Some(Bytes::new(alloc));
    'parts: for part in parts {
        joined = with_text(joined, part)?;
    }
    Ok(joined)
}

/// The same of a value, by its joined texts. A value with a macro is no key.
pub(crate) fn rekeyed_value(
    alloc: Global,
    old: &[u8],
    new: &[u8],
    parts: &[Part],
) -> Result<Option<Bytes>, AllocError>
    ensures { IfOk result (λ all. all ≡ rekeyed_value old.now new.now parts.now) }
{
    match joined_texts(alloc, parts)? {
        Some(text) => rekeyed_text(alloc, old, new, text.as_slice()),
        None => Ok(None),
    }
}

/// Whether a field is the cross-reference.
pub(crate) fn is_crossref(name: &[u8]) -> bool
    ensures { result ≡ is_crossref name.now }
{
    eq_ignore_ascii_case(name, b"crossref")
}
