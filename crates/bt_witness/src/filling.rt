//! Entries that may trigger a fault: they have what is known of their fields, and their other fields are filled in a few
//! ways.

use bt_check::{Fault, FieldState};
use bt_style::Style;
use bt_text::Bytes;
use std::alloc::{AllocError, Global};

/// A way to fill in the fields of which nothing is known.
#[derive(Clone, Copy, PartialEq, Eq)]
pub enum Rest {
    Nothing,
    Common,
    All,
    /// Only the field of this number.
    Only(usize),
    CommonAnd(usize),
    AllBut(usize),
}

#[derive(Clone, Copy)]
pub struct Filling {
    pub rest: Rest,
    pub names: &'static [u8],
    /// Whether a field that must be missing or blank is made blank.
    pub is_blank: bool,
}

const NAME_FIELDS: [&[u8]; 6] = [
    b"author",
    b"editor",
    b"translator",
    b"bookauthor",
    b"editora",
    b"editorb",
];

const COMMON_FIELDS: [&[u8]; 9] = [
    b"author",
    b"title",
    b"year",
    b"journal",
    b"booktitle",
    b"publisher",
    b"school",
    b"institution",
    b"note",
];

fn is_among(names: &[&[u8]], name: &[u8]) -> bool {
    names.iter().any(|one| *one == name)
}

fn value(field: &[u8], names: &'static [u8]) -> &'static [u8] {
    if is_among(&NAME_FIELDS, field) {
        return names;
    }
    match field {
        b"year" => b"1999",
        b"month" => b"March",
        b"pages" => b"10--20",
        b"volume" => b"7",
        b"number" => b"3",
        b"chapter" => b"4",
        b"edition" => b"Second",
        b"day" => b"5",
        b"date" | b"urldate" => b"1999-03-04",
        b"language" => b"english",
        b"crossref" => b"parent",
        _ => b"Some text",
    }
}

impl Filling {
    fn has(self, field: usize, name: &[u8]) -> bool {
        match self.rest {
            Rest::Nothing => false,
            Rest::Common => is_among(&COMMON_FIELDS, name),
            Rest::All => name != b"crossref".as_slice(),
            Rest::Only(other) => field == other,
            Rest::CommonAnd(other) => field == other || is_among(&COMMON_FIELDS, name),
            Rest::AllBut(other) => field != other && name != b"crossref".as_slice(),
        }
    }

    /// What a field has in the entry; none if it is missing.
    fn field(self, state: Option<FieldState>, field: usize, name: &[u8]) -> Option<&'static [u8]> {
        match state {
            Some(FieldState::Missing) => None,
            Some(FieldState::Blank) => Some(b""),
            Some(FieldState::Empty) => { if self.is_blank { Some(b"") } else { None } }
            Some(FieldState::Present | FieldState::Given) => Some(value(name, self.names)),
            None => {
                if self.has(field, name) {
                    Some(value(name, self.names))
                } else {
                    None
                }
            }
        }
    }
}

fn state_of(fault: &Fault, field: usize) -> Option<FieldState> {
    fault
        .conditions
        .iter()
        .find(|condition| condition.field == field)
        .map(|condition| condition.state)
}

fn add_field<'x>(text: &mut Bytes, name: &'x [u8], value: &'x [u8]) -> Result<(), AllocError> {
    text.append_all(&[b", ", name, b" = {", value, b"}"])
}

/// The fields of an entry that meets what is known of the fault's entries, as they follow its key.
pub fn fields(
    alloc: Global,
    style: &Style,
    fault: &Fault,
    filling: Filling,
) -> Result<Bytes, AllocError> {
    let mut text = Bytes::new(alloc);
    for (field, name) in style.fields.as_slice().iter().enumerate() {
        let name = name.as_slice();
        if let Some(value) = filling.field(state_of(fault, field), field, name) {
            add_field(&mut text, name, value)?;
        }
    }
    Ok(text)
}

/// An entry of this type and key, with these fields.
pub fn entry<'x>(
    alloc: Global,
    entry_type: &'x [u8],
    key: &'x [u8],
    fields: &'x [u8],
) -> Result<Bytes, AllocError> {
    Bytes::of(alloc, &[b"@", entry_type, b"{", key, fields, b"}"])
}
