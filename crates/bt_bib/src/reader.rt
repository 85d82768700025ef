//! A reader of a text. What its functions return can outlive the reader.
//!
//! A value is an excerpt, so it isn't copied. A run that keeps nothing takes excerpts of the whole text, which it keeps
//! anyway. Other readers take them of a copy of the item's text. Otherwise one unchanged item would keep the whole old
//! text in memory after an edit.
//!
//! Databases repeat a few names in each entry. The reader of a whole database allocates them once and shares them,
//! which saves two allocations for nearly every field. Three bytes of a name say which known name it can be, so it is
//! compared with one at most.

ghost use Rattle.std.specs.Prelude.{◌≡◌, ◌≤◌, length, slice_range, IfOk};

use bt_text::{Bytes, Excerpt, Shared};
use memchr::memchr;
use std::alloc::{AllocError, Global};

#[derive(Drop)]
pub struct Reader<'a> {
    pub alloc: Global,
    pub text: &'a [u8],
    /// Whether items are kept. Then each has a copy of its own text, and its lists are as short as they can be.
    pub keeps: bool,
    /// What values are excerpts of. It isn't used before the first item of a reader that keeps them.
    pub source: &'a Shared<Bytes>,
    /// The offset of the text in the source.
    pub offset: usize,
    /// Names that are shared instead of copied each time they occur, each in its slot. Other slots hold an empty name.
    pub known: &'a [Shared<Bytes>],
}

/// The longest copy of an item's text. Most items are shorter; the later values of a longer one are copied one by one.
const ITEM_BYTES: usize = 4_096;

/// How many slots the table of known names has. With this number and the factors in `slot`, no two of `COMMON_NAMES`
/// share a slot. If they did, one of them would be copied each time.
const SLOTS: usize = 512;

/// Names that most databases repeat: fields, types, and the months as macros.
const COMMON_NAMES: &[u8] =
    b"url doi URL DOI year note isbn issn ISSN ISBN book Book misc Misc LCCN file date \
title pages month CODEN author volume number editor series school ISSN-L eprint biburl annote manual Manual \
journal address edition chapter bibdate article Article urldate crossref abstract keywords language fjournal \
publisher booktitle bibsource timestamp phdthesis PhdThesis techreport TechReport shorttitle \
institution proceedings Proceedings unpublished journal-URL howpublished organization incollection InCollection \
inproceedings InProceedings mastersthesis MastersThesis acknowledgement \
jan feb mar apr may jun jul aug sep oct nov dec";

/// The only slot in which this name can be known.
fn slot(name: &[u8]) -> usize {
    match name {
        [first, .., last] => {
            let middle = name[name.len() / 2];
            (usize::from(*first) * 4 + usize::from(*last) * 33 + usize::from(middle) * 17) % SLOTS
        }
        _ => 0,
    }
}

/// The names that most databases repeat, for the reader of a whole one. The result is the same whichever names it
/// knows.
pub fn common_names(alloc: Global) -> Result<Vec<Shared<Bytes>>, AllocError> {
    let empty = Shared::new(alloc, Bytes::new(alloc))?;
    let mut names = Vec::with_capacity(alloc, SLOTS)?;
    'slots: for _ in 0..SLOTS {
        names.push(empty.share()?)?;
    }
    'names: for name in COMMON_NAMES.split(|byte| *byte == b' ') {
        let name_slot = slot(name);
        let known = Shared::<Bytes>::copied(alloc, name)?;
        if name_slot < names.len() {
            names[name_slot] = known;
        }
    }
    Ok(names)
}

impl Reader<'_> {
    /// The bytes of the text from `start` to `end`.
    pub fn excerpt(&self, start: usize, end: usize) -> Result<Excerpt, AllocError>
        requires { (start ≤ end) × (end ≤ length self.now.text.now) }
        ensures { IfOk result (λ excerpt. excerpt ≡ slice_range self.now.text.now start end) }
    {
        let place = self.offset.saturating_add(start);
        Excerpt::at(self.alloc, self.source, place, &self.text[start..end])
    }

    /// The text that the item's values are excerpts of, and where the item begins in it. For an item that is kept, this is
    /// a copy of the text up to the next `@`, at most `ITEM_BYTES`; most items end before it.
    pub fn item_source(&self, start: usize) -> Result<(Shared<Bytes>, usize), AllocError>
        requires { start ≤ length self.now.text.now }
    {
        if !self.keeps {
            return Ok((self.source.share()?, self.offset.saturating_add(start)));
        }
        let rest = &self.text[start..];
        let near = &rest[..rest.len().min(ITEM_BYTES)];
        let len = match memchr(b'@', near.get(1..).unwrap_or(&[])) {
            None => near.len(),
            Some(place) => place + 1,
        };
        Ok((Shared::<Bytes>::copied(self.alloc, &near[..len])?, 0))
    }

    /// The known name with these bytes, or else a new one.
    pub fn name_of(&self, bytes: &[u8]) -> Result<Shared<Bytes>, AllocError>
        ensures { IfOk result (λ name. name ≡ bytes.now) }
    {
        if let Some(name) = self.known.get(slot(bytes)) {
            if name.as_slice() == bytes {
                return name.share();
            }
        }
        Shared::<Bytes>::copied(self.alloc, bytes)
    }
}
