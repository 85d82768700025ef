//! What became of an entry's fields.

use crate::places::PlacedField;
use crate::sources::Sources;
use bt_bib::Entry;
use bt_text::eq_ignore_ascii_case;
use bt_why::{Rerun, Written};
use std::alloc::AllocError;

/// What becomes of a field.
#[derive(Clone, Copy, PartialEq, Eq)]
pub enum Fate {
    Written,
    /// A step read it, and no byte of it was written.
    Read,
    NeverRead,
}

impl<'a> Sources<'a> {
    /// Whether a byte of a line comes from a field of an entry.
    fn is_in(self, line: &[Written], key: &[u8], name: &[u8]) -> Result<bool, AllocError> {
        let mut last = None;
        for written in line {
            let mark = written.marked.mark;
            if last != Some(mark) && self.is_from(mark, key, name)? {
                return Ok(true);
            }
            last = Some(mark);
        }
        Ok(false)
    }

    fn is_written(self, key: &[u8], name: &[u8]) -> Result<bool, AllocError> {
        for step in &self.explained.steps {
            for line in &step.left.lines {
                if self.is_in(line.as_slice(), key, name)? {
                    return Ok(true);
                }
            }
        }
        Ok(false)
    }

    /// Whether a step pushed a field.
    fn has_read(self, step: &Rerun, name: &[u8]) -> bool {
        step.left.fields.iter().any(|field| eq_ignore_ascii_case(self.field_name(*field), name))
    }

    fn is_read(self, key: &[u8], name: &[u8]) -> Result<bool, AllocError> {
        for (number, step) in self.explained.steps.iter().enumerate() {
            if self.has_read(step, name)
                && let Some(own) = self.key(number)
                && self.has_from(own, name, key)?
            {
                return Ok(true);
            }
        }
        Ok(false)
    }

    fn fate(self, key: &[u8], name: &[u8]) -> Result<Fate, AllocError> {
        if self.is_written(key, name)? {
            Ok(Fate::Written)
        } else if self.is_read(key, name)? {
            Ok(Fate::Read)
        } else {
            Ok(Fate::NeverRead)
        }
    }

    /// The entry's fields of a fate.
    pub fn fields_of(self, key: &[u8], fate: Fate) -> Result<Vec<PlacedField<'a>>, AllocError> {
        let mut fields = Vec::new(self.alloc);
        let Some(place) = self.places.entry(key)? else {
            return Ok(fields);
        };
        let entry: &'a Entry = place.entry;
        for field in entry.fields.as_slice() {
            let name = field.name.as_slice();
            if let Some(placed) = place.field(name)
                && self.fate(key, name)? == fate
            {
                fields.push(placed)?;
            }
        }
        Ok(fields)
    }
}
