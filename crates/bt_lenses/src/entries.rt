//! Over an entry of a database: its lines of the bibliography, and which of its fields the run never read.

use bt_bib::Entry;
use bt_origins::{PlacedEntry, PlacedField, Sources};
use bt_remarks::{Lens, entry_words};
use bt_text::{ByName, Bytes, Sequence, eq_ignore_ascii_case};
use bt_why::Written;
use std::alloc::AllocError;

/// What the run made of an entry.
#[derive(Drop)]
struct Use<'a> {
    place: PlacedEntry<'a>,
    /// The numbers of its first and its last line, from 1; 0 if it has none.
    first: usize,
    last: usize,
    /// The names of its fields that the run read.
    read: Vec<&'a [u8]>,
}

/// The uses of the entries that the run knows, by their keys.
#[derive(Drop)]
struct Uses<'a> {
    sources: Sources<'a>,
    numbers: ByName<usize>,
    uses: Vec<Use<'a>>,
}

fn is_among(names: &[&[u8]], name: &[u8]) -> bool {
    names.iter().any(|one| eq_ignore_ascii_case(one, name))
}

impl<'a> Uses<'a> {
    fn new(sources: Sources<'a>) -> Uses<'a> {
        Uses {
            sources,
            numbers: ByName::new(sources.alloc),
            uses: Vec::new(sources.alloc),
        }
    }

    /// The number of an entry's use; none if no database has the entry.
    fn number(&mut self, key: &[u8]) -> Result<Option<usize>, AllocError> {
        let alloc = self.sources.alloc;
        if let Some(number) = self.numbers.get(alloc, key)? {
            return Ok(Some(*number));
        }
        let Some(place) = self.sources.places.entry(key)? else {
            return Ok(None);
        };
        let number = self.uses.len();
        self.uses.push(Use {
            place,
            first: 0,
            last: 0,
            read: Vec::new(alloc),
        })?;
        self.numbers.insert(alloc, key, number)?;
        Ok(Some(number))
    }

    fn note_line(&mut self, key: &[u8], line: usize) -> Result<(), AllocError> {
        if let Some(number) = self.number(key)?
            && let Some(one) = self.uses.get_mut(number)
        {
            if one.first == 0 {
                one.first = line;
            }
            one.last = line;
        }
        Ok(())
    }

    fn note_field(&mut self, field: PlacedField<'a>) -> Result<(), AllocError> {
        let name: &'a [u8] = field.field.name.as_slice();
        if let Some(number) = self.number(field.key)?
            && let Some(one) = self.uses.get_mut(number)
            && !is_among(one.read.as_slice(), name)
        {
            one.read.push(name)?;
        }
        Ok(())
    }

    /// Notes that a step read the field of a name that its entry has or inherits.
    fn note_read(&mut self, step: usize, name: &[u8]) -> Result<(), AllocError> {
        if let Some(own) = self.sources.key(step)
            && let Some(field) = self.sources.places.field(own, name)?
        {
            self.note_field(field)?;
        }
        Ok(())
    }

    /// Notes a line for the entries whose steps wrote it.
    fn note_written(&mut self, line: usize, written: &[Written]) -> Result<(), AllocError> {
        let mut last = None;
        for one in written {
            if last != Some(one.step) {
                last = Some(one.step);
                if let Some(key) = self.sources.key(one.step) {
                    self.note_line(key, line)?;
                }
            }
        }
        Ok(())
    }

    fn note_lines(&mut self) -> Result<(), AllocError> {
        for (place, line) in self.sources.explained.lines()?.iter().enumerate() {
            self.note_written(place.saturating_add(1), line.as_slice())?;
        }
        Ok(())
    }

    fn note_fields(&mut self) -> Result<(), AllocError> {
        let sources = self.sources;
        for (number, step) in sources.explained.steps.iter().enumerate() {
            for field in &step.left.fields {
                self.note_read(number, sources.field_name(*field))?;
            }
        }
        Ok(())
    }
}

impl<'a> Use<'a> {
    /// The names of its fields that the run never read. BibTeX itself reads `crossref`.
    fn unread(&self, sources: Sources<'_>) -> Result<Vec<&'a [u8]>, AllocError> {
        let entry: &'a Entry = self.place.entry;
        let mut names = Vec::new(sources.alloc);
        for field in entry.fields.as_slice() {
            let name: &'a [u8] = field.name.as_slice();
            let is_known = eq_ignore_ascii_case(name, b"crossref")
                || is_among(self.read.as_slice(), name)
                || is_among(names.as_slice(), name);
            if !is_known {
                names.push(name)?;
            }
        }
        Ok(names)
    }

    fn words(&self, sources: Sources<'_>) -> Result<Bytes, AllocError> {
        let unread = self.unread(sources)?;
        entry_words(sources.alloc, self.first, self.last, unread.as_slice())
    }
}

/// Over each entry of a database that the run used.
pub fn entry_lenses(sources: Sources<'_>, file: &[u8]) -> Result<Sequence<Lens>, AllocError> {
    let mut uses = Uses::new(sources);
    uses.note_lines()?;
    uses.note_fields()?;
    let mut lenses = Sequence::new(sources.alloc);
    for one in &uses.uses {
        if one.place.file == file {
            lenses.push(Lens {
                line: one.place.line().saturating_sub(1),
                words: one.words(sources)?,
            })?;
        }
    }
    Ok(lenses)
}
