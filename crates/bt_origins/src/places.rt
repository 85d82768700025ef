//! Where entries and fields stand in the databases.

use bt_bib::{Content, Entry, Field, Item, Items, Part, Piece, PlacedPiece};
use bt_text::{ByName, eq_ignore_ascii_case};
use std::alloc::{AllocError, Global};

/// How many parents are gone through for a field.
const GENERATIONS: usize = 100;

/// An entry of a database.
#[derive(Clone, Copy)]
pub struct PlacedEntry<'a> {
    pub file: &'a [u8],
    /// The line of its `@`.
    start: usize,
    item: &'a Item,
    pub entry: &'a Entry,
}

/// A field of an entry.
#[derive(Clone, Copy)]
pub struct PlacedField<'a> {
    pub file: &'a [u8],
    pub line: usize,
    /// The key of the entry that has it, as in the database.
    pub key: &'a [u8],
    pub field: &'a Field,
}

/// The entries of the databases by their keys: the first one of each.
#[derive(Drop)]
pub struct Places<'a> {
    alloc: Global,
    entries: ByName<PlacedEntry<'a>>,
}

impl<'a> PlacedEntry<'a> {
    /// The line of its key.
    pub fn line(&self) -> usize {
        self.start.saturating_add(self.item.line)
    }

    pub fn key(&self) -> &'a [u8] {
        let entry: &'a Entry = self.entry;
        match &entry.key {
            Some(key) => key.as_slice(),
            None => &[],
        }
    }

    fn placed(&self, field: &'a Field) -> PlacedField<'a> {
        PlacedField {
            file: self.file,
            line: self.start.saturating_add(field.line),
            key: self.key(),
            field,
        }
    }

    /// Its first field of a name.
    pub fn field(&self, name: &[u8]) -> Option<PlacedField<'a>> {
        let entry: &'a Entry = self.entry;
        let field = entry
            .fields
            .as_slice()
            .iter()
            .find(|field| eq_ignore_ascii_case(field.name.as_slice(), name))?;
        Some(self.placed(field))
    }

    /// The key of its parent, if that is a plain text.
    fn parent(&self) -> Option<&'a [u8]> {
        let field: &'a Field = self.field(b"crossref")?.field;
        match field.value.as_slice() {
            [Part::Text(key)] => Some(key.as_slice()),
            _ => None,
        }
    }
}

impl<'a> Places<'a> {
    pub fn new(alloc: Global) -> Places<'a> {
        Places {
            alloc,
            entries: ByName::new(alloc),
        }
    }

    fn add_entry(&mut self, key: &[u8], placed: PlacedEntry<'a>) -> Result<(), AllocError> {
        if self.entries.has(self.alloc, key)? {
            return Ok(());
        }
        self.entries.insert(self.alloc, key, placed)
    }

    fn add_piece(&mut self, file: &'a [u8], placed: &'a PlacedPiece) -> Result<(), AllocError> {
        let piece: &'a Piece = &placed.piece;
        if let Piece::Item(item) = piece
            && let Content::Entry(entry) = &item.content
            && let Some(key) = &entry.key
        {
            let placed = PlacedEntry {
                file,
                start: placed.start.line,
                item,
                entry,
            };
            return self.add_entry(key.as_slice(), placed);
        }
        Ok(())
    }

    /// Adds the entries of a database, behind those that are there.
    pub fn add(&mut self, file: &'a [u8], items: &'a Items) -> Result<(), AllocError> {
        for piece in items.pieces() {
            self.add_piece(file, piece)?;
        }
        Ok(())
    }

    pub fn entry(&self, key: &[u8]) -> Result<Option<PlacedEntry<'a>>, AllocError> {
        Ok(self.entries.get(self.alloc, key)?.copied())
    }

    /// The field of this name that the entry with this key has or inherits.
    pub fn field(&self, key: &[u8], name: &[u8]) -> Result<Option<PlacedField<'a>>, AllocError> {
        let mut next = self.entry(key)?;
        for _ in 0..GENERATIONS {
            let Some(entry) = next else {
                return Ok(None);
            };
            if let Some(field) = entry.field(name) {
                return Ok(Some(field));
            }
            next = match entry.parent() {
                Some(parent) => self.entry(parent)?,
                None => None,
            };
        }
        Ok(None)
    }
}
