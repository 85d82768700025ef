//! What an earlier resolution knows of databases that are read again.
//!
//! One more citation, or an edit of one item, changes which entries are stored, but hardly ever what is stored of an
//! entry. Making all values again would be most of the work. So the new reading asks the earlier resolution about each
//! piece that both have. Which pieces those are follows from the edit: no text is compared.
//!
//! Of the macros, a resolution keeps only what they stand for after all items. These are the macros before a piece, if no
//! string follows it. So only pieces behind the last string are known.

ghost use Rattle.std.specs.Prelude.{◌≡◌, ◌≤◌, List, ℕ, Some, map, drop, IfSome};
ghost use Rattle.bt_bib.specs.Items.{items_of};
ghost use Rattle.bt_bib.specs.Splice.{IsItemsEdit};
ghost use Rattle.bt_bib.specs.declared.placed_pieces.PlacedPiece.{PlacedPiece as PieceSeen};
ghost use Rattle.bt_resolve.specs.Resolved.{all_items};
ghost use Rattle.bt_resolve.specs.inner.Databases.{DefineNothing};
ghost use Rattle.bt_resolve.specs.inner.Earlier.{AreKeptPieces, KnowsAt, KnowsDatabase, all_pieces, kept_in, piece_at};

use crate::kept::Found;
use crate::known_entry::KnownEntry;
use crate::macros_before::{string_databases, strings_end};
use crate::question::Question;
use crate::reading::Reach;
use bt_bib::{Items, ItemsEdit};
use bt_text::Shared;

/// Which pieces of a database an edit keeps. The first `before` pieces stay. Then `added` pieces come, and then those
/// that were at index `upto` and later.
#[derive(Clone, Copy)]
pub struct KeptPieces {
    pub before: usize,
    pub added: usize,
    pub upto: usize,
}

impl KeptPieces {
    /// All pieces.
    pub fn all() -> KeptPieces
        ensures { result ≡ all_pieces }
    {
        KeptPieces {
            before: 0,
            added: 0,
            upto: 0,
        }
    }

    /// Those that an edit of items keeps.
    pub fn of(edit: &ItemsEdit) -> KeptPieces
        ensures { (old new : List PieceSeen) → IsItemsEdit old new edit.now → AreKeptPieces old new result }
    {
        KeptPieces {
            before: edit.before,
            added: edit.new.pieces().len(),
            upto: edit.upto,
        }
    }

    /// The old index of the piece at this index, if the edit kept it.
    fn place(self, index: usize) -> Option<usize>
        ensures { IfSome result (λ place. (old new : List PieceSeen) → AreKeptPieces old new self →
            piece_at new index ≡ piece_at old place) }
    {
        if index < self.before {
            return Some(index);
        }
        let behind = index - self.before;
        if behind < self.added {
            return None;
        }
        let place = self.upto.checked_add(behind - self.added)?;
        Some(place)
    }
}

/// The database that may be edited.
#[derive(Clone, Copy)]
pub struct EditedDatabase {
    /// Its number, from 0.
    pub number: usize,
    pub kept: KeptPieces,
}

/// What an earlier resolution knows of the pieces of a database.
#[derive(Clone, Copy, Drop)]
pub struct KnownPieces<'a> {
    pub found: &'a Found,
    /// How far its reading was before each piece, and at the end.
    pub reaches: &'a [Reach],
    pub kept: KeptPieces,
    /// The index behind the last string.
    pub strings_end: usize,
}

impl<'a> KnownPieces<'a> {
    /// The entry of the piece at an index, if it was stored without a message.
    pub fn entry(&self, index: usize) -> Option<KnownEntry<'a>>
        ensures { IfSome result (KnowsAt (Some self.now) index) }
    {
        let place = self.kept.place(index)?;
        if place < self.strings_end {
            return None;
        }
        let first = self.reaches.get(place)?;
        let past = self.reaches.get(place.checked_add(1)?)?;
        if first.stored >= past.stored || first.told != past.told {
            return None;
        }
        let stored = self.found.store.entries().get(first.stored)?;
        let values = self.found.values.as_slice().get(first.stored)?;
        Some(KnownEntry {
            stored,
            values,
            macros: &self.found.macros,
        })
    }
}

/// An earlier resolution of the same databases, of which one may be edited.
#[derive(Clone, Copy, Drop)]
pub struct Earlier<'a> {
    pub question: &'a Question,
    pub found: &'a Found,
    pub edited: EditedDatabase,
    /// No database from this number on has a string.
    pub string_databases: usize,
}

impl<'a> Earlier<'a> {
    pub fn new(question: &'a Question, found: &'a Found, edited: EditedDatabase) -> Self
        ensures question { result.question.now ≡ question.now }
        ensures found { result.found.now ≡ found.now }
        ensures edited { result.edited ≡ edited }
        ensures strings { (k : ℕ) → result.string_databases ≤ k →
            DefineNothing (all_items (map items_of (drop k question.now.databases))) }
    {
        let string_databases = string_databases(question.databases.as_slice());
        Earlier {
            question,
            found,
            edited,
            string_databases,
        }
    }

    fn kept_pieces(&self, number: usize) -> KeptPieces
        ensures { result ≡ kept_in self.now.edited number }
    {
        if self.edited.number == number {
            self.edited.kept
        } else {
            KeptPieces::all()
        }
    }

    /// What is known of the pieces of a database.
    pub fn pieces(&self, number: usize) -> Option<KnownPieces<'a>>
        ensures { IfSome result (KnowsDatabase (Some self.now) number) }
    {
        if number.checked_add(1)? < self.string_databases {
            return None;
        }
        let databases = self.question.databases.as_slice();
        let items = databases.get(number)?;
        let reaches = self.found.reaches.as_slice().get(number)?;
        Some(KnownPieces {
            found: self.found,
            reaches: reaches.as_slice(),
            kept: self.kept_pieces(number),
            strings_end: strings_end(items.pieces()),
        })
    }
}
