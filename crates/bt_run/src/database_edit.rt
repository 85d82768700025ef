//! How a splice changes a database, and what that changes of what READ found.

ghost use Rattle.std.specs.Prelude.{◌≡◌, IsTrue, slice_set};
ghost use Rattle.bt_bib.specs.BibText.{pieces_of};

use bt_bib::Items;
use bt_resolve::{KeptPieces, ResolvedEdit};
use bt_text::{Bytes, Shared, are_same, equal_bytes};

/// A database that is known by its number, from 0.
#[derive(Clone, Copy)]
pub struct KnownDatabase<'a> {
    pub number: usize,
    pub items: &'a Shared<Items>,
}

/// How a splice changed a database.
#[derive(Drop)]
pub struct DatabaseEdit {
    /// The number of the database.
    pub number: usize,
    /// Its text after the splice.
    pub text: Shared<Bytes>,
    /// The items of that text.
    pub items: Shared<Items>,
    /// Which of its pieces it kept.
    pub kept: KeptPieces,
    /// What it changes of what READ found. None if that may be more than the values of one entry.
    pub made: Option<ResolvedEdit>,
    ghost read: { items ≡ pieces_of text },
}

impl DatabaseEdit {
    /// Whether the edit makes these texts of those that are kept.
    pub fn makes(&self, kept: &[Shared<Bytes>], texts: &[Shared<Bytes>]) -> bool
        ensures { IsTrue result → texts.now ≡ slice_set kept.now self.now.number self.now.text }
    {
        let number = self.number;
        if number >= kept.len() {
            return false;
        }
        if number >= texts.len() {
            return false;
        }
        if !equal_bytes(texts[number].as_slice(), self.text.as_slice()) {
            return false;
        }
        if !are_same(&kept[..number], &texts[..number]) {
            return false;
        }
        are_same(&kept[number + 1..], &texts[number + 1..])
    }
}
