//! Spells a cross-reference like the entry that it names. A style sees the key as the `crossref` field has it, and LaTeX tells
//! `Parent` from `parent`.

ghost use Rattle.std.specs.Prelude.{◌≡◌, ◌<◌, ◌*◌, ◌^◌, length, map, option_map, IfOk};
ghost use Rattle.std.specs.List.{fold};
ghost use Rattle.serde_json.specs.View.{view};
ghost use Rattle.bt_writing.specs.Respelling.{spelled_in, respelled, respelling_at, with_own, with_respelling, with_respellings, with_respellings_around};

use crate::quick_fix::{action, edit_at};
use bt_bib::PlacedPiece;
use bt_documents::Document;
use bt_mentions::{Mention, is_parent, part, with_piece};
use bt_places::{key_of, with_value};
use bt_text::{Sequence, eq_ignore_ascii_case};
use serde_json::Value;
use std::alloc::{AllocError, Global};

/// How the first entry of a key spells it.
fn spelled_in<'a>(pieces: &'a [PlacedPiece], key: &[u8]) -> Option<&'a [u8]>
    ensures { option_map (λ s. s.now) result ≡ spelled_in key.now pieces.now }
{
    'pieces: for piece in pieces {
        let own = key_of(piece);
        if eq_ignore_ascii_case(own, key) {
            return Some(own);
        }
    }
    None
}

/// How the first entry of a key spells it, if it does so otherwise.
fn other_spelling<'a>(pieces: &'a [PlacedPiece], key: &[u8]) -> Option<&'a [u8]>
    ensures { option_map (λ s. s.now) result ≡ respelled key.now pieces.now }
{
    let own = spelled_in(pieces, key)?;
    if own == key { None } else { Some(own) }
}

fn respelling_at(
    alloc: Global,
    document: &Document,
    one: Mention,
    own: &[u8],
) -> Result<Value, AllocError>
    requires { 2 * length document.now.text < 2 ^ 64 }
    ensures { IfOk result (λ v. view v ≡ respelling_at document.now one own.now) }
{
    let edit = edit_at(alloc, document, one.from, one.to, own)?;
    let value = action(alloc, "Spell the key like its entry", edit)?;
    Ok(value)
}

fn with_own(
    alloc: Global,
    document: &Document,
    one: Mention,
    list: Vec<Value>,
    own: Option<&[u8]>,
) -> Result<Vec<Value>, AllocError>
    requires { 2 * length document.now.text < 2 ^ 64 }
    ensures { IfOk result (λ all. map view all.items ≡
        with_own document.now one (map view list.items) (option_map (λ s. s.now) own.entry)) }
{
    match own {
        Some(own) => {
            let value = respelling_at(alloc, document, one, own)?;
            let all = with_value(list, value)?;
            Ok(all)
        }
        None => Ok(list),
    }
}

/// A database: its document, and the items of its text.
#[derive(Clone, Copy)]
pub struct Database<'a> {
    pub document: &'a Document,
    pub pieces: &'a [PlacedPiece],
}

impl Database<'_> {
    fn with_respelling(
        &self,
        alloc: Global,
        list: Vec<Value>,
        one: Mention,
    ) -> Result<Vec<Value>, AllocError>
        requires { 2 * length self.now.document.now.text < 2 ^ 64 }
        ensures { IfOk result (λ all. map view all.items ≡
            with_respelling self.now.document.now self.now.pieces.now (map view list.items) one) }
    {
        if !is_parent(one.role) {
            return Ok(list);
        }
        let key = part(self.document.text.as_slice(), one.from, one.to);
        let all = with_own(
            alloc,
            self.document,
            one,
            list,
            other_spelling(self.pieces, key),
        )?;
        Ok(all)
    }

    fn with_each(
        &self,
        alloc: Global,
        list: Vec<Value>,
        found: &[Mention],
    ) -> Result<Vec<Value>, AllocError>
        requires { 2 * length self.now.document.now.text < 2 ^ 64 }
        ensures { IfOk result (λ all. map view all.items ≡
            fold (with_respelling self.now.document.now self.now.pieces.now) (map view list.items) found.now) }
    {
        let mut all = list;
        'found: for one in found {
            all = self.with_respelling(alloc, all, *one)?;
        }
        Ok(all)
    }

    /// Adds the actions that spell the cross-references of an item like the entries that they name.
    fn with_respellings(
        &self,
        alloc: Global,
        list: Vec<Value>,
        piece: &PlacedPiece,
    ) -> Result<Vec<Value>, AllocError>
        requires { 2 * length self.now.document.now.text < 2 ^ 64 }
        ensures { IfOk result (λ all. map view all.items ≡
            with_respellings self.now.document.now self.now.pieces.now (map view list.items) piece.now) }
    {
        let text = self.document.text.as_slice();
        let found = with_piece(text, Sequence::new(alloc), piece)?;
        self.with_each(alloc, list, found.as_slice())
    }

    /// The same for the item around a place, if there is one.
    pub fn with_respellings_around(
        &self,
        alloc: Global,
        list: Vec<Value>,
        around: Option<&PlacedPiece>,
    ) -> Result<Vec<Value>, AllocError>
        requires { 2 * length self.now.document.now.text < 2 ^ 64 }
        ensures { IfOk result (λ all. map view all.items ≡ with_respellings_around self.now.document.now self.now.pieces.now
            (map view list.items) (option_map (λ p. p.now) around.entry)) }
    {
        match around {
            Some(piece) => {
                let all = self.with_respellings(alloc, list, piece)?;
                Ok(all)
            }
            None => Ok(list),
        }
    }
}
