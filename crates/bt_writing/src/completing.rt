//! Completes types, fields, keys and macros in a database, and keys in citations.

ghost use Rattle.std.specs.Prelude.{◌≡◌, ◌≤◌, ◌<◌, ◌*◌, ◌^◌, ◌++◌, ◌∷◌, [], map, length, option_map, IfOk};
ghost use Rattle.std.specs.List.{list_any};
ghost use Rattle.serde_json.specs.View.{view};
ghost use Rattle.bt_writing.specs.StyleMacros.{macro_candidate};
ghost use Rattle.bt_writing.specs.Completing.{has_comma, offer_inside, offer_at, start_or, present_in, macro_candidates, offers, offers_around, database_at, completion_at};

use crate::citing::{candidates, citation_at};
use crate::fields::{Fields, field_candidates};
use crate::style_macros::with_style_macros;
use crate::types::type_candidates;
use crate::written::{Written, is_head, written_len};
use bt_answers::is_definition;
use bt_bib::{Field, PlacedPiece, read_bib};
use bt_documents::Document;
use bt_mentions::{Inside, Mention, inside_item, part};
use bt_places::{
    Cursor, NamedText, Paper, Pick, SHOWN_BYTES, Visit, fields_of, is_database, item_around, shown,
    with_files, with_picked, with_value,
};
use serde_json::{Value, json};
use std::alloc::{AllocError, Global};

/// What is offered at a place of an item.
#[derive(Clone, Copy)]
pub enum Offer {
    Nothing,
    Types,
    Fields,
    Keys,
    Macros,
}

/// The macros of databases.
#[derive(Clone, Copy)]
struct MacroNames {
    written: Written,
}

fn has_comma(text: &[u8]) -> bool
    ensures { result ≡ has_comma text.now }
{
    text.iter().any(|byte| *byte == b',')
}

/// What is offered where an item's first bytes end, after its type. Fields come after the comma that ends the key.
fn offer_inside(front: &[u8]) -> Offer
    ensures { result ≡ offer_inside front.now }
{
    match inside_item(front) {
        Inside::Name(_) => if has_comma(front) {
            Offer::Fields
        } else {
            Offer::Nothing
        },
        Inside::Value(false) => Offer::Macros,
        Inside::Value(true) | Inside::Braced(true, 0) | Inside::Quoted(true, 0) => Offer::Keys,
        Inside::Braced(_, _) | Inside::Quoted(_, _) => Offer::Nothing,
    }
}

/// What is offered where an item's first bytes end.
fn offer_at(front: &[u8]) -> Offer
    ensures { result ≡ offer_at front.now }
{
    if is_head(front) {
        Offer::Types
    } else {
        offer_inside(front)
    }
}

fn start_or(around: Option<&PlacedPiece>, place: usize) -> usize
    ensures { result ≡ start_or place (option_map (λ p. p.now) around.entry) }
{
    match around {
        Some(piece) => piece.start.place,
        None => place,
    }
}

fn present_in(around: Option<&PlacedPiece>) -> &[Field]
    ensures { result.now ≡ present_in (option_map (λ p. p.now) around.entry) }
{
    match around {
        Some(piece) => fields_of(piece),
        None => &[],
    }
}

fn macro_candidate(alloc: Global, written: Written, name: &[u8]) -> Result<Value, AllocError>
    ensures { IfOk result (λ v. view v ≡ macro_candidate written name.now) }
{
    let edit = written.edit(alloc, name)?;
    let name = shown(alloc, name)?;
    json!(in alloc; {"label": name, "kind": 21, "textEdit": edit})
}

/// A list with what is offered for a macro.
pub fn with_name(
    alloc: Global,
    written: Written,
    name: &[u8],
    list: Vec<Value>,
) -> Result<Vec<Value>, AllocError>
    ensures { IfOk result (λ all. map view all.items ≡ map view list.items ++ macro_candidate written name.now ∷ []) }
{
    let candidate = macro_candidate(alloc, written, name)?;
    with_value(list, candidate)
}

impl Pick for MacroNames {
    ghost use Rattle.bt_writing.specs.Completing.{with_macro};

    ghost picked = { λ m uri text list one. with_macro m.written text list one };

    fn pick(
        &self,
        alloc: Global,
        file: &NamedText<'_>,
        list: Vec<Value>,
        one: Mention,
    ) -> Result<Vec<Value>, AllocError> {
        if !is_definition(one.role) {
            return Ok(list);
        }
        let name = part(file.text.as_slice(), one.from, one.to);
        with_name(alloc, self.written, name, list)
    }
}

impl Visit for MacroNames {
    ghost use Rattle.bt_writing.specs.Completing.{with_macros};

    ghost added = { λ m list uri text. with_macros m.written list uri text };

    fn visit(
        &self,
        alloc: Global,
        list: Vec<Value>,
        uri: &[u8],
        text: &[u8],
    ) -> Result<Vec<Value>, AllocError> {
        with_picked(alloc, self, list, uri, text)
    }
}

fn macro_candidates<P: Paper>(
    alloc: Global,
    paper: &P,
    written: Written,
) -> Result<Vec<Value>, AllocError>
    ensures { IfOk result (λ list. map view list.items ≡ macro_candidates written (P.shown paper.now).files) }
{
    let names = MacroNames { written };
    let list = with_files(alloc, paper, &names, Vec::new(alloc))?;
    let all = with_style_macros(alloc, paper, written, list)?;
    Ok(all)
}

fn offers<P: Paper>(
    alloc: Global,
    paper: &P,
    present: &[Field],
    offer: Offer,
    written: Written,
) -> Result<Value, AllocError>
    ensures { IfOk result (λ v. view v ≡ offers (P.shown paper.now).files present.now offer written) }
{
    match offer {
        Offer::Nothing => Ok(Value::Null),
        Offer::Types => Ok(Value::Array(type_candidates(alloc, paper, written)?)),
        Offer::Keys => Ok(Value::Array(candidates(alloc, paper, written)?)),
        Offer::Macros => Ok(Value::Array(macro_candidates(alloc, paper, written)?)),
        Offer::Fields => {
            let fields = Fields { present, written };
            Ok(Value::Array(field_candidates(alloc, paper, fields)?))
        }
    }
}

fn offers_around<P: Paper>(
    alloc: Global,
    paper: &P,
    document: &Document,
    around: Option<&PlacedPiece>,
    place: usize,
) -> Result<Value, AllocError>
    requires within { place ≤ length document.now.text }
    requires small { 2 * length document.now.text < 2 ^ 64 }
    ensures { IfOk result (λ v. view v ≡
        offers_around (P.shown paper.now).files document.now (option_map (λ p. p.now) around.entry) place) }
{
    let front = part(document.text.as_slice(), start_or(around, place), place);
    let written = Written::before(document, place, written_len(front));
    offers(alloc, paper, present_in(around), offer_at(front), written)
}

fn database_at<P: Paper>(alloc: Global, paper: &P, cursor: &Cursor<'_>) -> Result<Value, AllocError>
    requires { 2 * length cursor.now.document.now.text < 2 ^ 64 }
    ensures { IfOk result (λ v. view v ≡ database_at (P.shown paper.now).files cursor.now.document.now cursor.now.at) }
{
    let Cursor { document, at } = *cursor;
    let place = document.text.offset_of(document.counting, at);
    let items = read_bib(alloc, document.text.as_slice())?;
    let around = item_around(items.pieces(), place);
    let list = offers_around(alloc, paper, document, around, place)?;
    Ok(list)
}

/// What is offered at a position of a document: in a database types, fields, the keys in a `crossref` field, and macros in other
/// values; elsewhere the keys in a citation. Null in a document of more than 1 GiB.
pub fn completion_at<P: Paper>(
    alloc: Global,
    paper: &P,
    cursor: &Cursor<'_>,
) -> Result<Value, AllocError>
    ensures { IfOk result (λ v. view v ≡ completion_at (P.shown paper.now).files cursor.now.document.now cursor.now.at) }
{
    let document = cursor.document;
    if document.text.as_slice().len() > SHOWN_BYTES {
        Ok(Value::Null)
    } else if is_database(document.name.as_slice()) {
        database_at(alloc, paper, cursor)
    } else {
        citation_at(alloc, paper, cursor)
    }
}
