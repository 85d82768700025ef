//! Diagnostics in a database with the place where their entry begins, for editors that show related places.

ghost use Rattle.std.specs.Prelude.{◌≡◌, ◌<◌, ◌*◌, ◌^◌, length, map, option_map, IfOk};
ghost use Rattle.serde_json.specs.View.{view};
ghost use Rattle.bt_bib.specs.BibText.{pieces_of};
ghost use Rattle.bt_bib.specs.inner.Boundaries.{InOrder};
ghost use Rattle.bt_places.specs.Entries.{item_around};
ghost use Rattle.bt_places.specs.Shapes.{diagnostic};
ghost use Rattle.bt_answers.specs.Related.{shows_related, beginning, diagnostic_from, end_of_first, place_of_entry, begins_before, related_to, first_around, related_value, with_beginnings, diagnostics_in};

use bt_bib::{PlacedPiece, read_bib};
use bt_diagnostics::Diagnostic;
use bt_documents::Document;
use bt_mentions::{Mention, with_piece};
use bt_places::{
    SHOWN_BYTES, diagnostic, diagnostic_values, flag_at, is_database, location, range_of, shown,
};
use bt_shapes::range;
use bt_text::Sequence;
use serde_json::{Value, json};
use std::alloc::{AllocError, Global};

/// Whether an editor shows places related to a diagnostic, as it says in `initialize`.
pub fn shows_related(message: &Value) -> bool
    ensures { result ≡ shows_related (view message.now) }
{
    flag_at(
        message,
        "/params/capabilities/textDocument/publishDiagnostics/relatedInformation",
    )
    .unwrap_or(false)
}

fn beginning(alloc: Global, place: Value) -> Result<Value, AllocError>
    ensures { IfOk result (λ v. view v ≡ beginning (view place)) }
{
    json!(in alloc; {"location": place, "message": "the entry begins here"})
}

fn diagnostic_from(alloc: Global, found: &Diagnostic, place: Value) -> Result<Value, AllocError>
    ensures { IfOk result (λ v. view v ≡ diagnostic_from found.now (view place)) }
{
    let beginning = beginning(alloc, place)?;
    let range = range(alloc, found.from, found.to)?;
    let words = shown(alloc, found.words.as_slice())?;
    let severity = found.severity;
    json!(in alloc; {
        "range": range, "severity": severity, "source": "bibtex", "message": words, "relatedInformation": [beginning]
    })
}

/// Where the first of some mentions ends; the place if there are none.
fn end_of_first(place: usize, found: &[Mention]) -> usize
    ensures { result ≡ end_of_first place found.now }
{
    match found {
        [] => place,
        [first, ..] => first.to,
    }
}

fn place_of_entry(
    alloc: Global,
    document: &Document,
    piece: &PlacedPiece,
) -> Result<Value, AllocError>
    requires { 2 * length document.now.text < 2 ^ 64 }
    ensures { IfOk result (λ v. view v ≡ place_of_entry document.now piece.now) }
{
    let text = &document.text;
    let start = piece.start.place;
    let found = with_piece(text.as_slice(), Sequence::new(alloc), piece)?;
    let end = end_of_first(start, found.as_slice());
    let range = range_of(alloc, document.counting, text, start, end)?;
    let place = location(alloc, document.name.as_slice(), range)?;
    Ok(place)
}

/// Whether a piece begins on a line before that of a diagnostic.
fn begins_before(document: &Document, found: &Diagnostic, piece: &PlacedPiece) -> bool
    requires { 2 * length document.now.text < 2 ^ 64 }
    ensures { result ≡ begins_before document.now found.now piece.now }
{
    let text = &document.text;
    let start = piece.start.place.min(text.as_slice().len());
    text.position_of(document.counting, start).line < found.from.line
}

fn related_to(
    alloc: Global,
    document: &Document,
    found: &Diagnostic,
    piece: &PlacedPiece,
) -> Result<Value, AllocError>
    requires { 2 * length document.now.text < 2 ^ 64 }
    ensures { IfOk result (λ v. view v ≡ related_to document.now found.now piece.now) }
{
    if !begins_before(document, found, piece) {
        return diagnostic(alloc, found);
    }
    let place = place_of_entry(alloc, document, piece)?;
    let value = diagnostic_from(alloc, found, place)?;
    Ok(value)
}

/// The first piece, unless it begins behind a place.
fn first_around(pieces: &[PlacedPiece], place: usize) -> Option<&PlacedPiece>
    ensures { option_map (λ p. p.now) result ≡ first_around place pieces.now }
{
    match pieces {
        [first, ..] => if first.start.place <= place {
            Some(first)
        } else {
            None
        },
        [] => None,
    }
}

/// The item around a place, by a binary search: each diagnostic of a run asks for one.
fn found_around(pieces: &[PlacedPiece], place: usize) -> Option<&PlacedPiece>
    requires { InOrder pieces.now }
    ensures { option_map (λ p. p.now) result ≡ item_around place pieces.now }
{
    let count = pieces.partition_point(|piece| piece.end.place < place);
    let (_, back) = pieces.split_at(count);
    first_around(back, place)
}

/// A diagnostic in a document that consists of these pieces.
fn related_value(
    alloc: Global,
    document: &Document,
    pieces: &[PlacedPiece],
    found: &Diagnostic,
) -> Result<Value, AllocError>
    requires small { 2 * length document.now.text < 2 ^ 64 }
    requires order { InOrder pieces.now }
    ensures { IfOk result (λ v. view v ≡ related_value document.now pieces.now found.now) }
{
    let place = document.text.offset_of(document.counting, found.from);
    match found_around(pieces, place) {
        Some(piece) => related_to(alloc, document, found, piece),
        None => diagnostic(alloc, found),
    }
}

fn related_values(
    alloc: Global,
    document: &Document,
    pieces: &[PlacedPiece],
    found: &[Diagnostic],
) -> Result<Vec<Value>, AllocError>
    requires small { 2 * length document.now.text < 2 ^ 64 }
    requires order { InOrder pieces.now }
    ensures { IfOk result (λ list. map view list.items ≡ map (related_value document.now pieces.now) found.now) }
{
    let mut list = Vec::new(alloc);
    'found: for one in found {
        list.push(related_value(alloc, document, pieces, one)?)?;
    }
    Ok(list)
}

fn all_related(
    alloc: Global,
    document: &Document,
    found: &[Diagnostic],
) -> Result<Vec<Value>, AllocError>
    requires { 2 * length document.now.text < 2 ^ 64 }
    ensures { IfOk result (λ list. map view list.items ≡ map (related_value document.now (pieces_of document.now.text)) found.now) }
{
    let items = read_bib(alloc, document.text.as_slice())?;
    let list = related_values(alloc, document, items.pieces(), found)?;
    Ok(list)
}

fn with_beginnings(
    alloc: Global,
    shows: bool,
    document: &Document,
    found: &[Diagnostic],
) -> Result<Vec<Value>, AllocError>
    ensures { IfOk result (λ list. map view list.items ≡ with_beginnings shows document.now found.now) }
{
    let len = document.text.as_slice().len();
    if !shows || !is_database(document.name.as_slice()) || len > SHOWN_BYTES {
        return diagnostic_values(alloc, found);
    }
    all_related(alloc, document, found)
}

/// The diagnostics of a document, each in a database with the place where its entry begins if the editor shows such places.
pub fn diagnostics_in(
    alloc: Global,
    shows: bool,
    document: &Document,
    found: &[Diagnostic],
) -> Result<Vec<Value>, AllocError>
    ensures { IfOk result (λ list. map view list.items ≡ diagnostics_in shows document.now found.now) }
{
    match found {
        [] => Ok(Vec::new(alloc)),
        [_, ..] => with_beginnings(alloc, shows, document, found),
    }
}
