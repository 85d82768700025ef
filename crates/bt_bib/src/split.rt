//! Cutting a database into parts.
//!
//! A session accepts only files of limited length, so a longer database has to be read in parts. It can be cut wherever
//! no item lies across the cut: then the parts have the same items as the whole. Looking for an `@` at the beginning of
//! a line isn't enough, since a value can contain one. So the cuts are computed from the items that were read.
//!
//! The byte after an item matters only to a faulty item and to the word `@comment`, which end where the reader meets a
//! byte that doesn't fit. That byte has to stay in their part. An item without a fault ends with its own closing sign, and
//! the cut may come right after it.

ghost use Rattle.std.specs.Prelude.{◌≡◌, ◌++◌, length, true, IfOk, OnOk};
ghost use Rattle.bt_bib.specs.BibText.{pieces_of};
ghost use Rattle.bt_bib.specs.Parts.{is_whole, lies_before, AreCuts, is_closed};
ghost use Rattle.bt_bib.specs.Split.{places_between, places_behind, cut_places, cut_before, begin_after, chosen, AreSmall};

use crate::item::Piece;
use crate::items::Items;
use crate::placed_pieces::PlacedPiece;
use std::alloc::{AllocError, Global};

fn is_whole(piece: &PlacedPiece) -> bool
    ensures { result ≡ is_whole piece.now.piece }
{
    match &*piece.piece {
        Piece::Comment => false,
        Piece::Item(item) => item.fault.is_none(),
    }
}

/// Adds the places where the text can be cut between the end of one piece and the beginning of the next.
fn add_between(
    places: &mut Vec<usize>,
    end: usize,
    whole: bool,
    begin: usize,
) -> Result<(), AllocError>
    ensures { OnOk result (places.new.items ≡ places.old.items ++ places_between end whole begin) }
{
    if end < begin && end + 1 < begin {
        places.push(end + 1)?;
    }
    if end < begin || whole {
        places.push(begin)?;
    }
    Ok(())
}

/// Adds the place after the last piece, unless the text ends there.
fn add_behind(places: &mut Vec<usize>, end: usize, limit: usize) -> Result<(), AllocError>
    ensures { OnOk result (places.new.items ≡ places.old.items ++ places_behind end limit) }
{
    if end < limit && end + 1 < limit {
        places.push(end + 1)?;
    }
    Ok(())
}

/// The places where a text of `limit` bytes with these pieces can be cut: the beginnings of pieces and the places just
/// after them.
fn cut_places(alloc: Global, pieces: &[PlacedPiece], limit: usize) -> Result<Vec<usize>, AllocError>
    ensures { IfOk result (λ places. places.items ≡ cut_places pieces.now limit) }
{
    let mut places = Vec::new(alloc);
    let mut end = 0;
    let mut whole = true;
    'pieces: for piece in pieces {
        add_between(&mut places, end, whole, piece.start.place)?;
        end = piece.end.place;
        whole = is_whole(piece);
    }
    add_behind(&mut places, end, limit)?;
    Ok(places)
}

/// If the part that began at `from` would be too long once it reached `place`, ends it at `last`, where it can be cut.
/// Returns where the current part begins after that.
fn cut_before(
    cuts: &mut Vec<usize>,
    from: usize,
    last: usize,
    place: usize,
    most: usize,
) -> Result<usize, AllocError>
    ensures cut { OnOk result (cuts.new.items ≡ cuts.old.items ++ cut_before most from last place) }
    ensures begin { IfOk result (λ begin. begin ≡ begin_after most from last place) }
{
    if place.saturating_sub(from) > most && from < last {
        cuts.push(last)?;
        Ok(last)
    } else {
        Ok(from)
    }
}

/// The places, of these, at which parts end. They are chosen so that each part has at most `most` bytes if possible.
fn chosen(
    alloc: Global,
    places: &[usize],
    limit: usize,
    most: usize,
) -> Result<Vec<usize>, AllocError>
    ensures { IfOk result (λ cuts. cuts.items ≡ chosen most 0 0 places.now limit) }
{
    let mut cuts = Vec::new(alloc);
    let mut from = 0;
    let mut last = 0;
    'places: for place in places {
        from = cut_before(&mut cuts, from, last, *place, most)?;
        last = *place;
    }
    cut_before(&mut cuts, from, last, limit, most)?;
    Ok(cuts)
}

/// The places at which to cut a database into parts, in rising order. No item lies across a cut. A part has at most
/// `most` bytes, unless it is a single item or a stretch of text between items that is longer. `items` are those of
/// `text`. The only error is out of memory.
pub fn split_places(
    alloc: Global,
    text: &[u8],
    items: &Items,
    most: usize,
) -> Result<Vec<usize>, AllocError>
    requires { items.now ≡ pieces_of text.now }
    ensures cuts { IfOk result (λ cuts. AreCuts (pieces_of text.now) 0 (length text.now) cuts.items) }
    ensures sizes { IfOk result (λ cuts. AreSmall (cut_places (pieces_of text.now) (length text.now)) most 0
        (length text.now) cuts.items) }
{
    let places = cut_places(alloc, items.pieces(), text.len())?;
    chosen(alloc, &places, text.len(), most)
}

fn lies_before(limit: usize, piece: &PlacedPiece) -> bool
    ensures { result ≡ lies_before limit piece.now }
{
    let end = piece.end.place;
    end < limit || (is_whole(piece) && end == limit)
}

/// Whether a text is closed, that is, whether its items stay as they are whatever is appended to it. `items` are those
/// of `text`. Only the last one is examined.
pub fn is_closed(text: &[u8], items: &Items) -> bool
    requires { items.now ≡ pieces_of text.now }
    ensures { result ≡ is_closed text.now }
{
    match items.pieces().last() {
        None => true,
        Some(piece) => lies_before(text.len(), piece),
    }
}
