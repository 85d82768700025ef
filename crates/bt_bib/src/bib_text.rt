//! Reads whole databases.
//!
//! Each piece is read as if its `@` were at place 0 of line 0, and stored beside its real place. So the pieces after an
//! edit need only new places: they are neither re-read nor copied (`splice.rt`).

ghost use Rattle.std.specs.Prelude.{◌≡◌, drop, IfOk};
ghost use Rattle.bt_bib.specs.Spot.{here};
ghost use Rattle.bt_bib.specs.inner.Spot.{IsAhead, IsIn};
ghost use Rattle.bt_bib.specs.inner.Stop.{Makes};
ghost use Rattle.bt_bib.specs.Scan.{after_run};
ghost use Rattle.bt_bib.specs.Pieces.{next_piece, piece, placed};
ghost use Rattle.bt_bib.specs.BibText.{pieces_of};
ghost use Rattle.bt_bib.specs.inner.Cases.{pieces_from, is_text};

use crate::items::Items;
use crate::placed_pieces::PlacedPiece;
use crate::reader::{Reader, common_names};
use crate::spot::Spot;
use bt_text::{Bytes, Shared};
use memchr::memchr;
use std::alloc::{AllocError, Global};

impl Reader<'_> {
    /// The next `@`, or the text's end.
    fn seek(&self, from: Spot) -> Spot
        requires { IsIn self.now.text.now from }
        ensures value { here self.now.text.now result ≡ after_run is_text (here self.now.text.now from) }
        ensures inside { IsAhead self.now.text.now from result }
    {
        let rest = &self.text[from.place..];
        let count = memchr(b'@', rest).unwrap_or(rest.len());
        self.ahead(from, count)
    }

    /// The piece that begins with the `@` at `start`, stored relative to that `@`, and the place after the piece.
    pub fn placed_piece(&self, start: Spot) -> Result<(PlacedPiece, Spot), AllocError>
        requires { IsIn self.now.text.now start }
        ensures { Makes self.now.text.now start result (placed start (piece (drop start.place self.now.text.now))) }
    {
        let (source, offset) = self.item_source(start.place)?;
        let own = Reader {
            alloc: self.alloc,
            text: &self.text[start.place..],
            keeps: self.keeps,
            source: &source,
            offset,
            known: self.known,
        };
        let (piece, reached) = own.piece()?;
        let end = Spot {
            place: reached.place + start.place,
            line: reached.line + start.line,
        };
        let piece = Shared::new(self.alloc, piece)?;
        Ok((PlacedPiece { start, end, piece }, end))
    }

    /// The next piece and the place after it, or none and the text's end.
    #[tactic(auto, unfolding(crate::specs::Pieces::next_piece))]
    pub fn next_piece(&self, from: Spot) -> Result<(Option<PlacedPiece>, Spot), AllocError>
        requires { IsIn self.now.text.now from }
        ensures { Makes self.now.text.now from result (next_piece (here self.now.text.now from)) }
    {
        let at = self.seek(from);
        let Some(_) = self.peek(at) else {
            return Ok((None, at));
        };
        let (piece, end) = self.placed_piece(at)?;
        Ok((Some(piece), end))
    }

    fn pieces_from(&self, from: Spot) -> Result<Items, AllocError>
        requires { IsIn self.now.text.now from }
        ensures { IfOk result (λ items. items ≡ pieces_from (here self.now.text.now from)) }
    {
        let mut items = Items::new(self.alloc);
        let mut at = from;
        'pieces: loop {
            let (next, end) = self.next_piece(at)?;
            match next {
                None => return Ok(items),
                Some(piece) => items.push(piece)?,
            }
            at = end;
        }
    }
}

/// The items of a database, in the order of its text. Any bytes are a database: where no rule applies, the item ends
/// with a fault, and reading resumes at the next `@` at or after the fault's place. The only error is out of memory.
#[tactic(auto, unfolding(crate::specs::BibText::pieces_of))]
pub fn read_bib(alloc: Global, text: &[u8]) -> Result<Items, AllocError>
    ensures { IfOk result (λ items. items ≡ pieces_of text.now) }
{
    let known = common_names(alloc)?;
    let none = Shared::<Bytes>::copied(alloc, b"")?;
    let reader = Reader {
        alloc,
        text,
        keeps: true,
        source: &none,
        offset: 0,
        known: &known,
    };
    reader.pieces_from(Spot::START)
}
