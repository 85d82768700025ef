//! The pieces of a database one by one, for a caller that keeps none of them.

ghost use Rattle.std.specs.Prelude.{◌≡◌, IfOk};

use crate::placed_pieces::PlacedPiece;
use crate::reader::{Reader, common_names};
use crate::spot::Spot;
use bt_text::{Bytes, Shared};
use std::alloc::{AllocError, Global};
use std::marker::Model;

/// A cursor over the pieces of a text. Contracts see the pieces that are left.
#[derive(Drop)]
pub struct PieceCursor<'a> {
    alloc: Global,
    text: &'a Shared<Bytes>,
    /// Names that are shared instead of copied each time they occur.
    known: Vec<Shared<Bytes>>,
    /// Where the next piece is looked for.
    at: Spot,
}

impl<'a> Model for PieceCursor<'a> {
    ghost use Rattle.std.specs.Prelude.{List};
    ghost use Rattle.bt_bib.specs.declared.placed_pieces.PlacedPiece.{PlacedPiece};
    ghost use Rattle.bt_bib.specs.Spot.{here};
    ghost use Rattle.bt_bib.specs.inner.Spot.{IsIn};
    ghost use Rattle.bt_bib.specs.inner.Cases.{pieces_from};

    ghost Value = { List PlacedPiece };

    ghost view = { λ cursor. pieces_from (here cursor.text.now cursor.at) };

    ghost invariant = { λ cursor. IsIn cursor.text.now cursor.at };
}

impl<'a> PieceCursor<'a> {
    ghost use Rattle.bt_bib.specs.BibText.{pieces_of};
    ghost use Rattle.bt_bib.specs.PieceCursor.{IsNext};

    /// A cursor before the first piece of a text. Field values are excerpts of that text. The only error is out of memory.
    #[tactic(auto, unfolding(crate::specs::BibText::pieces_of))]
    pub fn of(alloc: Global, text: &'a Shared<Bytes>) -> Result<Self, AllocError>
        ensures { IfOk result (λ cursor. cursor ≡ pieces_of text.now) }
    {
        let known = common_names(alloc)?;
        Ok(PieceCursor {
            alloc,
            text,
            known,
            at: Spot::START,
        })
    }

    /// The next piece, or none after the last one. The one error is out of memory.
    pub fn next(&mut self) -> Result<Option<PlacedPiece>, AllocError>
        ensures { IfOk result (λ piece. IsNext piece self.old self.new) }
    {
        let reader = Reader {
            alloc: self.alloc,
            text: self.text.as_slice(),
            keeps: false,
            source: self.text,
            offset: 0,
            known: &self.known,
        };
        let (piece, end) = reader.next_piece(self.at)?;
        self.at = end;
        Ok(piece)
    }
}
