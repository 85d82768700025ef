//! Pieces stored apart from their places, so that texts, and versions of one text, can share them.

ghost use Rattle.std.specs.Prelude.{◌≡◌, IfOk};
ghost use Rattle.bt_bib.specs.inner.PlacedPieces.{rebased_piece, FitsPiece};

use crate::item::Piece;
use crate::spot::Spot;
use bt_text::Shared;
use std::alloc::AllocError;

/// A piece of a database, with its place. All line numbers in the piece are relative to its `@`, so one piece can be
/// shared by several places of several texts.
#[derive(Debug, Drop)]
pub struct PlacedPiece {
    /// The place of its `@`.
    pub start: Spot,
    /// The place after it; for a faulty item, the place of the fault.
    pub end: Spot,
    pub piece: Shared<Piece>,
}

impl PlacedPiece {
    /// The same piece, shared, at its place after the text from `a` on has moved to `b`. The only error is out of
    /// memory.
    pub(crate) fn rebased(&self, a: Spot, b: Spot) -> Result<Self, AllocError>
        requires { FitsPiece a b self.now }
        ensures { IfOk result (λ moved. moved ≡ rebased_piece a b self.now) }
    {
        Ok(PlacedPiece {
            start: self.start.rebased(a, b),
            end: self.end.rebased(a, b),
            piece: self.piece.share()?,
        })
    }
}
