//! The items of a whole database.

ghost use Rattle.std.specs.Prelude.{◌≡◌, [], ◌++◌, ◌∷◌, map, All, IfOk, OnOk, OnErr};
ghost use Rattle.bt_bib.specs.inner.PlacedPieces.{rebased_piece, FitsPiece};

use crate::placed_pieces::PlacedPiece;
use crate::spot::Spot;
use bt_text::Sequence;
use std::alloc::{AllocError, AllocFailed, Global};
use std::marker::Model;

/// The items and comment words of a database, in the order of its text. Each is stored relative to its own `@`, beside
/// its place in the text, so an edit before it changes only that place. Contracts see the list of the pieces with their
/// places in the text.
#[derive(Debug, Drop)]
pub struct Items {
    pieces: Sequence<PlacedPiece>,
}

impl Model for Items {
    ghost use Rattle.std.specs.Prelude.{List};
    ghost use Rattle.bt_bib.specs.declared.placed_pieces.PlacedPiece.{PlacedPiece};

    ghost Value = { List PlacedPiece };

    ghost view = { λ items. items.pieces };
}

impl Items {
    /// No items. Allocates nothing.
    pub(crate) fn new(alloc: Global) -> Self
        ensures { result ≡ [] }
    {
        Items {
            pieces: Sequence::new(alloc),
        }
    }

    /// The items and comment words, in the order of the text.
    pub fn pieces(&self) -> &[PlacedPiece]
        ensures { result.now ≡ self.now }
    {
        self.pieces.as_slice()
    }

    /// Appends a piece. If memory runs out, the items are unchanged.
    pub(crate) fn push(&mut self, piece: PlacedPiece) -> Result<(), AllocFailed<PlacedPiece>>
        ensures ok { OnOk result (self.new ≡ self.old ++ piece ∷ []) }
        ensures err { OnErr result (self.new ≡ self.old) }
    {
        self.pieces.push(piece)
    }

    /// These items, followed by `others`, which are shared and take their places after the text from `a` on has moved
    /// to `b`.
    pub(crate) fn with_rebased(
        self,
        others: &[PlacedPiece],
        a: Spot,
        b: Spot,
    ) -> Result<Items, AllocError>
        requires { All (FitsPiece a b) others.now }
        ensures { IfOk result (λ all. all ≡ self ++ map (rebased_piece a b) others.now) }
    {
        let mut items = self;
        'pieces: for piece in others {
            items.push(piece.rebased(a, b)?)?;
        }
        Ok(items)
    }
}
