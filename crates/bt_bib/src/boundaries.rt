//! Boundaries: the start of a text and the ends of its pieces.
//!
//! What is read from a boundary on depends only on the bytes from there on, so reading can restart there. The ends of
//! pieces rise, so the first function below is a binary search, and the second is a look at one piece.

ghost use Rattle.std.specs.Prelude.{◌≡◌, ◌≤◌, length, take};
ghost use Rattle.bt_bib.specs.Spot.{start};
ghost use Rattle.bt_bib.specs.Boundaries.{last_end};
ghost use Rattle.bt_bib.specs.inner.Boundaries.{below, InOrder};

use crate::placed_pieces::PlacedPiece;
use crate::spot::Spot;

/// How many pieces end below a place. Their ends rise, so these are the first pieces.
pub fn count_below(pieces: &[PlacedPiece], limit: usize) -> usize
    requires { InOrder pieces.now }
    ensures within { result ≤ length pieces.now }
    ensures value { below limit pieces.now ≡ take result pieces.now }
{
    pieces.partition_point(|piece| piece.end.place < limit)
}

/// The last boundary among the first `count` pieces of a text.
pub fn last_boundary(pieces: &[PlacedPiece], count: usize) -> Spot
    requires { count ≤ length pieces.now }
    ensures { result ≡ last_end start (take count pieces.now) }
{
    if count == 0 {
        Spot::START
    } else {
        pieces[count - 1].end
    }
}
