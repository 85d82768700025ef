//! Re-reading after a splice, up to a boundary that the old text has too.
//!
//! After the splice both texts have the same bytes. So once the cursor reaches a place there that is a boundary of
//! both, everything after it reads the same, and the old pieces can be reused. Without a fault, that place is mostly
//! the end of the first item after the splice. An unclosed brace can carry the cursor to the text's end.

ghost use Rattle.std.specs.Prelude.{◌≡◌, ◌+◌, ◌-◌, ◌<◌, ◌^◌, ◌++◌, [], None, length, IfOk};
ghost use Rattle.bt_bib.specs.Spot.{here};
ghost use Rattle.bt_bib.specs.inner.Spot.{IsAhead, IsIn};
ghost use Rattle.bt_bib.specs.inner.Cases.{pieces_from};
ghost use Rattle.bt_bib.specs.Boundaries.{last_end};
ghost use Rattle.bt_bib.specs.inner.Boundaries.{InOrder};
ghost use Rattle.bt_bib.specs.Splice.{is_common};
ghost use Rattle.bt_bib.specs.inner.CommonBoundary.{until, IsJoint};

use crate::boundaries::{count_below, last_boundary};
use crate::items::Items;
use crate::placed_pieces::PlacedPiece;
use crate::reader::Reader;
use crate::splice::Splice;
use crate::spot::Spot;
use std::alloc::AllocError;

/// How many pieces of the old text end at or before this place of the new one; none if it isn't a boundary of both.
fn joint(old: &[PlacedPiece], splice: Splice, place: usize) -> Option<usize>
    requires order { InOrder old.now }
    requires first { splice.begin + splice.inserted < 2 ^ 64 }
    requires back { place - (splice.begin + splice.inserted) + splice.end + 1 < 2 ^ 64 }
    ensures { IsJoint old.now splice.begin splice.end splice.inserted place result }
{
    let first = splice.begin + splice.inserted;
    if place < first {
        return None;
    }
    let back = place - first + splice.end;
    let count = count_below(old, back + 1);
    if last_boundary(old, count).place == back {
        Some(count)
    } else {
        None
    }
}

impl Reader<'_> {
    /// Reads on from a place, appending to `items`, up to a boundary of both texts or to the text's end.
    pub fn reread(
        &self,
        items: Items,
        from: Spot,
        old: &[PlacedPiece],
        splice: Splice,
    ) -> Result<(Items, Spot, Option<usize>), AllocError>
        requires at { IsIn self.now.text.now from }
        requires order { InOrder old.now }
        requires first { splice.begin + splice.inserted < 2 ^ 64 }
        requires back { length self.now.text.now - (splice.begin + splice.inserted) + splice.end + 1 < 2 ^ 64 }
        ensures pieces { IfOk result (λ r. r.0
            ≡ items ++ until (is_common old.now splice.begin splice.end splice.inserted) from
            (pieces_from (here self.now.text.now from))) }
        ensures ends { IfOk result (λ r. r.1
            ≡ last_end from (until (is_common old.now splice.begin splice.end splice.inserted) from
            (pieces_from (here self.now.text.now from)))) }
        ensures joint { IfOk result (λ r. IsJoint old.now splice.begin splice.end splice.inserted r.1.place r.2) }
        ensures last { IfOk result (λ r. r.2 ≡ None → pieces_from (here self.now.text.now r.1) ≡ []) }
        ensures inside { IfOk result (λ r. IsAhead self.now.text.now from r.1) }
    {
        let mut items = items;
        let mut at = from;
        'again: loop {
            if let Some(count) = joint(old, splice, at.place) {
                return Ok((items, at, Some(count)));
            }
            let (next, end) = self.next_piece(at)?;
            match next {
                None => return Ok((items, at, None)),
                Some(piece) => items.push(piece)?,
            }
            at = end;
        }
    }
}
