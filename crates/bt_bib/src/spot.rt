//! A place in a text, with its line.

ghost use Rattle.std.specs.Prelude.{◌≡◌, ◌+◌, ◌<◌, ◌^◌};
ghost use Rattle.bt_bib.specs.Spot.{spot_after_byte};
ghost use Rattle.bt_bib.specs.inner.PlacedPieces.{rebased, FitsSpot};

/// A place in a text: the number of bytes before it, and its line, which is 1 plus the number of line feeds among those
/// bytes. The text's end is a place too.
#[derive(Clone, Copy, Debug, PartialEq, Eq)]
pub struct Spot {
    /// The number of bytes before it.
    pub place: usize,
    /// Its line, from 1.
    pub line: usize,
}

impl Spot {
    /// The first place of a text.
    pub const START: Spot = Spot { place: 0, line: 1 };

    /// Place 0 of line 0: the places and lines of a piece are relative to its `@`.
    pub(crate) const ITEM_START: Spot = Spot { place: 0, line: 0 };

    /// The place after this byte, which must be the one here.
    pub(crate) fn after(self, byte: u8) -> Spot
        requires place { self.place + 1 < 2 ^ 64 }
        requires line { self.line + 1 < 2 ^ 64 }
        ensures { result ≡ spot_after_byte byte self }
    {
        let line = if byte == b'\n' {
            self.line + 1
        } else {
            self.line
        };
        Spot {
            place: self.place + 1,
            line,
        }
    }

    /// The spot that this one becomes when the text from `a` on moves to `b`.
    pub(crate) fn rebased(self, a: Spot, b: Spot) -> Spot
        requires { FitsSpot a b self }
        ensures { result ≡ rebased a b self }
    {
        Spot {
            place: self.place.saturating_sub(a.place) + b.place,
            line: self.line.saturating_sub(a.line) + b.line,
        }
    }
}
