//! The white space between the parts of an entry: after each comma outside of braces and quotes, and before the closing sign.
//! It can change without changing what is read.

ghost use Rattle.std.specs.Prelude.{◌≡◌, ◌<◌, ◌≤◌, ◌+◌, ◌^◌, ◌++◌, ◌∷◌, [], length, IfOk, OnOk};
ghost use Rattle.std.specs.List.{fold};
ghost use Rattle.bt_mentions.specs.Gaps.{is_separator, gap_before, begun_after, solid_after, gaps_after, all_gaps, gaps_between, place_after_key, content_gaps, item_gaps, gaps};

use crate::databases::{head_len, opening_len, part};
use crate::inside::{Inside, inside_after};
use bt_bib::{Content, Item, Piece, PlacedPiece};
use bt_text::{Sequence, is_white};
use std::alloc::{AllocError, Global};

/// White space between the parts of an entry, or the place where there could be some.
#[derive(Clone, Copy)]
pub struct Gap {
    pub from: usize,
    pub to: usize,
    /// Whether the closing sign follows.
    pub is_last: bool,
}

/// A search for gaps that has come to a place.
#[derive(Drop)]
pub struct Search {
    pub state: Inside,
    pub place: usize,
    /// Where the gap before the place begins, if there is one.
    pub begun: Option<usize>,
    /// The place after the last byte that isn't white space.
    pub solid_end: usize,
    pub found: Sequence<Gap>,
}

fn is_separator(state: Inside, byte: u8) -> bool
    ensures { result ≡ is_separator state byte }
{
    match state {
        Inside::Name(_) | Inside::Value(_) => byte == b',',
        Inside::Braced(_, _) | Inside::Quoted(_, _) => false,
    }
}

fn gap_before(begun: Option<usize>, place: usize, byte: u8) -> Option<Gap>
    ensures { result ≡ gap_before begun place byte }
{
    match begun {
        Some(from) => if is_white(byte) {
            None
        } else {
            Some(Gap {
                from,
                to: place,
                is_last: false,
            })
        },
        None => None,
    }
}

fn begun_after(begun: Option<usize>, state: Inside, place: usize, byte: u8) -> Option<usize>
    requires { place + 1 < 2 ^ 64 }
    ensures { result ≡ begun_after begun state place byte }
{
    if is_separator(state, byte) {
        Some(place + 1)
    } else if is_white(byte) {
        begun
    } else {
        None
    }
}

fn solid_after(solid_end: usize, place: usize, byte: u8) -> usize
    requires { place + 1 < 2 ^ 64 }
    ensures { result ≡ solid_after solid_end place byte }
{
    if is_white(byte) { solid_end } else { place + 1 }
}

impl Search {
    fn take(&mut self, byte: u8) -> Result<(), AllocError>
        requires { self.old.place + 1 < 2 ^ 64 }
        ensures { OnOk result (self.new ≡ gaps_after self.old byte) }
    {
        self.found
            .push_if_any(gap_before(self.begun, self.place, byte))?;
        self.begun = begun_after(self.begun, self.state, self.place, byte);
        self.solid_end = solid_after(self.solid_end, self.place, byte);
        self.state = inside_after(self.state, byte);
        self.place += 1;
        Ok(())
    }

    /// The gaps, and the last one, up to the place.
    fn into_found(self) -> Result<Sequence<Gap>, AllocError>
        ensures { IfOk result (λ found. found ≡ all_gaps self) }
    {
        let Search {
            place,
            solid_end,
            found,
            ..
        } = self;
        let mut all = found;
        all.push(Gap {
            from: solid_end,
            to: place,
            is_last: true,
        })?;
        Ok(all)
    }

    fn over(self, text: &[u8]) -> Result<Sequence<Gap>, AllocError>
        requires { self.place + length text.now < 2 ^ 64 }
        ensures { IfOk result (λ found. found ≡ all_gaps (fold gaps_after self text.now)) }
    {
        let mut search = self;
        'bytes: for byte in text {
            search.take(*byte)?;
        }
        search.into_found()
    }
}

fn gaps_between(
    alloc: Global,
    text: &[u8],
    from: usize,
    to: usize,
) -> Result<Sequence<Gap>, AllocError>
    ensures { IfOk result (λ found. found ≡ gaps_between text.now from to) }
{
    let place = from.min(text.len());
    let search = Search {
        state: Inside::Name(9),
        place,
        begun: None,
        solid_end: place,
        found: Sequence::new(alloc),
    };
    search.over(part(text, place, to))
}

/// The place after the key of an entry. After an empty key it is the place after the opening sign.
fn place_after_key(text: &[u8], start: usize, to: usize, key: &[u8]) -> usize
    requires { start ≤ length text.now }
    ensures { result ≡ place_after_key text.now start to key.now }
{
    let item = part(text, start, to);
    match key {
        [] => start + opening_len(item),
        [_, ..] => (start + head_len(item)).min(text.len()) + key.len(),
    }
}

fn content_gaps(
    alloc: Global,
    text: &[u8],
    start: usize,
    to: usize,
    content: &Content,
) -> Result<Sequence<Gap>, AllocError>
    requires { start ≤ length text.now }
    ensures { IfOk result (λ found. found ≡ content_gaps text.now start to content.now) }
{
    match content {
        Content::Entry(entry) => match &entry.key {
            Some(key) => {
                let place = place_after_key(text, start, to, key.as_slice());
                gaps_between(alloc, text, place, to)
            }
            None => Ok(Sequence::new(alloc)),
        },
        Content::Define(_) | Content::Preamble(_) => Ok(Sequence::new(alloc)),
    }
}

fn item_gaps(
    alloc: Global,
    text: &[u8],
    start: usize,
    to: usize,
    item: &Item,
) -> Result<Sequence<Gap>, AllocError>
    requires { start ≤ length text.now }
    ensures { IfOk result (λ found. found ≡ item_gaps text.now start to item.now) }
{
    match &item.fault {
        Some(_) => Ok(Sequence::new(alloc)),
        None => content_gaps(alloc, text, start, to, &item.content),
    }
}

/// The gaps of an entry without a fault; none of anything else.
pub fn gaps(alloc: Global, text: &[u8], piece: &PlacedPiece) -> Result<Sequence<Gap>, AllocError>
    ensures { IfOk result (λ found. found ≡ gaps text.now piece.now) }
{
    let start = piece.start.place.min(text.len());
    let to = piece.end.place.saturating_sub(1);
    match &*piece.piece {
        Piece::Comment => Ok(Sequence::new(alloc)),
        Piece::Item(item) => item_gaps(alloc, text, start, to, item),
    }
}
