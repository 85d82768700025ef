//! The mentions of a database.

ghost use Rattle.std.specs.Prelude.{◌≡◌, ◌≤◌, length, IfOk};
ghost use Rattle.std.specs.List.{fold};
ghost use Rattle.bt_mentions.specs.Databases.{part, is_opening, opening_len, head_len, inside_item, with_value, mention_of, with_mention, with_content, with_piece, mentions};

use crate::inside::{Inside, inside_behind};
use crate::mention::{Mention, Role};
use crate::scan::Scan;
use crate::state::State;
use bt_bib::{Content, Piece, PlacedPiece, read_bib};
use bt_text::{Sequence, white_run};
use std::alloc::{AllocError, Global};

/// A part of a text, as far as the text reaches.
pub fn part(text: &[u8], from: usize, to: usize) -> &[u8]
    ensures value { result.now ≡ part from to text.now }
    ensures within { length result.now ≤ length text.now }
{
    let (front, _) = text.split_at(to.min(text.len()));
    let (_, back) = front.split_at(from.min(front.len()));
    back
}

/// Whether a byte opens an item.
pub fn is_opening(byte: u8) -> bool
    ensures { result ≡ is_opening byte }
{
    byte == b'{' || byte == b'('
}

/// How many bytes a text has up to its first brace or parenthesis, and with it; all of them if it has none.
pub fn opening_len(text: &[u8]) -> usize
    ensures value { result ≡ opening_len text.now }
    ensures within { result ≤ length text.now }
{
    let mut count = 0;
    let mut rest = text;
    'bytes: while let [first, others @ ..] = rest {
        if is_opening(*first) {
            return count + 1;
        }
        count += 1;
        rest = others;
    }
    count
}

/// How many bytes of an item precede its key, its macro's name or its value: those up to its opening sign, and the white
/// space after it.
pub fn head_len(item: &[u8]) -> usize
    ensures value { result ≡ head_len item.now }
    ensures within { result ≤ length item.now }
{
    let before = opening_len(item);
    let (_, rest) = item.split_at(before);
    before + white_run(rest)
}

/// Where the first bytes of an item end.
pub fn inside_item(front: &[u8]) -> Inside
    ensures { result ≡ inside_item front.now }
{
    let (_, rest) = front.split_at(opening_len(front));
    inside_behind(rest)
}

/// Adds the mentions from one place of a text up to another. The state at the first one is `begin`.
fn with_value(
    text: &[u8],
    from: usize,
    to: usize,
    begin: Inside,
    found: Sequence<Mention>,
) -> Result<Sequence<Mention>, AllocError>
    ensures { IfOk result (λ all. all ≡ with_value text.now from to begin found) }
{
    let place = from.min(text.len());
    let scan = Scan {
        state: State::Item(begin),
        place,
        current: None,
        found,
    };
    scan.over(part(text, place, to))
}

fn mention_of(text: &[u8], from: usize, name: &[u8], role: Role) -> Mention
    ensures { result ≡ mention_of text.now from name.now role }
{
    let begin = from.min(text.len());
    Mention {
        from: begin,
        to: (begin + name.len()).min(text.len()),
        role,
    }
}

/// Adds the mention of a name, and those after it.
fn with_mention(
    text: &[u8],
    to: usize,
    mention: Mention,
    found: Sequence<Mention>,
) -> Result<Sequence<Mention>, AllocError>
    ensures { IfOk result (λ all. all ≡ with_mention text.now to mention found) }
{
    let mut all = found;
    all.push(mention)?;
    with_value(text, mention.to, to, Inside::Name(9), all)
}

fn with_content(
    text: &[u8],
    from: usize,
    to: usize,
    content: &Content,
    found: Sequence<Mention>,
) -> Result<Sequence<Mention>, AllocError>
    ensures { IfOk result (λ all. all ≡ with_content text.now from to content.now found) }
{
    match content {
        Content::Entry(entry) => match &entry.key {
            Some(key) => {
                let mention = mention_of(text, from, key.as_slice(), Role::Key);
                with_mention(text, to, mention, found)
            }
            None => Ok(found),
        },
        Content::Define(definition) => match &definition.name {
            Some(name) => {
                let mention = mention_of(text, from, name.as_slice(), Role::Definition);
                with_mention(text, to, mention, found)
            }
            None => Ok(found),
        },
        Content::Preamble(_) => with_value(text, from, to, Inside::Value(false), found),
    }
}

/// Adds the mentions of an item.
pub fn with_piece(
    text: &[u8],
    found: Sequence<Mention>,
    piece: &PlacedPiece,
) -> Result<Sequence<Mention>, AllocError>
    ensures { IfOk result (λ all. all ≡ with_piece text.now found piece.now) }
{
    let start = piece.start.place.min(text.len());
    let head = start + head_len(part(text, start, piece.end.place));
    match &*piece.piece {
        Piece::Comment => Ok(found),
        Piece::Item(item) => with_content(text, head, piece.end.place, &item.content, found),
    }
}

fn with_pieces(
    text: &[u8],
    found: Sequence<Mention>,
    pieces: &[PlacedPiece],
) -> Result<Sequence<Mention>, AllocError>
    ensures { IfOk result (λ all. all ≡ fold (with_piece text.now) found pieces.now) }
{
    let mut all = found;
    'pieces: for piece in pieces {
        all = with_piece(text, all, piece)?;
    }
    Ok(all)
}

/// The mentions of a database, in order.
pub fn mentions(alloc: Global, text: &[u8]) -> Result<Sequence<Mention>, AllocError>
    ensures { IfOk result (λ found. found ≡ mentions text.now) }
{
    let items = read_bib(alloc, text)?;
    with_pieces(text, Sequence::new(alloc), items.pieces())
}
