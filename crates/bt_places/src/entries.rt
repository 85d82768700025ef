//! The entry of a database in which a place lies.

ghost use Rattle.std.specs.Prelude.{◌≡◌, option_map, IfOk};
ghost use Rattle.bt_bib.specs.BibText.{pieces_of};
ghost use Rattle.bt_places.specs.Entries.{key_of, kind_of, first_text, field_in, fields_of, field_of, name_of, symbol_kind, item_around, key_in, has_extension, is_database, is_style, is_tex};

use bt_bib::{Content, Field, Part, Piece, PlacedPiece, read_bib};
use bt_text::{Bytes, eq_ignore_ascii_case};
use std::alloc::{AllocError, Global};

/// The key of an entry; empty for anything else.
pub fn key_of(piece: &PlacedPiece) -> &[u8]
    ensures { result.now ≡ key_of piece.now.piece }
{
    match &*piece.piece {
        Piece::Comment => &[],
        Piece::Item(item) => match &item.content {
            Content::Entry(entry) => match &entry.key {
                Some(key) => key.as_slice(),
                None => &[],
            },
            Content::Define(_) | Content::Preamble(_) => &[],
        },
    }
}

/// The type of an entry; empty for anything else.
pub fn kind_of(piece: &PlacedPiece) -> &[u8]
    ensures { result.now ≡ kind_of piece.now.piece }
{
    match &*piece.piece {
        Piece::Comment => &[],
        Piece::Item(item) => match &item.content {
            Content::Entry(entry) => match &entry.kind {
                Some(kind) => kind.as_slice(),
                None => &[],
            },
            Content::Define(_) | Content::Preamble(_) => &[],
        },
    }
}

fn first_text(value: &[Part]) -> &[u8]
    ensures { result.now ≡ first_text value.now }
{
    match value {
        [Part::Text(text), ..] => text.as_slice(),
        [Part::Macro(name, _), ..] => name.as_slice(),
        [] => &[],
    }
}

/// The first part of the value of the first field with a name.
fn field_in<'a>(fields: &'a [Field], name: &[u8]) -> &'a [u8]
    ensures { result.now ≡ field_in name.now fields.now }
{
    'fields: for field in fields {
        if eq_ignore_ascii_case(field.name.as_slice(), name) {
            return first_text(field.value.as_slice());
        }
    }
    &[]
}

/// The fields of an entry; none of anything else.
pub fn fields_of(piece: &PlacedPiece) -> &[Field]
    ensures { result.now ≡ fields_of piece.now.piece }
{
    match &*piece.piece {
        Piece::Comment => &[],
        Piece::Item(item) => match &item.content {
            Content::Entry(entry) => entry.fields.as_slice(),
            Content::Define(_) | Content::Preamble(_) => &[],
        },
    }
}

/// What an entry has in a field: the first text or macro's name of its value; empty for anything else.
pub fn field_of<'a>(piece: &'a PlacedPiece, name: &[u8]) -> &'a [u8]
    ensures { result.now ≡ field_of name.now piece.now.piece }
{
    field_in(fields_of(piece), name)
}

/// What an outline calls an item: its key, its macro's name, or `@preamble`; empty for a comment word, or if the name is
/// missing.
pub fn name_of(piece: &PlacedPiece) -> &[u8]
    ensures { result.now ≡ name_of piece.now.piece }
{
    match &*piece.piece {
        Piece::Comment => &[],
        Piece::Item(item) => match &item.content {
            Content::Entry(entry) => match &entry.key {
                Some(key) => key.as_slice(),
                None => &[],
            },
            Content::Define(definition) => match &definition.name {
                Some(name) => name.as_slice(),
                None => &[],
            },
            Content::Preamble(_) => b"@preamble",
        },
    }
}

/// The protocol's number for an item: 20 for a key, 14 for a constant, 15 for a string.
pub fn symbol_kind(piece: &PlacedPiece) -> u8
    ensures { result ≡ symbol_kind piece.now.piece }
{
    match &*piece.piece {
        Piece::Comment => 20,
        Piece::Item(item) => match &item.content {
            Content::Entry(_) => 20,
            Content::Define(_) => 14,
            Content::Preamble(_) => 15,
        },
    }
}

/// The first piece around a place.
pub fn item_around(pieces: &[PlacedPiece], place: usize) -> Option<&PlacedPiece>
    ensures { option_map (λ p. p.now) result ≡ item_around place pieces.now }
{
    'pieces: for piece in pieces {
        if piece.start.place <= place && place <= piece.end.place {
            return Some(piece);
        }
    }
    None
}

fn key_in(pieces: &[PlacedPiece], place: usize) -> &[u8]
    ensures { result.now ≡ key_in place pieces.now }
{
    match item_around(pieces, place) {
        Some(piece) => key_of(piece),
        None => &[],
    }
}

/// The key of the entry in which a place of a database lies; empty if it lies in none.
pub fn key_around(alloc: Global, text: &[u8], place: usize) -> Result<Bytes, AllocError>
    ensures { IfOk result (λ key. key ≡ key_in place (pieces_of text.now)) }
{
    let items = read_bib(alloc, text)?;
    Bytes::copied(alloc, key_in(items.pieces(), place))
}

/// Whether a name ends with an extension of four bytes.
pub fn has_extension(name: &[u8], extension: &[u8]) -> bool
    ensures { result ≡ has_extension extension.now name.now }
{
    name.len() >= 4 && name.split_at(name.len() - 4).1 == extension
}

/// Whether a file is a database, by its name.
pub fn is_database(name: &[u8]) -> bool
    ensures { result ≡ is_database name.now }
{
    has_extension(name, b".bib")
}

/// Whether a file is a style, by its name.
pub fn is_style(name: &[u8]) -> bool
    ensures { result ≡ is_style name.now }
{
    has_extension(name, b".bst")
}

/// Whether a file is a text of LaTeX, by its name.
pub fn is_tex(name: &[u8]) -> bool
    ensures { result ≡ is_tex name.now }
{
    has_extension(name, b".tex")
}
