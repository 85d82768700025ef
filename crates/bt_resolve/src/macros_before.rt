//! What macros stand for before an item.
//!
//! An edit re-reads one item, anywhere in the databases. What macros stand for there depends only on the strings before
//! the item. Most databases begin with their strings. So if no string follows the item, the macros are those after all
//! items, which a resolution keeps. Otherwise the strings before the item are defined again, which costs a look-up and a
//! joined text for each.

ghost use Rattle.std.specs.Prelude.{◌≡◌, ◌≤◌, ◌++◌, ◌∷◌, [], ℕ, drop, false, map, reverse, IfOk, OnOk};
ghost use Rattle.bt_bib.specs.Items.{items_of};
ghost use Rattle.bt_text.specs.ByName.{known};
ghost use Rattle.bt_resolve.specs.Macros.{macro_before};
ghost use Rattle.bt_resolve.specs.Resolved.{all_items};
ghost use Rattle.bt_resolve.specs.inner.Cases.{with_content};
ghost use Rattle.bt_resolve.specs.inner.Databases.{DefineNothing, macros_after};

use crate::asked::Asked;
use crate::declared::Macro;
use crate::macro_text::MacroText;
use crate::macros::style_macros;
use crate::place::Origin;
use crate::reader::Reader;
use bt_bib::{Content, Items, Piece, PlacedPiece};
use bt_text::{ByName, Sequence, Shared};
use std::alloc::{AllocError, Global};

impl Reader<'_, '_> {
    /// Defines the macro of the item, if it is a string. Its messages aren't kept.
    fn define(&self, macros: &mut ByName<MacroText>) -> Result<(), AllocError>
        ensures { OnOk result (known macros.new
            ≡ with_content self.now.item.now.fault self.now.item.now.content (known macros.old)) }
    {
        match &self.item.content {
            Content::Entry(_) => Ok(()),
            Content::Define(string) => {
                let mut messages = Sequence::new(self.alloc);
                self.string(string, macros, &mut messages)
            }
            Content::Preamble(_) => Ok(()),
        }
    }
}

fn define_piece(
    alloc: Global,
    asked: &Asked<'_>,
    piece: &PlacedPiece,
    macros: &mut ByName<MacroText>,
) -> Result<(), AllocError>
    ensures { OnOk result (known macros.new ≡ macros_after (known macros.old) (items_of (piece.now ∷ []))) }
{
    match &*piece.piece {
        Piece::Comment => Ok(()),
        Piece::Item(item) => {
            let reader = Reader {
                alloc,
                asked: &*asked,
                item,
                origin: Origin {
                    database: 0,
                    line: piece.start.line,
                },
                end: piece.end,
                known: None,
            };
            reader.define(macros)
        }
    }
}

fn define_pieces(
    alloc: Global,
    asked: &Asked<'_>,
    pieces: &[PlacedPiece],
    macros: &mut ByName<MacroText>,
) -> Result<(), AllocError>
    ensures { OnOk result (known macros.new ≡ macros_after (known macros.old) (items_of pieces.now)) }
{
    'pieces: for piece in pieces {
        define_piece(alloc, asked, piece, macros)?;
    }
    Ok(())
}

fn define_databases(
    alloc: Global,
    asked: &Asked<'_>,
    databases: &[Shared<Items>],
    macros: &mut ByName<MacroText>,
) -> Result<(), AllocError>
    ensures { OnOk result (known macros.new
        ≡ macros_after (known macros.old) (all_items (map items_of databases.now))) }
{
    'databases: for k in 0..databases.len() {
        let items = &databases[k];
        define_pieces(alloc, asked, items.pieces(), macros)?;
    }
    Ok(())
}

fn is_string(placed: &PlacedPiece) -> bool
    ensures { result ≡ false → DefineNothing (items_of (placed.now ∷ [])) }
{
    match &*placed.piece {
        Piece::Comment => false,
        Piece::Item(item) => match &item.content {
            Content::Entry(_) => false,
            Content::Define(_) => true,
            Content::Preamble(_) => false,
        },
    }
}

/// The index behind the last string.
pub fn strings_end(pieces: &[PlacedPiece]) -> usize
    ensures { (k : ℕ) → result ≤ k → DefineNothing (items_of (drop k pieces.now)) }
{
    'pieces: for k in 0..pieces.len() {
        let place = pieces.len() - 1 - k;
        if is_string(&pieces[place]) {
            return place + 1;
        }
    }
    0
}

/// How many databases there are up to the last one that has a string.
pub fn string_databases(databases: &[Shared<Items>]) -> usize
    ensures { (k : ℕ) → result ≤ k → DefineNothing (all_items (map items_of (drop k databases.now))) }
{
    'databases: for k in 0..databases.len() {
        let number = databases.len() - 1 - k;
        let items = &databases[number];
        if strings_end(items.pieces()) > 0 {
            return number + 1;
        }
    }
    0
}

/// The macros after some databases and the first pieces of the next one.
pub fn macros_before(
    alloc: Global,
    asked: &Asked<'_>,
    style: &[Macro],
    databases: &[Shared<Items>],
    pieces: &[PlacedPiece],
) -> Result<ByName<MacroText>, AllocError>
    ensures { IfOk result (λ macros. known macros ≡ macro_before style.now
        (reverse (items_of pieces.now) ++ reverse (all_items (map items_of databases.now)))) }
{
    let mut macros = style_macros(alloc, style)?;
    define_databases(alloc, asked, databases, &mut macros)?;
    define_pieces(alloc, asked, pieces, &mut macros)?;
    Ok(macros)
}
