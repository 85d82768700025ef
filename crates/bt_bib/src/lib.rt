//! Reads `.aux` texts and databases, and re-reads the changed part of a database after an edit.
#![tactic(auto)]

mod aux_argument;
mod aux_line;
mod bib_text;
mod boundaries;
mod common_boundary;
mod enclosure;
mod fault;
mod fields;
mod item;
mod items;
mod keywords;
mod names;
mod piece_cursor;
mod pieces;
mod placed_pieces;
mod reader;
mod scan;
mod splice;
mod split;
mod spot;
mod stop;
mod value_parts;
mod values;

pub use aux_argument::AuxFault;
pub use aux_line::{AuxItem, Command, read_aux};
pub use bib_text::read_bib;
pub use fault::{ItemFault, NameRole};
pub use item::{Closing, Content, Definition, Entry, Field, Item, Part, Piece};
pub use items::Items;
pub use piece_cursor::PieceCursor;
pub use placed_pieces::PlacedPiece;
pub use splice::{ItemsEdit, Splice};
pub use split::{is_closed, split_places};
pub use spot::Spot;
pub use value_parts::ValueParts;
