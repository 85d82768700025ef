//! Where a text mentions keys and macros: in the entries, strings, cross-references and values of a database, and in the
//! citations of LaTeX texts and `.aux` files.
//!
//! The reader of databases says what an item has, but not where: it gives places only for the item's beginning and end. So
//! a database is read first, and then each item is scanned for the places of its names. The scan reads each byte once and
//! keeps a state; a mention is a longest run of bytes that belong to a name, by this state.
#![tactic(auto)]

mod citing;
mod databases;
mod inside;
mod key_bytes;
mod keys;
mod layout;
mod linking;
mod mention;
mod scan;
mod state;

pub use citing::is_citing;
pub use databases::{inside_item, is_opening, mentions, part, with_piece};
pub use inside::Inside;
pub use key_bytes::is_key_byte;
pub use keys::entry_keys;
pub use layout::{Gap, gaps};
pub use linking::{Link, LinkKind, links};
pub use mention::{Mention, Role, is_parent};
pub use scan::citations;
