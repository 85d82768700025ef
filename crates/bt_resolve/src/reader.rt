//! The reader of an item of a database.

use crate::asked::Asked;
use crate::known_entry::KnownEntry;
use crate::place::Origin;
use bt_bib::{Item, Spot};
use std::alloc::Global;

/// What the reader of an item needs.
#[derive(Clone, Copy, Drop)]
pub struct Reader<'a, 'k> {
    pub alloc: Global,
    /// What it is looked up in.
    pub asked: &'a Asked<'a>,
    pub item: &'a Item,
    pub origin: Origin,
    /// The item's end, where its fault is.
    pub end: Spot,
    /// What an earlier resolution knows of it.
    pub known: Option<KnownEntry<'k>>,
}
