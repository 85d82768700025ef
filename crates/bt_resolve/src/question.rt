//! What is resolved.

use crate::declared::{Cites, Declared};
use bt_bib::Items;
use bt_text::{Sequence, Shared};

/// What is resolved: the items of some databases, for a style and its citations.
#[derive(Drop)]
pub struct Question {
    pub declared: Declared,
    pub cites: Cites,
    /// The databases, in their order.
    pub databases: Sequence<Shared<Items>>,
    /// An uncited entry of the list needs this many references.
    pub min: u32,
}
