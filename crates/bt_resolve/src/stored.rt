//! Stored entries.

use bt_text::{Bytes, Excerpt, Shared, SparseTexts};

/// Values in the order of the style's fields; none for a missing field.
pub type FieldValues = SparseTexts;

/// An entry as it is stored, before it inherits. The entries of the list share its texts instead of copying them.
#[derive(Drop)]
pub struct Stored {
    /// Its key, as in the database.
    pub key: Shared<Bytes>,
    /// Its type, in lower case.
    pub kind: Shared<Bytes>,
    /// The index of its type among the types that have a function; none if it isn't one of them.
    pub function: Option<usize>,
    /// The key in its field `crossref`.
    pub crossref: Option<Excerpt>,
    /// Its values, in the order of the style's fields, without the value of `crossref`.
    pub values: Shared<FieldValues>,
}
