//! What a style sees of the databases.

use bt_log::Message;
use bt_text::{Bytes, Sequence, Shared, SparseTexts};

/// An entry of the list. Its texts and values are shared, not copied.
#[derive(Drop)]
pub struct Entry {
    /// Its key, spelled as it is cited, or as in the database if it isn't cited.
    pub key: Shared<Bytes>,
    /// Its type, in lower case.
    pub kind: Shared<Bytes>,
    /// The index of its type among the types that have a function; none if it isn't one of them.
    pub function: Option<usize>,
    /// Its values, in the order of the style's fields; none for a missing field.
    pub fields: Shared<SparseTexts>,
}

/// The list of entries, the preamble, and every message, in the order of the log.
#[derive(Drop)]
pub struct Resolved {
    /// The entries, in the order of the list.
    pub entries: Sequence<Entry>,
    /// The values of all preambles, joined.
    pub preamble: Shared<Bytes>,
    /// The messages.
    pub messages: Sequence<Message>,
}
