//! What the .aux files of a session ask for.

use bt_log::Message;
use bt_text::{Bytes, NameList, Sequence, Shared};

/// What the .aux files ask for.
#[derive(Drop)]
pub struct Citations {
    /// The cited keys, in their first spelling. A run shares them with what it keeps.
    pub keys: Shared<NameList>,
    /// How many keys were cited before the `*`, if it was cited.
    pub star: Option<usize>,
    /// The names of the databases, in order.
    pub databases: Sequence<Bytes>,
    /// The name of the style.
    pub style: Option<Bytes>,
    /// The messages.
    pub log: Sequence<Message>,
    /// The names that were looked up and not found, each once.
    pub wanted: Sequence<Bytes>,
}
