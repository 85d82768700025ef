//! What was read from the databases so far.

ghost use Rattle.std.specs.Prelude.{◌≡◌};
ghost use Rattle.bt_resolve.specs.inner.Databases.{state_of};
ghost use Rattle.bt_resolve.specs.inner.Reaches.{reach};

use crate::macro_text::MacroText;
use crate::store::Store;
use bt_log::Message;
use bt_text::{ByName, Bytes, Sequence};

/// How far a reading is: how many entries it has stored, and how many messages it has given.
#[derive(Clone, Copy)]
pub struct Reach {
    pub stored: usize,
    pub told: usize,
}

#[derive(Drop)]
pub struct Reading {
    /// What macros stand for.
    pub macros: ByName<MacroText>,
    pub store: Store,
    /// The values of the preambles, joined.
    pub preamble: Bytes,
    pub messages: Sequence<Message>,
}

impl Reading {
    /// How far it is.
    pub fn so_far(&self) -> Reach
        ensures { result ≡ reach (state_of self.now) }
    {
        Reach {
            stored: self.store.entries().len(),
            told: self.messages.len(),
        }
    }
}
