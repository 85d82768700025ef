//! What a style and its document ask for.

use bt_text::{Bytes, NameList, Same, Sequence, Shared};

/// A macro, and its text.
#[derive(Drop)]
pub struct Macro {
    /// Its name.
    pub name: Bytes,
    /// Its text.
    pub value: Bytes,
}

impl Same for Macro {
    fn is_same(&self, other: &Macro) -> bool {
        self.name.is_same(&other.name) && self.value.is_same(&other.value)
    }
}

/// What the style declares before the databases are read. No two names of one list match.
#[derive(Drop)]
pub struct Declared {
    /// Its fields.
    pub fields: Sequence<Bytes>,
    /// The types that have a function, by the functions' names.
    pub types: Sequence<Bytes>,
    /// Its macros.
    pub macros: Sequence<Macro>,
}

/// What is cited.
#[derive(Drop)]
pub struct Cites {
    /// The keys, in the order of their citations. No two match.
    pub keys: Shared<NameList>,
    /// How many of the keys were cited before `*`; none if `*` isn't cited.
    pub star: Option<usize>,
}
