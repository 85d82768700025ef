//! The names that were looked up.

ghost use Rattle.std.specs.Prelude.{◌≡◌, ◌++◌, ◌∷◌, ◌<◌, ◌^◌, [], false, length, bytes_eq, OnOk, OnErr};
ghost use Rattle.std.specs.List.{list_any};

use indexmap::IndexSet;
use std::alloc::{AllocError, Global};
use std::marker::Model;

/// Names, each once, in the order in which they were noted. Contracts see the list of them.
#[derive(Drop)]
pub struct NamesMet {
    alloc: Global,
    names: IndexSet<Vec<u8>>,
}

impl Model for NamesMet {
    ghost use Rattle.std.specs.Prelude.{List, ℕ, map};

    ghost Value = { List (List ℕ) };

    ghost view = { λ m. map (λ name. name.items) m.names.keys };
}

impl NamesMet {
    pub fn new(alloc: Global) -> NamesMet
        ensures { result ≡ [] }
    {
        NamesMet {
            alloc,
            names: IndexSet::new(alloc),
        }
    }

    pub fn has(&self, name: &[u8]) -> bool
        ensures value { result ≡ list_any (bytes_eq name.now) self.now }
        ensures bound { length self.now < 2 ^ 63 }
    {
        self.names.len() > 0 && self.names.contains(name)
    }

    /// Appends a new name. After out of memory the names are as before.
    pub fn put(&mut self, name: &[u8]) -> Result<(), AllocError>
        requires { list_any (bytes_eq name.now) self.old ≡ false }
        ensures ok { OnOk result (self.new ≡ self.old ++ name.now ∷ []) }
        ensures err { OnErr result (self.new ≡ self.old) }
    {
        let name = Vec::from_slice(self.alloc, name)?;
        let _ = self.names.insert(name)?;
        Ok(())
    }
}
