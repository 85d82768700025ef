//! Tables of the names in a list, so that a look-up hashes a name instead of walking the list.
//!
//! The list keeps the order, and contracts are about the list; the table is an index of it (`Mirrors`). Each name is in
//! both, which costs a copy, but a job has few file names.

ghost use Rattle.std.specs.Prelude.{◌≡◌, [], ◌∷◌, ◌++◌, OnOk, OnErr};
ghost use Rattle.bt_job.specs.inner.NameTable.{Mirrors, has_name};

use bt_text::{Bytes, Sequence};
use indexmap::IndexSet;
use std::alloc::{AllocError, Global};

#[derive(Drop)]
pub struct NameTable {
    names: IndexSet<Vec<u8>>,
}

impl NameTable {
    /// The table of no names. Allocates nothing.
    pub fn new(alloc: Global) -> Self
        ensures { Mirrors result [] }
    {
        NameTable {
            names: IndexSet::new(alloc),
        }
    }

    pub fn has(&self, name: &[u8]) -> bool
        ensures { result ≡ has_name self.now name.now }
    {
        self.names.contains(name)
    }

    /// Appends a name to a list and adds it to the list's table. If memory runs out, both are unchanged.
    pub fn note(
        &mut self,
        alloc: Global,
        list: &mut Sequence<Bytes>,
        name: &[u8],
    ) -> Result<(), AllocError>
        requires { Mirrors self.old list.old }
        ensures ok { OnOk result (list.new ≡ list.old ++ name.now ∷ []) }
        ensures err { OnErr result (list.new ≡ list.old) }
        ensures mirrors { Mirrors self.new list.new }
    {
        let key = Vec::from_slice(alloc, name)?;
        let text = Bytes::copied(alloc, name)?;
        self.names.reserve(1)?;
        list.push(text)?;
        let _ = self.names.insert(key);
        Ok(())
    }
}
