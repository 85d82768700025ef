//! The stored entries, with tables to look them up.
//!
//! Whether an entry is stored depends on those before it: one of them may have its key, or refer to it by `crossref`.
//! Both questions come up for each entry of a database, so both are answered by hashing. Keys that entries refer to
//! have a table of their own, since a parent mostly follows its children: its key is known before its entry.

ghost use Rattle.std.specs.Prelude.{◌≡◌, ◌++◌, ◌∷◌, [], ℕ, List, false, option_map, IfOk, OnOk, OnErr};
ghost use Rattle.bt_text.specs.ByName.{HasRoom, known};
ghost use Rattle.bt_text.specs.CaseFolding.{folded};
ghost use Rattle.bt_resolve.specs.Listed.{place_of_key};
ghost use Rattle.bt_resolve.specs.inner.Store.{with_reference};
ghost use Rattle.bt_resolve.specs.Stored.{is_stored};
ghost use Rattle.bt_resolve.specs.inner.Cases.{is_referred_to};

use crate::stored::Stored;
use bt_text::{ByName, to_ascii_lowercase};
use std::alloc::{AllocError, Global};
use std::marker::Model;

/// The stored entries in the order of the databases. Contracts see their list. Hashing finds the entry of a key, and
/// whether any entry refers to a key.
#[derive(Drop)]
pub struct Store {
    entries: ByName<Stored>,
    /// The keys that entries refer to.
    referred: ByName<()>,
}

impl Model for Store {
    ghost use Rattle.std.specs.Prelude.{List};
    ghost use Rattle.bt_resolve.specs.declared.stored.Stored.{Stored};

    ghost Value = { List Stored };

    ghost use Rattle.bt_resolve.specs.inner.Store.{IsIndexed, stored_in};

    ghost view = { λ store. stored_in store.entries };

    ghost invariant = { λ store. IsIndexed store.entries store.referred };
}

impl Store {
    /// No entries. Allocates nothing.
    pub fn new(alloc: Global) -> Self
        ensures { result ≡ [] }
    {
        Store {
            entries: ByName::new(alloc),
            referred: ByName::new(alloc),
        }
    }

    pub fn entries(&self) -> &[Stored]
        ensures { result.now ≡ self.now }
    {
        self.entries.values()
    }

    /// The place of the entry of a key.
    pub fn place(&self, alloc: Global, key: &[u8]) -> Result<Option<usize>, AllocError>
        ensures { IfOk result (λ place. place ≡ place_of_key self.now key.now) }
    {
        self.entries.place(alloc, key)
    }

    /// Whether a key has an entry.
    pub fn has(&self, alloc: Global, key: &[u8]) -> Result<bool, AllocError>
        ensures { IfOk result (λ stored. stored ≡ is_stored self.now key.now) }
    {
        self.entries.has(alloc, key)
    }

    /// Whether an entry refers to a key.
    pub fn refers_to(&self, alloc: Global, key: &[u8]) -> Result<bool, AllocError>
        ensures { IfOk result (λ referred. referred ≡ is_referred_to self.now key.now) }
    {
        self.referred.has(alloc, key)
    }

    /// Appends an entry, whose key must not have an entry yet. If memory runs out, the entries are unchanged.
    pub fn push(&mut self, alloc: Global, entry: Stored) -> Result<(), AllocError>
        requires { is_stored self.old entry.key ≡ false }
        ensures ok { OnOk result (self.new ≡ self.old ++ entry ∷ []) }
        ensures err { OnErr result (self.new ≡ self.old) }
    {
        let key = entry.key.share()?;
        let small = small_reference(alloc, &entry)?;
        self.referred.make_room()?;
        self.entries.insert(alloc, key.as_slice(), entry)?;
        refer_to(&mut self.referred, small);
        Ok(())
    }
}

fn small_reference(alloc: Global, entry: &Stored) -> Result<Option<Vec<u8>>, AllocError>
    ensures { IfOk result (λ small. option_map (λ v. v.items) small ≡ option_map folded entry.now.crossref) }
{
    match &entry.crossref {
        None => Ok(None),
        Some(key) => Ok(Some(to_ascii_lowercase(alloc, key.as_slice())?.into_vec())),
    }
}

/// Records the lower-case key that an entry refers to, if there is one. There must be room for it.
fn refer_to(referred: &mut ByName<()>, small: Option<Vec<u8>>)
    requires { HasRoom referred.old }
    ensures { (key : List ℕ) → known referred.new key
        ≡ with_reference (option_map (λ v. v.items) small) (known referred.old) key }
{
    match small {
        None => {}
        Some(small) => referred.put(small, ()),
    }
}
