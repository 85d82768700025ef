//! The stored entries, each with the entry that it refers to.
//!
//! Making the list, inheritance and leaving entries out all ask for an entry's parent, and for the number of its
//! children. So each `crossref` is looked up once, when all entries are stored. No edit changes these answers while the
//! stored entries keep their skeletons, so a resolution keeps them.

ghost use Rattle.std.specs.Prelude.{◌≡◌, ◌+◌, ◌-◌, ◌^◌, ◌<◌, ℕ, count_by, if◌then◌else◌, map, IfOk, OnOk};
ghost use Rattle.bt_resolve.specs.inner.Family.{count_at};
ghost use Rattle.bt_resolve.specs.inner.Cases.{children, is_place, parent_at};
ghost use Rattle.bt_resolve.specs.Listed.{parent_of, place_of_key};
ghost use Rattle.bt_resolve.specs.Stored.{is_stored};

use crate::store::Store;
use crate::stored::Stored;
use std::alloc::{AllocError, Global};
use std::collections::HashMap;
use std::marker::Model;

/// The stored entries, with the entry that each refers to, and how many refer to each. Contracts see their list.
#[derive(Drop)]
pub struct Family {
    store: Store,
    parents: Vec<Option<usize>>,
    counts: HashMap<usize, usize>,
}

impl Model for Family {
    ghost use Rattle.std.specs.Prelude.{List};
    ghost use Rattle.bt_resolve.specs.declared.stored.Stored.{Stored};

    ghost Value = { List Stored };

    ghost use Rattle.bt_resolve.specs.inner.Family.{IsFamily};

    ghost view = { λ family. family.store };

    ghost invariant = { λ family. IsFamily family.store family.parents.items family.counts };
}

fn parent_of(alloc: Global, store: &Store, entry: &Stored) -> Result<Option<usize>, AllocError>
    ensures { IfOk result (λ parent. parent ≡ parent_of store.now entry.now) }
{
    match &entry.crossref {
        None => Ok(None),
        Some(key) => store.place(alloc, key.as_slice()),
    }
}

fn all_parents(alloc: Global, store: &Store) -> Result<Vec<Option<usize>>, AllocError>
    ensures { IfOk result (λ parents. parents.items ≡ map (parent_of store.now) store.now) }
{
    let mut parents = Vec::new(alloc);
    'entries: for entry in store.entries() {
        parents.push(parent_of(alloc, store, entry)?)?;
    }
    Ok(parents)
}

fn count_parent(counts: &mut HashMap<usize, usize>, parent: Option<usize>) -> Result<(), AllocError>
    requires { (p : ℕ) → count_at counts.old p < 2 ^ 64 - 1 }
    ensures { OnOk result ((p : ℕ) → count_at counts.new p
        ≡ count_at counts.old p + (if is_place p parent then 1 else 0)) }
{
    match parent {
        None => Ok(()),
        Some(place) => {
            let count = counts.get(&place).copied().unwrap_or(0);
            counts.insert(place, count + 1)?;
            Ok(())
        }
    }
}

fn count_parents(
    alloc: Global,
    parents: &[Option<usize>],
) -> Result<HashMap<usize, usize>, AllocError>
    ensures { IfOk result (λ counts. (p : ℕ) → count_at counts p ≡ count_by (is_place p) parents.now) }
{
    let mut counts = HashMap::new(alloc);
    'parents: for parent in parents {
        count_parent(&mut counts, *parent)?;
    }
    Ok(counts)
}

impl Family {
    pub fn new(alloc: Global, store: Store) -> Result<Self, AllocError>
        ensures { IfOk result (λ family. family ≡ store) }
    {
        let parents = all_parents(alloc, &store)?;
        let counts = count_parents(alloc, parents.as_slice())?;
        Ok(Family {
            store,
            parents,
            counts,
        })
    }

    pub fn entries(&self) -> &[Stored]
        ensures { result.now ≡ self.now }
    {
        self.store.entries()
    }

    /// The place of the entry of a key.
    pub fn place(&self, alloc: Global, key: &[u8]) -> Result<Option<usize>, AllocError>
        ensures { IfOk result (λ place. place ≡ place_of_key self.now key.now) }
    {
        self.store.place(alloc, key)
    }

    /// Whether a key has an entry.
    pub fn has(&self, alloc: Global, key: &[u8]) -> Result<bool, AllocError>
        ensures { IfOk result (λ stored. stored ≡ is_stored self.now key.now) }
    {
        self.store.has(alloc, key)
    }

    /// The entry that each refers to.
    pub fn parents(&self) -> &[Option<usize>]
        ensures { result.now ≡ map (parent_of self.now) self.now }
    {
        self.parents.as_slice()
    }

    /// The place of the entry that the entry at `place` refers to.
    pub fn parent_at(&self, place: usize) -> Option<usize>
        ensures { result ≡ parent_at self.now place }
    {
        match self.parents.get(place) {
            None => None,
            Some(parent) => *parent,
        }
    }

    /// The place of the entry that an entry refers to.
    pub fn parent_of(&self, alloc: Global, entry: &Stored) -> Result<Option<usize>, AllocError>
        ensures { IfOk result (λ parent. parent ≡ parent_of self.now entry.now) }
    {
        parent_of(alloc, &self.store, entry)
    }

    /// How many entries refer to the entry at `place`.
    pub fn children(&self, place: usize) -> usize
        ensures { result ≡ children self.now place }
    {
        self.counts.get(&place).copied().unwrap_or(0)
    }
}
