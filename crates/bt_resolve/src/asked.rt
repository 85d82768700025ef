//! What the items' names and keys are looked up in: the declared fields and types, and the cited keys.

ghost use Rattle.std.specs.Prelude.{◌≡◌, IfOk};
ghost use Rattle.bt_resolve.specs.inner.Cases.{asked};

use crate::declared::{Cites, Declared};
use crate::index::Index;
use bt_text::{NameList, Shared};
use std::alloc::{AllocError, Global};

/// What the style and the citations ask for, ready for look-ups.
#[derive(Drop)]
pub struct Asked<'a> {
    pub fields: Index<'a>,
    /// The types that have a function.
    pub types: Index<'a>,
    pub keys: Shared<NameList>,
    /// How many of the keys were cited before `*`; none if `*` isn't cited.
    pub star: Option<usize>,
}

impl<'a> Asked<'a> {
    /// What a style declares and a document cites, for the reading of whole databases.
    pub fn for_all(alloc: Global, declared: &'a Declared, cites: &Cites) -> Result<Self, AllocError>
        ensures { IfOk result (λ known. known ≡ asked declared.now cites.now) }
    {
        Ok(Asked {
            fields: Index::for_many(alloc, declared.fields.as_slice())?,
            types: Index::for_many(alloc, declared.types.as_slice())?,
            keys: cites.keys.share()?,
            star: cites.star,
        })
    }

    /// The same, for the reading of a few items.
    pub fn new(alloc: Global, declared: &'a Declared, cites: &Cites) -> Result<Self, AllocError>
        ensures { IfOk result (λ known. known ≡ asked declared.now cites.now) }
    {
        Ok(Asked {
            fields: Index::new(alloc, declared.fields.as_slice()),
            types: Index::new(alloc, declared.types.as_slice()),
            keys: cites.keys.share()?,
            star: cites.star,
        })
    }
}
