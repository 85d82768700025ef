//! The parts of a value.
//!
//! Nearly every value has a single part. It is kept in place, so only a value of several parts allocates a vector.

ghost use Rattle.std.specs.Prelude.{◌≡◌, [], ◌∷◌, ◌++◌, length, IfOk};

use crate::item::Part;
use bt_text::Sequence;
use std::alloc::{AllocError, Global};
use std::marker::Model;
use std::slice;

#[derive(Debug, Drop)]
enum Holder {
    One(Part),
    Several(Sequence<Part>),
}

/// The parts of a value, in their order. Contracts see the list.
#[derive(Debug, Drop)]
pub struct ValueParts {
    holder: Holder,
}

impl Model for ValueParts {
    ghost use Rattle.std.specs.Prelude.{List};
    ghost use Rattle.bt_bib.specs.declared.item.Part.{Part};
    ghost use Rattle.bt_bib.specs.inner.ValueParts.{parts_of};

    ghost Value = { List Part };

    ghost view = { λ parts. parts_of parts.holder };
}

fn both(alloc: Global, first: Part, second: Part) -> Result<Sequence<Part>, AllocError>
    ensures { IfOk result (λ parts. parts ≡ first ∷ second ∷ []) }
{
    let mut parts = Vec::with_capacity(alloc, 2)?;
    parts.push(first)?;
    parts.push(second)?;
    Ok(Sequence::from_vec(parts))
}

impl ValueParts {
    /// A single part. It takes no memory.
    pub fn one(part: Part) -> Self
        ensures { result ≡ part ∷ [] }
    {
        ValueParts {
            holder: Holder::One(part),
        }
    }

    /// The parts with one more after them.
    pub fn with(self, alloc: Global, part: Part) -> Result<Self, AllocError>
        ensures { IfOk result (λ parts. parts ≡ self ++ part ∷ []) }
    {
        let ValueParts { holder } = self;
        match holder {
            Holder::One(first) => {
                let parts = both(alloc, first, part)?;
                Ok(ValueParts {
                    holder: Holder::Several(parts),
                })
            }
            Holder::Several(mut parts) => {
                parts.push(part)?;
                Ok(ValueParts {
                    holder: Holder::Several(parts),
                })
            }
        }
    }

    /// The parts.
    pub fn as_slice(&self) -> &[Part]
        ensures { result.now ≡ self.now }
    {
        match &self.holder {
            Holder::One(part) => slice::from_ref(part),
            Holder::Several(parts) => parts.as_slice(),
        }
    }

    /// How many parts there are.
    pub fn len(&self) -> usize
        ensures { result ≡ length self.now }
    {
        self.as_slice().len()
    }
}
