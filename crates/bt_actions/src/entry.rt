//! The entries that a style works on, with their variables.

ghost use Rattle.std.specs.Prelude.{◌≡◌, IfOk};

use bt_text::{Bytes, Sequence, Shared, SparseTexts, Values};
use std::alloc::{AllocError, Global};

/// The values of variables: the numbers and the texts, each by the number of its variable.
#[derive(Debug, Drop)]
pub struct Variables {
    pub numbers: Values<i32>,
    pub texts: Values<Shared<Bytes>>,
}

/// The same texts, shared, not copied.
pub fn share_texts(
    alloc: Global,
    texts: &[Shared<Bytes>],
) -> Result<Sequence<Shared<Bytes>>, AllocError>
    ensures { IfOk result (λ same. same ≡ texts.now) }
{
    let mut same = Vec::with_capacity(alloc, texts.len())?;
    'texts: for text in texts {
        same.push(text.share()?)?;
    }
    Ok(Sequence::from_vec(same))
}

/// An entry of the list.
#[derive(Debug, Drop)]
pub struct Entry {
    pub key: Shared<Bytes>,
    /// The text of the entry's type, in small letters.
    pub kind: Shared<Bytes>,
    /// The function of its type, if it has one.
    pub function: Option<usize>,
    /// Its fields, each by its number; a missing one has no text.
    pub fields: Shared<SparseTexts>,
    pub variables: Shared<Variables>,
}

impl Entry {
    ghost use Rattle.std.specs.Prelude.{◌≡◌, IfOk};

    /// The same entry, shared, not copied.
    pub fn share(&self) -> Result<Entry, AllocError>
        ensures { IfOk result (λ entry. entry ≡ self.now) }
    {
        Ok(Entry {
            key: self.key.share()?,
            kind: self.kind.share()?,
            function: self.function,
            fields: self.fields.share()?,
            variables: self.variables.share()?,
        })
    }
}
