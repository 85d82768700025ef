//! The texts of parts, joined.
//!
//! Most values have a single part, so its text is shared instead of copied. Bytes are copied only when a second part
//! that isn't empty follows.

ghost use Rattle.std.specs.Prelude.{◌≡◌, [], ◌++◌, IfOk, OnOk};
ghost use Rattle.bt_text.specs.White.{white_joined};

use crate::macro_text::MacroText;
use bt_text::{Bytes, Excerpt, Shared, is_white_joined, join_white};
use std::alloc::{AllocError, Global};
use std::marker::Model;

#[derive(Drop)]
enum Holder {
    /// The text of one part, shared with it.
    Text(Excerpt),
    /// The text of one macro, shared with it.
    Macro(MacroText),
    /// Bytes joined from several parts.
    Own(Bytes),
}

/// The texts of parts, joined. If all but one are empty, that one is shared. Contracts see the bytes.
#[derive(Drop)]
pub struct JoinedParts {
    holder: Holder,
}

impl Model for JoinedParts {
    ghost use Rattle.std.specs.Prelude.{List, ℕ};

    ghost Value = { List ℕ };

    ghost use Rattle.bt_resolve.specs.inner.JoinedParts.{bytes_of};

    ghost view = { λ joined. bytes_of joined.holder };
}

/// A copy of a text with each run of white space replaced by one space.
fn joined_copy(alloc: Global, text: &[u8]) -> Result<Excerpt, AllocError>
    ensures { IfOk result (λ joined. joined ≡ white_joined text.now) }
{
    let joined = join_white(alloc, text)?;
    Excerpt::of(Shared::new(alloc, joined)?)
}

/// A text with each run of white space replaced by one space. It is shared if each is one space already.
fn white_joined(alloc: Global, text: Excerpt) -> Result<Excerpt, AllocError>
    ensures { IfOk result (λ joined. joined ≡ white_joined text) }
{
    if is_white_joined(text.as_slice()) {
        return Ok(text);
    }
    joined_copy(alloc, text.as_slice())
}

impl JoinedParts {
    /// Nothing. Allocates nothing.
    pub fn new(alloc: Global) -> Self
        ensures { result ≡ [] }
    {
        JoinedParts {
            holder: Holder::Own(Bytes::new(alloc)),
        }
    }

    /// The text of one part. It is not copied.
    pub fn of_text(text: &Excerpt) -> Result<Self, AllocError>
        ensures { IfOk result (λ part. part ≡ text.now) }
    {
        Ok(JoinedParts {
            holder: Holder::Text(text.share()?),
        })
    }

    /// The text of a macro. It is not copied.
    pub fn of_macro(text: &MacroText) -> Result<Self, AllocError>
        ensures { IfOk result (λ part. part ≡ text.now) }
    {
        Ok(JoinedParts {
            holder: Holder::Macro(text.share()?),
        })
    }

    pub fn as_slice(&self) -> &[u8]
        ensures { result.now ≡ self.now }
    {
        match &self.holder {
            Holder::Text(text) => text.as_slice(),
            Holder::Macro(text) => text.as_slice(),
            Holder::Own(text) => text.as_slice(),
        }
    }

    /// Appends bytes, which are copied. Those already there are copied only if they are shared.
    fn append_bytes(&mut self, alloc: Global, more: &[u8]) -> Result<(), AllocError>
        ensures { OnOk result (self.new ≡ self.old ++ more.now) }
    {
        if let Holder::Own(text) = &mut self.holder {
            return text.append(more);
        }
        let all = Bytes::of(alloc, &[self.as_slice(), more])?;
        self.holder = Holder::Own(all);
        Ok(())
    }

    /// Appends the texts of more parts. Nothing is copied if one of the two sides is empty.
    pub fn append(&mut self, alloc: Global, more: JoinedParts) -> Result<(), AllocError>
        ensures { OnOk result (self.new ≡ self.old ++ more) }
    {
        if self.as_slice().is_empty() {
            *self = more;
            Ok(())
        } else if more.as_slice().is_empty() {
            Ok(())
        } else {
            self.append_bytes(alloc, more.as_slice())
        }
    }

    /// The text with each run of white space replaced by one space. The text of a single part is not copied if no run
    /// has to be replaced.
    pub fn into_value(self, alloc: Global) -> Result<Excerpt, AllocError>
        ensures { IfOk result (λ value. value ≡ white_joined self) }
    {
        let JoinedParts { holder } = self;
        match holder {
            Holder::Text(text) => white_joined(alloc, text),
            Holder::Macro(text) => Ok(text.into_value()),
            Holder::Own(text) => joined_copy(alloc, text.as_slice()),
        }
    }
}
