//! What a macro stands for.
//!
//! In many entries, the value of a field is only a macro, as in `month = jan`. The macro's white space is joined once,
//! at its definition, and all such fields share the result.

ghost use Rattle.std.specs.Prelude.{◌≡◌, IfOk};
ghost use Rattle.bt_text.specs.White.{white_joined};

use bt_text::{Excerpt, Shared, is_white_joined, join_white};
use std::alloc::{AllocError, Global};
use std::marker::Model;

/// The text of a macro, shared, with the value of a field that is only this macro. Contracts see the text.
#[derive(Drop)]
pub struct MacroText {
    text: Excerpt,
    /// The text with each run of white space made one space.
    value: Excerpt,
}

impl Model for MacroText {
    ghost use Rattle.std.specs.Prelude.{◌≡◌, List, ℕ};
    ghost use Rattle.bt_text.specs.White.{white_joined};

    ghost Value = { List ℕ };

    ghost view = { λ m. m.text };

    ghost invariant = { λ m. m.value ≡ white_joined m.text };
}

impl MacroText {
    /// The text of a macro that a style defines.
    pub fn new(alloc: Global, text: &[u8]) -> Result<Self, AllocError>
        ensures { IfOk result (λ copy. copy ≡ text.now) }
    {
        let value = Excerpt::of(Shared::new(alloc, join_white(alloc, text)?)?)?;
        let text = if is_white_joined(text) {
            value.share()?
        } else {
            Excerpt::copied(alloc, text)?
        };
        Ok(MacroText { text, value })
    }

    /// The text of a value, in which each run of white space is one space. It is not copied.
    pub fn of_value(value: Excerpt) -> Result<Self, AllocError>
        requires { white_joined value ≡ value }
        ensures { IfOk result (λ text. text ≡ value) }
    {
        Ok(MacroText {
            text: value.share()?,
            value,
        })
    }

    /// The same text, shared.
    pub fn share(&self) -> Result<Self, AllocError>
        ensures { IfOk result (λ same. same ≡ self.now) }
    {
        Ok(MacroText {
            text: self.text.share()?,
            value: self.value.share()?,
        })
    }

    pub fn as_slice(&self) -> &[u8]
        ensures { result.now ≡ self.now }
    {
        self.text.as_slice()
    }

    /// The text with each run of white space made one space.
    pub fn into_value(self) -> Excerpt
        ensures { result ≡ white_joined self }
    {
        let MacroText { text: _, value } = self;
        value
    }
}
