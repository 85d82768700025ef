//! Tokens and parts whose bytes a name has.
//!
//! A name is cut and formatted without a copy of its tokens. For contracts a lent token is a token, so the definitions
//! know nothing of it.

ghost use Rattle.std.specs.Prelude.{◌≡◌, IfOk};

use crate::tokens::{Parts, Token};
use bt_text::{Bytes, Sequence};
use std::alloc::{AllocError, Global};
use std::marker::Model;

/// A token whose bytes a name has. Contracts see the token.
#[derive(Drop)]
pub struct LentToken<'a> {
    text: &'a [u8],
    before: u8,
}

impl<'a> Model for LentToken<'a> {
    ghost use Rattle.bt_names.specs.declared.tokens.Token.{Token};

    ghost Value = { Token };

    ghost view = { λ t. record { text = t.text.now; before = t.before } };
}

impl<'a> LentToken<'a> {
    ghost use Rattle.std.specs.Prelude.{◌≡◌};

    /// The token of these bytes.
    pub fn new(text: &'a [u8], before: u8) -> LentToken<'a>
        ensures { result ≡ record { text = text.now; before = before } }
    {
        LentToken { text, before }
    }

    /// Its bytes.
    pub fn text(&self) -> &'a [u8]
        ensures { result.now ≡ self.now.text }
    {
        self.text
    }

    /// The sign between it and the token before.
    pub fn before(&self) -> u8
        ensures { result ≡ self.now.before }
    {
        self.before
    }
}

fn copied(alloc: Global, tokens: &[LentToken]) -> Result<Sequence<Token>, AllocError>
    ensures { IfOk result (λ copies. copies ≡ tokens.now) }
{
    let mut copies = Sequence::new(alloc);
    'walk: for token in tokens {
        copies.push(Token {
            text: Bytes::copied(alloc, token.text())?,
            before: token.before(),
        })?;
    }
    Ok(copies)
}

/// The four parts of a name that has their bytes. Contracts see the parts.
#[derive(Drop)]
pub struct LentParts<'t, 'a> {
    pub first: &'t [LentToken<'a>],
    pub von: &'t [LentToken<'a>],
    pub last: &'t [LentToken<'a>],
    pub jr: &'t [LentToken<'a>],
}

impl<'t, 'a> Model for LentParts<'t, 'a> {
    ghost use Rattle.bt_names.specs.declared.tokens.Parts.{Parts};

    ghost Value = { Parts };

    ghost view = { λ p. record { first = p.first.now; von = p.von.now; last = p.last.now; jr = p.jr.now } };
}

impl<'t, 'a> LentParts<'t, 'a> {
    ghost use Rattle.std.specs.Prelude.{◌≡◌, IfOk};
    ghost use Rattle.bt_names.specs.Groups.{part_named};

    /// The tokens of the part that a letter names.
    pub fn named_by(&self, letter: u8) -> &'t [LentToken<'a>]
        ensures { result.now ≡ part_named self.now letter }
    {
        match letter.to_ascii_lowercase() {
            b'f' => self.first,
            b'v' => self.von,
            b'l' => self.last,
            _ => self.jr,
        }
    }

    /// The parts with bytes of their own.
    pub fn copied(&self, alloc: Global) -> Result<Parts, AllocError>
        ensures { IfOk result (λ parts. parts ≡ self.now) }
    {
        Ok(Parts {
            first: copied(alloc, self.first)?,
            von: copied(alloc, self.von)?,
            last: copied(alloc, self.last)?,
            jr: copied(alloc, self.jr)?,
        })
    }
}
