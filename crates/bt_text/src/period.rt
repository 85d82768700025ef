//! A full stop at the end of a text.

ghost use Rattle.std.specs.Prelude.{◌≡◌, ◌++◌, IfOk, OnOk, Some};
ghost use Rattle.bt_text.specs.Period.{ends_sentence, with_period};
ghost use Rattle.bt_text.specs.inner.Endings.{last_counting};

use crate::bytes::Bytes;
use std::alloc::{AllocError, Global};

fn is_end(byte: u8) -> bool
    ensures { result ≡ ends_sentence (Some byte) }
{
    matches!(byte, b'.' | b'?' | b'!')
}

/// Whether the last byte that is no right brace ends a sentence.
#[tactic(auto, using(crate::proofs::EndLemmas::last_byte))]
fn ends_sentence(text: &[u8]) -> bool
    ensures { result ≡ ends_sentence (last_counting text.now) }
{
    let mut rest = text;
    'walk: while let [front @ .., last] = rest {
        if *last != b'}' {
            return is_end(*last);
        }
        rest = front;
    }
    false
}

/// Appends a text to `out`, and then a full stop, unless the text is empty or its last byte that is no right brace is
/// `.`, `?` or `!`. After an error, nothing is said of `out`.
pub fn push_with_period(out: &mut Vec<u8>, text: &[u8]) -> Result<(), AllocError>
    ensures { OnOk result (out.new.items ≡ out.old.items ++ with_period text.now) }
{
    out.extend_from_slice(text)?;
    if !text.is_empty() && !ends_sentence(text) {
        out.push(b'.')?;
    }
    Ok(())
}

/// The text, ended as `push_with_period` says.
pub fn add_period(alloc: Global, text: &[u8]) -> Result<Bytes, AllocError>
    ensures { IfOk result (λ ended. ended ≡ with_period text.now) }
{
    let mut ended = Vec::new(alloc);
    push_with_period(&mut ended, text)?;
    Ok(Bytes::from_vec(ended))
}
