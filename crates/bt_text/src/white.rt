//! Runs of white space.

ghost use Rattle.std.specs.Prelude.{◌≡◌, ◌≤◌, ◌++◌, ◌∷◌, [], ◌↔◌, length, take_while, IfOk, IsTrue, OnOk};
ghost use Rattle.std.specs.List.{list_any, position_or_len, prefix_len, suffix_len};
ghost use Rattle.bt_text.specs.ByteTests.{is_white};
ghost use Rattle.bt_text.specs.White.{begins_white, trimmed_end, white_joined};
ghost use Rattle.bt_text.specs.inner.Cases.{joined_byte};

use crate::byte_tests::is_white;
use crate::bytes::Bytes;
use std::alloc::{AllocError, Global};

/// How many bytes of white space stand at a text's beginning.
pub fn white_run(text: &[u8]) -> usize
    ensures within { result ≤ length text.now }
    ensures len { result ≡ prefix_len is_white text.now }
    ensures run { result ≡ length (take_while is_white text.now) }
{
    text.iter().take_while(|byte| is_white(**byte)).count()
}

/// How many bytes stand before a text's first white space.
pub fn dark_run(text: &[u8]) -> usize
    ensures within { result ≤ length text.now }
    ensures len { result ≡ position_or_len is_white text.now }
{
    text.iter().take_while(|byte| !is_white(**byte)).count()
}

/// Whether a text has white space.
pub fn has_white(text: &[u8]) -> bool
    ensures { result ≡ list_any is_white text.now }
{
    text.iter().any(|byte| is_white(*byte))
}

fn trailing_white(text: &[u8]) -> usize
    ensures within { result ≤ length text.now }
    ensures len { result ≡ suffix_len is_white text.now }
{
    text.iter()
        .rev()
        .take_while(|byte| is_white(**byte))
        .count()
}

/// A text without the white space at its end.
pub fn trim_end(text: &[u8]) -> &[u8]
    ensures { result.now ≡ trimmed_end text.now }
{
    &text[..text.len() - trailing_white(text)]
}

fn begins_white(text: &[u8]) -> bool
    ensures { result ≡ begins_white text.now }
{
    match text {
        [] => false,
        [byte, ..] => is_white(*byte),
    }
}

/// Puts a byte after `joined`, as a space if it ends a run of white space, and not if the run goes on.
fn push_joined(joined: &mut Vec<u8>, byte: u8, behind: &[u8]) -> Result<(), AllocError>
    ensures { OnOk result (joined.new.items ≡ joined.old.items ++ joined_byte byte behind.now) }
{
    if !is_white(byte) {
        joined.push(byte)?;
    } else if !begins_white(behind) {
        joined.push(b' ')?;
    }
    Ok(())
}

/// Whether a byte stays as it is before what stands after it.
fn stays(byte: u8, behind: &[u8]) -> bool
    ensures { IsTrue result ↔ joined_byte byte behind.now ≡ byte ∷ [] }
{
    !is_white(byte) || (byte == b' ' && !begins_white(behind))
}

/// Whether each run of white space in a text is one space already.
pub fn is_white_joined(text: &[u8]) -> bool
    ensures { IsTrue result ↔ white_joined text.now ≡ text.now }
{
    let mut rest = text;
    while let [byte, behind @ ..] = rest {
        if !stays(*byte, behind) {
            return false;
        }
        rest = behind;
    }
    true
}

/// A text with each run of white space made one space.
pub fn join_white(alloc: Global, text: &[u8]) -> Result<Bytes, AllocError>
    ensures { IfOk result (λ joined. joined ≡ white_joined text.now) }
{
    let mut joined = Vec::with_capacity(alloc, text.len())?;
    let mut rest = text;
    while let [byte, behind @ ..] = rest {
        push_joined(&mut joined, *byte, behind)?;
        rest = behind;
    }
    Ok(Bytes::from_vec(joined))
}
