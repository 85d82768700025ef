//! The beginning of a text, up to a number of text characters.

ghost use Rattle.std.specs.Prelude.{◌≡◌, ◌≤◌, ◌<◌, ◌-◌, ◌++◌, IfOk, OnOk, length, take, drop, flat_map, map, replicate};
ghost use Rattle.bt_text.specs.ByteTests.{is_brace, right_brace};
ghost use Rattle.bt_text.specs.Substrings.{first_characters, text_prefix_of};
ghost use Rattle.bt_text.specs.Pieces.{bytes_of, pieces, block_pieces};
ghost use Rattle.bt_text.specs.inner.Cases.{single};

use crate::blocks::{begins_special, block_len};
use crate::bytes::Bytes;
use crate::depth::depth_of;
use crate::length::block_characters;
use crate::runs::bare_len;
use std::alloc::{AllocError, Global};

fn is_brace(byte: u8) -> bool
    ensures { result ≡ is_brace byte }
{
    byte == b'{' || byte == b'}'
}

/// How many bytes of a text without special characters hold its first `most` text characters.
fn plain_prefix_len(text: &[u8], most: usize) -> usize
    ensures within { result ≤ length text.now }
    ensures prefix { take result text.now
        ≡ flat_map bytes_of (first_characters most (map single text.now)) }
{
    let mut left = most;
    for (place, byte) in text.iter().enumerate() {
        if left == 0 {
            return place;
        }
        if !is_brace(*byte) {
            left -= 1;
        }
    }
    text.len()
}

fn block_prefix(block: &[u8], most: usize) -> &[u8]
    requires { 0 < most }
    ensures { result.now ≡ flat_map bytes_of (first_characters most (block_pieces block.now)) }
{
    if begins_special(block) {
        block
    } else {
        &block[..plain_prefix_len(block, most)]
    }
}

/// How many of the bytes before the first brace are wanted: at most `most`.
fn wanted_len(text: &[u8], most: usize) -> usize
    ensures within { result ≤ length text.now }
    ensures few { result ≤ most }
    ensures prefix { flat_map bytes_of (first_characters most (pieces text.now))
        ≡ take result text.now ++ flat_map bytes_of (first_characters (most - result) (pieces (drop result text.now))) }
{
    bare_len(text).min(most)
}

fn push_first_characters(out: &mut Vec<u8>, text: &[u8], most: usize) -> Result<(), AllocError>
    ensures { OnOk result (out.new.items
        ≡ out.old.items ++ flat_map bytes_of (first_characters most (pieces text.now))) }
{
    let mut left = most;
    let mut rest = text;
    while 0 < left && !rest.is_empty() {
        let wanted = wanted_len(rest, left);
        if 0 < wanted {
            let (run, behind) = rest.split_at(wanted);
            out.extend_from_slice(run)?;
            left -= wanted;
            rest = behind;
        } else {
            let (block, behind) = rest.split_at(block_len(rest));
            out.extend_from_slice(block_prefix(block, left))?;
            left = left.saturating_sub(block_characters(block));
            rest = behind;
        }
    }
    Ok(())
}

/// Appends right braces to `out`.
fn push_closers(out: &mut Vec<u8>, count: usize) -> Result<(), AllocError>
    ensures { OnOk result (out.new.items ≡ out.old.items ++ replicate count right_brace) }
{
    for _ in 0..count {
        out.push(b'}')?;
    }
    Ok(())
}

/// Appends to `out` the beginning of a text with its first `most` text characters, or all of it if there are fewer, and
/// a right brace for each brace left open. After an error, nothing is said of `out`.
pub fn push_prefix(out: &mut Vec<u8>, text: &[u8], most: i32) -> Result<(), AllocError>
    ensures { OnOk result (out.new.items ≡ out.old.items ++ text_prefix_of text.now most) }
{
    if most < 0 {
        return Ok(());
    }
    let start = out.len();
    push_first_characters(out, text, most as usize)?;
    let (_, prefix) = out.as_slice().split_at(start);
    let open = depth_of(prefix);
    push_closers(out, open)
}

/// The beginning of a text with its first `most` text characters, as `push_prefix` says.
pub fn text_prefix(alloc: Global, text: &[u8], most: i32) -> Result<Bytes, AllocError>
    ensures { IfOk result (λ prefix. prefix ≡ text_prefix_of text.now most) }
{
    let mut prefix = Vec::new(alloc);
    push_prefix(&mut prefix, text, most)?;
    Ok(Bytes::from_vec(prefix))
}
