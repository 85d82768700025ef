//! Texts reduced to letters, digits and spaces.

ghost use Rattle.std.specs.Prelude.{◌≡◌, ◌++◌, IfOk, OnOk, flat_map};
ghost use Rattle.bt_text.specs.Pieces.{block_pieces};
ghost use Rattle.bt_text.specs.Purification.{purified, purified_byte, purified_piece, purified_symbol};
ghost use Rattle.bt_text.specs.Special.{symbols};

use crate::blocks::{begins_special, block_len};
use crate::byte_tests::{is_digit, is_letter};
use crate::bytes::Bytes;
use crate::kept_bytes::kept;
use crate::runs::run_len;
use crate::special::{control_parts, letters_of};
use std::alloc::{AllocError, Global};

/// Appends to `out` what is kept of bytes outside special characters. All are copied at once, then what is kept is
/// written over the copy.
#[tactic(auto, using(crate::proofs::PurifyLemmas::dropped, crate::proofs::PurifyLemmas::kept))]
fn push_pure(out: &mut Vec<u8>, text: &[u8]) -> Result<(), AllocError>
    ensures { OnOk result (out.new.items ≡ out.old.items ++ flat_map purified_byte text.now) }
{
    let mut end = out.len();
    out.extend_from_slice(text)?;
    'bytes: for byte in text {
        let code = kept(*byte);
        if code != 0 {
            out[end] = code;
            end += 1;
        }
    }
    out.truncate(end);
    Ok(())
}

fn push_pure_special(out: &mut Vec<u8>, text: &[u8]) -> Result<(), AllocError>
    ensures { OnOk result (out.new.items ≡ out.old.items ++ flat_map purified_symbol (symbols text.now)) }
{
    let mut rest = text;
    'walk: while let [byte, behind @ ..] = rest {
        if *byte == b'\\' {
            let (name, _, after) = control_parts(behind);
            out.extend_from_slice(letters_of(name))?;
            rest = after;
        } else {
            if is_letter(*byte) || is_digit(*byte) {
                out.push(*byte)?;
            }
            rest = behind;
        }
    }
    Ok(())
}

#[tactic(auto, using(crate::proofs::PurifyLemmas::group_kept))]
fn push_pure_group(out: &mut Vec<u8>, block: &[u8]) -> Result<(), AllocError>
    ensures { OnOk result (out.new.items ≡ out.old.items ++ flat_map purified_piece (block_pieces block.now)) }
{
    if begins_special(block) {
        push_pure_special(out, block)
    } else {
        push_pure(out, block)
    }
}

/// Appends to `out` the letters and digits of a text, and a space for white space and separators. Of special characters
/// only letters and digits are kept, and the letters that foreign control sequences stand for. After an error, nothing
/// is said of `out`.
pub fn push_purified(out: &mut Vec<u8>, text: &[u8]) -> Result<(), AllocError>
    ensures { OnOk result (out.new.items ≡ out.old.items ++ purified text.now) }
{
    let mut rest = text;
    'walk: while let [first, ..] = rest {
        if *first == b'{' {
            let (block, behind) = rest.split_at(block_len(rest));
            push_pure_group(out, block)?;
            rest = behind;
        } else {
            let (run, behind) = rest.split_at(run_len(rest));
            push_pure(out, run)?;
            rest = behind;
        }
    }
    Ok(())
}

/// What is kept of a text, as `push_purified` says.
pub fn purify(alloc: Global, text: &[u8]) -> Result<Bytes, AllocError>
    ensures { IfOk result (λ kept. kept ≡ purified text.now) }
{
    let mut kept = Vec::new(alloc);
    push_purified(&mut kept, text)?;
    Ok(Bytes::from_vec(kept))
}
