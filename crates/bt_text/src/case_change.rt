//! The change of case.

ghost use Rattle.std.specs.Prelude.{◌≡◌, ◌++◌, ◌∷◌, if◌then◌else◌, IfOk, OnOk, map, flat_map};
ghost use Rattle.bt_text.specs.Blocks.{blocks};
ghost use Rattle.bt_text.specs.CaseChange.{changed_block, changed_byte, changed_case, changed_symbol};
ghost use Rattle.bt_text.specs.inner.Cases.{changed_control};
ghost use Rattle.bt_text.specs.Special.{is_foreign, symbols};

use crate::blocks::{begins_special, block_len};
use crate::bytes::Bytes;
use crate::modes::Mode;
use crate::runs::run_len;
use crate::special::{control_parts, is_foreign, is_without_large_form};
use crate::titles::push_title;
use std::alloc::{AllocError, Global};

fn changed_byte(mode: Mode, byte: u8) -> u8
    ensures { result ≡ changed_byte mode byte }
{
    match mode {
        Mode::Upper => byte.to_ascii_uppercase(),
        Mode::Lower | Mode::Title => byte.to_ascii_lowercase(),
    }
}

/// Appends bytes to `out` in the case of the mode. All are copied at once, then changed in place.
pub fn push_changed(out: &mut Vec<u8>, mode: Mode, text: &[u8]) -> Result<(), AllocError>
    ensures { OnOk result (out.new.items ≡ out.old.items ++ map (changed_byte mode) text.now) }
{
    let start = out.len();
    out.extend_from_slice(text)?;
    let (_, copy) = out.as_mut_slice().split_at_mut(start);
    match mode {
        Mode::Upper => copy.make_ascii_uppercase(),
        Mode::Lower | Mode::Title => copy.make_ascii_lowercase(),
    }
    Ok(())
}

/// Appends the name of a control sequence to `out`, in the case of the mode if it is foreign.
fn push_name(out: &mut Vec<u8>, mode: Mode, name: &[u8]) -> Result<(), AllocError>
    ensures { OnOk result (out.new.items ≡ out.old.items
        ++ (if is_foreign name.now then map (changed_byte mode) name.now else name.now)) }
{
    if is_foreign(name) {
        push_changed(out, mode, name)
    } else {
        out.extend_from_slice(name)
    }
}

/// Appends a control sequence to `out`, with its name in the case of the mode.
fn push_whole(out: &mut Vec<u8>, mode: Mode, name: &[u8], gap: &[u8]) -> Result<(), AllocError>
    ensures { OnOk result (out.new.items ≡ out.old.items
        ++ (92 ∷ (if is_foreign name.now then map (changed_byte mode) name.now else name.now)
        ++ gap.now)) }
{
    out.push(b'\\')?;
    push_name(out, mode, name)?;
    out.extend_from_slice(gap)
}

fn push_control(out: &mut Vec<u8>, mode: Mode, name: &[u8], gap: &[u8]) -> Result<(), AllocError>
    ensures { OnOk result (out.new.items ≡ out.old.items ++ changed_control mode name.now gap.now) }
{
    match mode {
        Mode::Upper => {
            if is_without_large_form(name) {
                push_changed(out, Mode::Upper, name)
            } else {
                push_whole(out, Mode::Upper, name, gap)
            }
        }
        Mode::Lower => push_whole(out, Mode::Lower, name, gap),
        Mode::Title => push_whole(out, Mode::Title, name, gap),
    }
}

fn push_special(out: &mut Vec<u8>, mode: Mode, text: &[u8]) -> Result<(), AllocError>
    ensures { OnOk result (out.new.items
        ≡ out.old.items ++ flat_map (changed_symbol mode) (symbols text.now)) }
{
    let mut rest = text;
    'walk: while let [byte, behind @ ..] = rest {
        if *byte == b'\\' {
            let (name, gap, after) = control_parts(behind);
            push_control(out, mode, name, gap)?;
            rest = after;
        } else {
            out.push(changed_byte(mode, *byte))?;
            rest = behind;
        }
    }
    Ok(())
}

/// Appends a block to `out` in the case of the mode.
pub fn push_block(out: &mut Vec<u8>, mode: Mode, block: &[u8]) -> Result<(), AllocError>
    ensures { OnOk result (out.new.items ≡ out.old.items ++ changed_block mode block.now) }
{
    if begins_special(block) {
        push_special(out, mode, block)
    } else if let [b'{', ..] = block {
        out.extend_from_slice(block)
    } else {
        push_changed(out, mode, block)
    }
}

/// Appends a text to `out` in small or large letters.
fn push_flat(out: &mut Vec<u8>, mode: Mode, text: &[u8]) -> Result<(), AllocError>
    ensures { OnOk result (out.new.items ≡ out.old.items ++ flat_map (changed_block mode) (blocks text.now)) }
{
    let mut rest = text;
    'walk: while let [first, ..] = rest {
        if *first == b'{' {
            let (block, behind) = rest.split_at(block_len(rest));
            push_block(out, mode, block)?;
            rest = behind;
        } else {
            let (run, behind) = rest.split_at(run_len(rest));
            push_changed(out, mode, run)?;
            rest = behind;
        }
    }
    Ok(())
}

/// Appends a text to `out` in the case of the mode. After an error, nothing is said of `out`.
#[tactic(auto, using(crate::proofs::CaseLemmas::small_flat, crate::proofs::CaseLemmas::large_flat))]
pub fn push_changed_case(out: &mut Vec<u8>, text: &[u8], mode: Mode) -> Result<(), AllocError>
    ensures { OnOk result (out.new.items ≡ out.old.items ++ changed_case mode text.now) }
{
    match mode {
        Mode::Title => push_title(out, text),
        Mode::Lower => push_flat(out, Mode::Lower, text),
        Mode::Upper => push_flat(out, Mode::Upper, text),
    }
}

/// A text in the case of the mode.
pub fn change_case(alloc: Global, text: &[u8], mode: Mode) -> Result<Bytes, AllocError>
    ensures { IfOk result (λ changed. changed ≡ changed_case mode text.now) }
{
    let mut changed = Vec::new(alloc);
    push_changed_case(&mut changed, text, mode)?;
    Ok(Bytes::from_vec(changed))
}
