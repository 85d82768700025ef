//! What a group with a letter gives.
//!
//! A group is appended straight to the buffer. Its end may still change: a tie there is removed, or becomes a space. So
//! contracts speak of the bytes from the group's start on, which is `start`.

ghost use Rattle.std.specs.Prelude.{◌≡◌, ◌≤◌, ◌++◌, ◌==◌, ◌||◌, false, if◌then◌else◌, IsTrue, OnOk, length, take, drop, map};
ghost use Rattle.bt_text.specs.ByteTests.{is_separator, space, tie};
ghost use Rattle.bt_names.specs.Groups.{ends_in_tie, group_finished};
ghost use Rattle.bt_text.specs.Length.{text_length_of};
ghost use Rattle.bt_names.specs.Joints.{by_signs, by_text, dotted, is_short, joined};
ghost use Rattle.bt_names.specs.Spelling.{initial};
ghost use Rattle.bt_names.specs.inner.Pieces.{between_in, part_output};
ghost use Rattle.bt_names.specs.inner.Spelling.{form_of, spell};

use crate::cuts::first_len;
use crate::lent_tokens::{LentParts, LentToken};
use crate::pieces::Part;
use bt_text::{begins_special, is_letter, is_separator, text_length};
use std::alloc::AllocError;

/// The first letter of a text at any depth, or its first special character.
fn initial(text: &[u8]) -> &[u8]
    ensures { result.now ≡ initial text.now }
{
    let mut rest = text;
    'walk: while let [first, behind @ ..] = rest {
        if is_letter(*first) {
            let (letter, _) = rest.split_at(1);
            return letter;
        }
        if begins_special(rest) {
            let (block, _) = rest.split_at(first_len(rest));
            return block;
        }
        rest = behind;
    }
    &[]
}

/// Appends a text. Most of the texts around a part are empty.
fn push_text(out: &mut Vec<u8>, text: &[u8]) -> Result<(), AllocError>
    ensures { OnOk result (out.new.items ≡ out.old.items ++ text.now) }
{
    if text.is_empty() {
        return Ok(());
    }
    out.extend_from_slice(text)
}

/// The bytes of a token, whole or its initial.
fn spelling<'a>(is_whole: bool, token: &LentToken<'a>) -> &'a [u8]
    ensures { result.now ≡ (spell is_whole token.now).text }
{
    if is_whole {
        token.text()
    } else {
        initial(token.text())
    }
}

#[tactic(auto, using(crate::proofs::GroupLemmas::ends_in_last, crate::proofs::GroupLemmas::ends_in_none))]
fn ends_in_tie(text: &[u8]) -> bool
    ensures { result ≡ ends_in_tie text.now }
{
    match text.last() {
        None => false,
        Some(byte) => *byte == b'~',
    }
}

fn is_short(text: &[u8]) -> bool
    ensures { result ≡ is_short text.now }
{
    text_length(text) < 3
}

/// If the group that begins at `start` ends in two ties, one is removed. A single tie becomes a space if 3 text
/// characters come before it in the group.
#[inline(never)]
#[tactic(auto, using(crate::proofs::GroupLemmas::tail_cut, crate::proofs::GroupLemmas::tail_set))]
fn finish_tie(out: &mut Vec<u8>, start: usize)
    requires within { start ≤ length out.old.items }
    requires tie { IsTrue (ends_in_tie (drop start out.old.items)) }
    ensures front { take start out.new.items ≡ take start out.old.items }
    ensures group { drop start out.new.items ≡ group_finished (drop start out.old.items) }
{
    let (_, group) = out.as_slice().split_at(start);
    let len = group.len().saturating_sub(1);
    let (front, _) = group.split_at(len);
    if ends_in_tie(front) {
        out.truncate(start + len);
    } else if !is_short(front) {
        let last = start + len;
        if last < out.len() {
            out[last] = b' ';
        }
    }
}

/// Settles a tie at the end of the group that begins at `start`, if there is one. Most groups have none, so that is tested
/// first.
pub fn finish(out: &mut Vec<u8>, start: usize)
    requires { start ≤ length out.old.items }
    ensures front { take start out.new.items ≡ take start out.old.items }
    ensures group { drop start out.new.items ≡ group_finished (drop start out.old.items) }
{
    let (_, group) = out.as_slice().split_at(start);
    if ends_in_tie(group) {
        finish_tie(out, start);
    }
}

fn sign(before: u8, is_last: bool, is_short: bool) -> u8
    ensures { result
        ≡ (if is_separator before then before else (if is_last || is_short then tie else space)) }
{
    if is_separator(before) {
        before
    } else if is_last || is_short {
        b'~'
    } else {
        b' '
    }
}

/// A group only grows, so once it has 3 text characters they aren't counted again for each token.
fn stays_short(was_short: bool, group: &[u8]) -> bool
    requires { was_short ≡ false → 3 ≤ text_length_of group.now }
    ensures { result ≡ is_short group.now }
{
    was_short && is_short(group)
}

/// Appends a full stop after an initial, in the group that begins at `start`.
#[tactic(auto, using(crate::proofs::GroupLemmas::tail_append, crate::proofs::GroupLemmas::front_append))]
fn push_dot(out: &mut Vec<u8>, start: usize, is_whole: bool) -> Result<(), AllocError>
    requires { start ≤ length out.old.items }
    ensures front { OnOk result (take start out.new.items ≡ take start out.old.items) }
    ensures size { OnOk result (start ≤ length out.new.items) }
    ensures group { OnOk result (drop start out.new.items ≡ dotted (form_of is_whole) (drop start out.old.items)) }
{
    if is_whole {
        return Ok(());
    }
    out.push(b'.')?;
    Ok(())
}

/// Appends tokens to the group that begins at `start`, with signs before each.
#[tactic(auto, using(crate::proofs::GroupLemmas::tail_append, crate::proofs::GroupLemmas::front_append))]
fn push_by_signs(
    out: &mut Vec<u8>,
    start: usize,
    is_whole: bool,
    tokens: &[LentToken],
) -> Result<(), AllocError>
    requires { start ≤ length out.old.items }
    ensures front { OnOk result (take start out.new.items ≡ take start out.old.items) }
    ensures size { OnOk result (start ≤ length out.new.items) }
    ensures group { OnOk result (drop start out.new.items
        ≡ joined (by_signs (form_of is_whole)) (drop start out.old.items) (map (spell is_whole) tokens.now)) }
{
    let mut is_short = true;
    let mut rest = tokens;
    'walk: while let [token, behind @ ..] = rest {
        push_dot(out, start, is_whole)?;
        let (_, group) = out.as_slice().split_at(start);
        is_short = stays_short(is_short, group);
        out.push(sign(token.before(), behind.is_empty(), is_short))?;
        out.extend_from_slice(spelling(is_whole, token))?;
        rest = behind;
    }
    Ok(())
}

/// Appends tokens to the group that begins at `start`, with the group's own text before each.
#[tactic(auto, using(crate::proofs::GroupLemmas::tail_append, crate::proofs::GroupLemmas::front_append))]
fn push_by_text(
    out: &mut Vec<u8>,
    start: usize,
    own: &[u8],
    is_whole: bool,
    tokens: &[LentToken],
) -> Result<(), AllocError>
    requires { start ≤ length out.old.items }
    ensures front { OnOk result (take start out.new.items ≡ take start out.old.items) }
    ensures size { OnOk result (start ≤ length out.new.items) }
    ensures group { OnOk result (drop start out.new.items
        ≡ joined (by_text own.now) (drop start out.old.items) (map (spell is_whole) tokens.now)) }
{
    let mut rest = tokens;
    'walk: while let [token, behind @ ..] = rest {
        push_text(out, own)?;
        out.extend_from_slice(spelling(is_whole, token))?;
        rest = behind;
    }
    Ok(())
}

/// Appends tokens to the group that begins at `start`, each with what links it to the ones before it.
fn push_others(
    out: &mut Vec<u8>,
    start: usize,
    part: Part<'_>,
    tokens: &[LentToken],
) -> Result<(), AllocError>
    requires { start ≤ length out.old.items }
    ensures front { OnOk result (take start out.new.items ≡ take start out.old.items) }
    ensures size { OnOk result (start ≤ length out.new.items) }
    ensures group { OnOk result (drop start out.new.items
        ≡ joined (between_in part.entry) (drop start out.old.items) (map (spell part.entry.is_whole) tokens.now)) }
{
    if part.has_own {
        push_by_text(out, start, part.own, part.is_whole, tokens)
    } else {
        push_by_signs(out, start, part.is_whole, tokens)
    }
}

/// Appends what a group with a letter gives to `out`.
#[tactic(auto, using(crate::proofs::GroupLemmas::whole_of, crate::proofs::GroupLemmas::tail_append, crate::proofs::GroupLemmas::front_append))]
pub fn push_part(out: &mut Vec<u8>, parts: &LentParts, part: Part<'_>) -> Result<(), AllocError>
    ensures { OnOk result (out.new.items ≡ out.old.items ++ part_output parts.now part.entry) }
{
    if let [first, others @ ..] = parts.named_by(part.letter) {
        let start = out.len();
        push_text(out, part.before)?;
        out.extend_from_slice(spelling(part.is_whole, first))?;
        push_others(out, start, part, others)?;
        push_text(out, part.behind)?;
        finish(out, start);
    }
    Ok(())
}

/// Appends a group without a letter to `out`.
#[tactic(auto, using(crate::proofs::GroupLemmas::whole_of, crate::proofs::GroupLemmas::tail_append, crate::proofs::GroupLemmas::front_append))]
pub fn push_bare(out: &mut Vec<u8>, bytes: &[u8]) -> Result<(), AllocError>
    ensures { OnOk result (out.new.items ≡ out.old.items ++ group_finished bytes.now) }
{
    let start = out.len();
    out.extend_from_slice(bytes)?;
    finish(out, start);
    Ok(())
}
