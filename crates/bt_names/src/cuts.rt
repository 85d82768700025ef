//! Cuts a name at its commas and into its tokens.
//!
//! The definition cuts the whole name into blocks, the blocks into sections and the sections into runs. The code goes
//! once over the bytes of each section, and appends the tokens of all sections to one vector.

ghost use Rattle.std.specs.Prelude.{◌≡◌, ◌<◌, ◌≤◌, [], ◌∷◌, ◌++◌, ◌==◌, nat_lt, if◌then◌else◌, IfOk, OnOk, IfSome, IfNone, IsTrue, length, take, drop, count_by};
ghost use Rattle.std.specs.List.{prefix_len};
ghost use Rattle.bt_text.specs.Blocks.{blocks};
ghost use Rattle.bt_names.specs.Cuts.{is_parting, lead_after, runs, sign_of, tokens};
ghost use Rattle.bt_names.specs.NameParts.{section_tokens};
ghost use Rattle.bt_names.specs.inner.Cases.{is_comma};
ghost use Rattle.bt_names.specs.inner.Cuts.{begins_token, first_section, other_sections, sections_from};

use crate::lent_tokens::LentToken;
use bt_text::{block_len, is_white};
use std::alloc::AllocError;

/// How many bytes the first block has. Most blocks are one byte, which is known at once.
#[tactic(auto, using(crate::proofs::SectionLemmas::single_first))]
pub fn first_len(text: &[u8]) -> usize
    requires { 0 < length text.now }
    ensures some { 0 < result }
    ensures within { result ≤ length text.now }
    ensures first { blocks text.now ≡ take result text.now ∷ blocks (drop result text.now) }
{
    if text[0] == b'{' { block_len(text) } else { 1 }
}

fn is_comma(block: &[u8]) -> bool
    ensures { result ≡ is_comma block.now }
{
    matches!(block, [b','])
}

/// How many commas a name has, at any depth.
fn comma_bytes(name: &[u8]) -> usize
    ensures { result ≡ count_by (λ b. b == 44) name.now }
{
    let mut count = 0;
    for byte in name {
        if *byte == b',' {
            count += 1;
        }
    }
    count
}

/// How many commas a name has at depth 0.
fn comma_count(name: &[u8]) -> usize
    ensures { result ≡ count_by is_comma (blocks name.now) }
{
    let mut count = 0;
    let mut rest = name;
    'walk: while !rest.is_empty() {
        let (block, behind) = rest.split_at(first_len(rest));
        if is_comma(block) {
            count += 1;
        }
        rest = behind;
    }
    count
}

/// Whether a name has more than two commas at depth 0. Names have few commas at any depth, and these are counted fast.
#[tactic(auto, using(crate::proofs::SectionLemmas::commas_most))]
pub fn has_many_commas(name: &[u8]) -> bool
    ensures { result ≡ nat_lt 2 (count_by is_comma (blocks name.now)) }
{
    2 < comma_bytes(name) && 2 < comma_count(name)
}

/// Most bytes of a name are letters; for them two comparisons are enough.
#[tactic(auto, using(crate::proofs::SectionLemmas::parting_low, crate::proofs::SectionLemmas::parting_high))]
fn is_parting(byte: u8) -> bool
    ensures { result ≡ is_parting byte }
{
    if byte < b'A' {
        is_white(byte) || byte == b'-'
    } else {
        byte == b'~'
    }
}

fn gap_len(text: &[u8]) -> usize
    ensures within { result ≤ length text.now }
    ensures len { result ≡ prefix_len is_parting text.now }
{
    text.iter().take_while(|byte| is_parting(**byte)).count()
}

/// A gap is known by its first byte. Any white byte counts as a space.
fn sign_of(gap: &[u8]) -> u8
    ensures { result ≡ sign_of gap.now }
{
    match gap {
        [] => 0,
        [first, ..] => { if is_white(*first) { b' ' } else { *first } }
    }
}

/// What comes before a token of a section: `lead` before the first one. `start` tokens were found before the section.
fn sign_or_lead(found: &[LentToken], start: usize, lead: u8, gap: &[u8]) -> u8
    requires { start ≤ length found.now }
    ensures { result ≡ (if length (drop start found.now) == 0 then lead else sign_of gap.now) }
{
    if found.len() == start {
        lead
    } else {
        sign_of(gap)
    }
}

fn begins_token(text: &[u8]) -> bool
    ensures { result ≡ begins_token text.now }
{
    match text {
        [] => false,
        [first, ..] => !is_parting(*first) && *first != b',',
    }
}

fn token_len(text: &[u8]) -> usize
    requires { IsTrue (begins_token text.now) }
    ensures some { 0 < result }
    ensures within { result ≤ length text.now }
    ensures token { runs (first_section text.now)
        ≡ record { gap = []; text = take result text.now } ∷ runs (first_section (drop result text.now)) }
    ensures others { other_sections (drop result text.now) ≡ other_sections text.now }
{
    let mut len = 0;
    'walk: loop {
        let (_, rest) = text.split_at(len);
        if !begins_token(rest) {
            return len;
        }
        len += first_len(rest);
    }
}

fn push_token<'a>(
    found: &mut Vec<LentToken<'a>>,
    text: &'a [u8],
    before: u8,
) -> Result<(), AllocError>
    ensures { OnOk result (found.new.items ≡ found.old.items ++ record { text = text.now; before = before } ∷ []) }
{
    found.push(LentToken::new(text, before))?;
    Ok(())
}

/// `start` is how many tokens were found before the section.
fn push_tokens<'a>(
    found: &mut Vec<LentToken<'a>>,
    start: usize,
    text: &'a [u8],
    lead: u8,
) -> Result<&'a [u8], AllocError>
    requires { start ≡ length found.old.items }
    ensures tokens { OnOk result (found.new.items
        ≡ found.old.items ++ tokens lead (runs (first_section text.now))) }
    ensures rest { IfOk result (λ rest. other_sections rest.now ≡ other_sections text.now) }
{
    let mut rest = text;
    'walk: loop {
        let (gap, behind) = rest.split_at(gap_len(rest));
        if !begins_token(behind) {
            return Ok(behind);
        }
        let (token, after) = behind.split_at(token_len(behind));
        let before = sign_or_lead(found, start, lead, gap);
        push_token(found, token, before)?;
        rest = after;
    }
}

/// What comes before the first token of a section that follows these tokens.
fn lead_after(tokens: &[LentToken]) -> u8
    ensures { result ≡ lead_after tokens.now }
{
    if tokens.is_empty() { 0 } else { b',' }
}

/// Appends the tokens up to the first comma to those found before, and returns the rest of the text.
pub fn push_section<'a>(
    found: &mut Vec<LentToken<'a>>,
    text: &'a [u8],
) -> Result<&'a [u8], AllocError>
    ensures tokens { OnOk result (found.new.items
        ≡ found.old.items ++ section_tokens found.old.items (first_section text.now)) }
    ensures rest { IfOk result (λ rest. other_sections rest.now ≡ other_sections text.now) }
{
    let lead = lead_after(found);
    let start = found.len();
    push_tokens(found, start, text, lead)
}

/// What stands after the first comma at depth 0.
pub fn after_comma(text: &[u8]) -> Option<&[u8]>
    ensures some { IfSome result (λ rest. other_sections text.now ≡ sections_from rest.now) }
    ensures none { IfNone result (other_sections text.now ≡ []) }
{
    let mut rest = text;
    'walk: while !rest.is_empty() {
        let (block, behind) = rest.split_at(first_len(rest));
        if is_comma(block) {
            return Some(behind);
        }
        rest = behind;
    }
    None
}
