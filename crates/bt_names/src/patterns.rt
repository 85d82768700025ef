//! The groups of a pattern, their letters, and the faults of a pattern.

ghost use Rattle.std.specs.Prelude.{◌≡◌, ◌<◌, ◌≤◌, ◌-◌, ◌+◌, ◌==◌, [], ◌∷◌, IfSome, IfNone, IsTrue, None, if◌then◌else◌, length, take, drop, slice_index, slice_get};
ghost use Rattle.bt_text.specs.Blocks.{begins_group, blocks};
ghost use Rattle.bt_text.specs.Depth.{depth, depth_at};
ghost use Rattle.bt_names.specs.Patterns.{block_fault, inside_group, is_doubled_at, letter_end, letter_fault, letter_places, letters_from, names_part, pattern_fault};
ghost use Rattle.bt_names.specs.inner.Patterns.{IsLetterPlace};

use bt_text::{block_len, depth_after, depth_of, is_letter};

/// Whether a block is a group.
pub fn begins_group(block: &[u8]) -> bool
    ensures { result ≡ begins_group block.now }
{
    matches!(block, [b'{', ..])
}

/// Whether the first block of a text, which has `len` bytes, leaves no brace open. Only the last block can leave one open.
#[tactic(auto, using(crate::proofs::ClosedLemmas::closed_unless_last, crate::proofs::ClosedLemmas::last_is_whole))]
fn is_closed(text: &[u8], len: usize) -> bool
    requires { blocks text.now ≡ take len text.now ∷ blocks (drop len text.now) }
    ensures { result ≡ (depth (take len text.now) == 0) }
{
    if len < text.len() {
        true
    } else {
        depth_of(text) == 0
    }
}

fn inside_of(group: &[u8], is_closed: bool) -> &[u8]
    requires { is_closed ≡ (depth group.now == 0) }
    ensures value { result.now ≡ inside_group group.now }
    ensures shorter { length result.now ≤ length group.now - 1 }
{
    let behind = group.get(1..).unwrap_or(&[]);
    if is_closed {
        &behind[..behind.len().saturating_sub(1)]
    } else {
        behind
    }
}

/// What stands inside a group without a fault, which has its right brace.
#[tactic(auto, using(crate::proofs::SoundLemmas::sound_closed))]
pub fn inside_sound(group: &[u8]) -> &[u8]
    requires group { IsTrue (begins_group group.now) }
    requires sound { block_fault group.now ≡ None }
    ensures { result.now ≡ inside_group group.now }
{
    inside_of(group, true)
}

/// What stands inside a group.
pub fn inside(group: &[u8]) -> &[u8]
    ensures { result.now ≡ inside_group group.now }
{
    inside_of(group, depth_of(group) == 0)
}

/// The first letter at depth 0 of what stands inside a group, from a place on.
#[tactic(auto, using(crate::proofs::PatternLemmas::letters))]
pub fn next_letter(text: &[u8], start: usize) -> Option<usize>
    requires flat { depth_at text.now start ≡ 0 }
    ensures first { result ≡ slice_get (letters_from text.now start) 0 }
    ensures others { IfSome result (λ i. letters_from text.now start ≡ i ∷ letters_from text.now (i + 1)) }
    ensures none { IfNone result (letters_from text.now start ≡ []) }
    ensures place { IfSome result (IsLetterPlace text.now) }
{
    let mut depth = 0;
    let mut place = start;
    'walk: while place < text.len() {
        if depth == 0 && is_letter(text[place]) {
            return Some(place);
        }
        depth = depth_after(depth, text[place]);
        place += 1;
    }
    None
}

fn names_part(byte: u8) -> bool
    ensures { result ≡ names_part byte }
{
    matches!(byte.to_ascii_lowercase(), b'f' | b'v' | b'l' | b'j')
}

/// The byte at a place, or 0 after the end.
fn byte_at(text: &[u8], place: usize) -> u8
    ensures { result ≡ slice_index text.now place }
{
    text.get(place).copied().unwrap_or(0)
}

/// Whether the letter at a place is doubled, in either case.
pub fn is_doubled_at(text: &[u8], place: usize) -> bool
    requires { place < length text.now }
    ensures { result ≡ is_doubled_at text.now place }
{
    byte_at(text, place).to_ascii_lowercase() == byte_at(text, place + 1).to_ascii_lowercase()
}

/// The place after a letter, or after both if it is doubled.
pub fn letter_end(text: &[u8], place: usize) -> usize
    requires { IsLetterPlace text.now place }
    ensures end { result ≡ letter_end text.now place }
    ensures within { result ≤ length text.now }
    ensures flat { depth_at text.now result ≡ 0 }
    ensures letters { (if is_doubled_at text.now place
        then drop 1 (letters_from text.now (place + 1))
        else letters_from text.now (place + 1)) ≡ letters_from text.now result }
{
    if is_doubled_at(text, place) {
        place + 2
    } else {
        place + 1
    }
}

fn letter_fault(text: &[u8]) -> Option<usize>
    ensures place { result ≡ letter_fault text.now (letter_places text.now) }
    ensures within { IfSome result (λ i. i < length text.now) }
{
    match next_letter(text, 0) {
        None => None,
        Some(place) => {
            if names_part(text[place]) {
                next_letter(text, letter_end(text, place))
            } else {
                Some(place)
            }
        }
    }
}

/// The first fault of a group: a letter, or its end.
fn group_fault(group: &[u8], is_closed: bool) -> Option<usize>
    requires group { IsTrue (begins_group group.now) }
    requires closed { is_closed ≡ (depth group.now == 0) }
    ensures place { result ≡ block_fault group.now }
    ensures within { IfSome result (λ i. i ≤ length group.now) }
{
    match letter_fault(inside_of(group, is_closed)) {
        Some(place) => Some(1 + place),
        None => { if is_closed { None } else { Some(group.len()) } }
    }
}

fn block_fault(block: &[u8], is_closed: bool) -> Option<usize>
    requires { is_closed ≡ (depth block.now == 0) }
    ensures place { result ≡ block_fault block.now }
    ensures within { IfSome result (λ i. i ≤ length block.now) }
{
    match block {
        [b'{', ..] => group_fault(block, is_closed),
        [b'}'] => Some(0),
        _ => None,
    }
}

/// The place of a pattern's first fault.
pub fn pattern_fault(pattern: &[u8]) -> Option<usize>
    ensures { result ≡ pattern_fault pattern.now }
{
    let mut start = 0;
    'walk: while start < pattern.len() {
        let (_, rest) = pattern.split_at(start);
        let len = block_len(rest);
        let (block, _) = rest.split_at(len);
        if let Some(place) = block_fault(block, is_closed(rest, len)) {
            return Some(start + place);
        }
        start += len;
    }
    None
}
