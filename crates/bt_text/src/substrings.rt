//! Where a part of a text is.

ghost use Rattle.std.specs.Prelude.{◌≡◌, ◌≤◌, ◌+◌, ◌-◌, ℕ, IfOk, List, length, take, drop};
ghost use Rattle.bt_text.specs.Substrings.{last_bytes, substring_of};

use crate::bytes::Bytes;
use std::alloc::{AllocError, Global};

/// At most `len` bytes from a place on.
fn place_from(count: usize, place: usize, len: usize) -> (usize, usize)
    ensures within { result.0 + result.1 ≤ count }
    ensures part { (t : List ℕ) → length t ≡ count → take result.1 (drop result.0 t) ≡ take len (drop place t) }
{
    let from = place.min(count);
    (from, len.min(count - from))
}

/// At most `len` bytes that end before the last `behind` bytes.
fn place_up_to(count: usize, behind: usize, len: usize) -> (usize, usize)
    ensures within { result.0 + result.1 ≤ count }
    ensures part { (t : List ℕ) → length t ≡ count
        → take result.1 (drop result.0 t) ≡ last_bytes len (take (length t - behind) t) }
{
    let end = count.saturating_sub(behind);
    let from = end.saturating_sub(len);
    (from, end - from)
}

/// At most `len` bytes of a text of `count` bytes: those from `start` on, counted from 1, or those up to `-start` from the
/// end. The first number is the place of the first of them, the second says how many they are.
pub fn part_place(count: usize, start: i32, len: i32) -> (usize, usize)
    ensures within { result.0 + result.1 ≤ count }
    ensures part { (t : List ℕ) → length t ≡ count → take result.1 (drop result.0 t) ≡ substring_of t start len }
{
    if len < 0 || start == 0 {
        (0, 0)
    } else if 0 < start {
        place_from(count, start as usize - 1, len as usize)
    } else {
        place_up_to(count, (-1 - start) as usize, len as usize)
    }
}

/// A copy of the part of a text that `part_place` finds.
pub fn substring(alloc: Global, text: &[u8], start: i32, len: i32) -> Result<Bytes, AllocError>
    ensures { IfOk result (λ part. part ≡ substring_of text.now start len) }
{
    let (from, len) = part_place(text.len(), start, len);
    let (_, rest) = text.split_at(from);
    let (part, _) = rest.split_at(len);
    Bytes::copied(alloc, part)
}
