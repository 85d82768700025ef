//! The names that a text lists.
//!
//! The definition looks at each place whether `and` stands there at depth 0. The code does so in one pass with a depth
//! counter, and allocates nothing: `num.names$` only counts, and `format.name$` looks at one name.

ghost use Rattle.std.specs.Prelude.{◌≡◌, ◌<◌, ◌≤◌, ◌-◌, ◌==◌, ◌&&◌, ◌||◌, length, drop, slice_range, slice_get, IfSome, IfNone, Some, None};
ghost use Rattle.bt_text.specs.Depth.{depth_after};
ghost use Rattle.bt_names.specs.Names.{begins_with_and, has_and_at, follows_white, name_at, names_of};

use bt_text::{depth_after, eq_ignore_ascii_case, is_white};

/// Whether a text begins with `and` in any case, and white space directly after it.
fn begins_with_and(text: &[u8]) -> bool
    ensures { result ≡ begins_with_and text.now }
{
    match text {
        [a, n, d, behind, ..] => eq_ignore_ascii_case(&[*a, *n, *d], b"and") && is_white(*behind),
        _ => false,
    }
}

fn follows_white(text: &[u8], place: usize) -> bool
    requires { place < length text.now }
    ensures { result ≡ follows_white text.now place }
{
    0 < place && is_white(text[place - 1])
}

/// Whether a separator stands at a place: `and` with white space on both sides.
#[tactic(auto, using(crate::proofs::ListingLemmas::and_at))]
fn has_and_at(text: &[u8], place: usize) -> bool
    requires { place < length text.now }
    ensures { result ≡ has_and_at text.now place }
{
    let (_, rest) = text.split_at(place);
    follows_white(text, place) && begins_with_and(rest)
}

/// A brace, or the first letter of a separator. Most bytes are neither, and need no further test.
fn is_mark(byte: u8) -> bool
    ensures { result ≡ (byte == 97 || byte == 65 || byte == 123 || byte == 125) }
{
    matches!(byte, b'a' | b'A' | b'{' | b'}')
}

fn separates(names: &[u8], place: usize, depth: usize) -> bool
    requires { place < length names.now }
    ensures { result ≡ (depth == 0 && has_and_at names.now place) }
{
    depth == 0 && has_and_at(names, place)
}

/// The depth after a mark. It stands apart, because the loops below would compute it at each byte.
#[inline(never)]
fn depth_after_mark(depth: usize, mark: u8) -> usize
    requires { depth < usize.MAX }
    ensures { result ≡ depth_after depth mark }
{
    depth_after(depth, mark)
}

/// How many names a text lists: one more than there are separators outside of braces, and none if it is empty.
#[tactic(auto, using(crate::proofs::ListingLemmas::counting))]
pub fn count(names: &[u8]) -> usize
    ensures { result ≡ length (names_of names.now) }
{
    if names.is_empty() {
        return 0;
    }
    let mut count = 1;
    let mut depth = 0;
    'walk: for place in 0..names.len() {
        let byte = names[place];
        if !is_mark(byte) {
            continue;
        }
        if separates(names, place, depth) {
            count += 1;
        }
        depth = depth_after_mark(depth, byte);
    }
    count
}

fn between(text: &[u8], start: usize, end: usize) -> &[u8]
    requires { end ≤ length text.now }
    ensures { result.now ≡ slice_range text.now start end }
{
    text.get(start..end).unwrap_or(&[])
}

fn from_place(text: &[u8], start: usize) -> &[u8]
    ensures { result.now ≡ drop start text.now }
{
    text.get(start..).unwrap_or(&[])
}

/// The name with this number of names before it.
#[tactic(auto, using(crate::proofs::ListingLemmas::naming))]
fn name_after(names: &[u8], before: usize) -> Option<&[u8]>
    requires { 0 < length names.now }
    ensures some { IfSome result (λ name. slice_get (names_of names.now) before ≡ Some name.now) }
    ensures none { IfNone result (slice_get (names_of names.now) before ≡ None) }
{
    let mut left = before;
    let mut start = 0;
    let mut depth = 0;
    'walk: for place in 0..names.len() {
        let byte = names[place];
        if !is_mark(byte) {
            continue;
        }
        if separates(names, place, depth) {
            if left == 0 {
                return Some(between(names, start, place));
            }
            left -= 1;
            start = place + 3;
        }
        depth = depth_after_mark(depth, byte);
    }
    if left == 0 {
        Some(from_place(names, start))
    } else {
        None
    }
}

/// The n-th name that a text lists, counted from 1.
#[tactic(auto, using(crate::proofs::ListingLemmas::no_name))]
pub fn name_at(names: &[u8], n: i32) -> Option<&[u8]>
    ensures some { IfSome result (λ name. name_at names.now n ≡ Some name.now) }
    ensures none { IfNone result (name_at names.now n ≡ None) }
{
    if n <= 0 || names.is_empty() {
        None
    } else {
        name_after(names, n as usize - 1)
    }
}
