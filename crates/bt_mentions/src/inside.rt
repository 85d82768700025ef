//! Where a place of an item is, after its key or its macro's name.

ghost use Rattle.std.specs.Prelude.{◌≡◌};
ghost use Rattle.bt_mentions.specs.Inside.{letter_after, name_after, value_after, deeper, braced_after, quoted_after, inside_after, inside_behind, value_role, enclosed_role, inside_role, is_enclosed};

use crate::mention::Role;
use bt_text::{is_digit, is_name_byte, is_white};

/// More braces than this inside a value don't count: a session takes no text that has them.
const MOST_DEPTH: usize = 4_294_967_296;

/// Where a place of an item is, by the bytes before it.
#[derive(Clone, Copy, PartialEq, Eq)]
pub enum Inside {
    /// In a field's name, or around it. The number of letters of `crossref` so far (8: all), or 9 in any other name.
    Name(u8),
    /// In a value, outside of braces and quotes; whether a key can follow: at the beginning of a `crossref` field.
    Value(bool),
    /// In braces of a value, and in this many more; whether they can hold a key.
    Braced(bool, usize),
    /// In quotes of a value, and in this many braces; whether they can hold a key.
    Quoted(bool, usize),
}

fn letter_after(found: u8, byte: u8) -> u8
    ensures { result ≡ letter_after found byte }
{
    match (found, byte.to_ascii_lowercase()) {
        (0, b'c') => 1,
        (1, b'r') => 2,
        (2, b'o') => 3,
        (3, b's') => 4,
        (4, b's') => 5,
        (5, b'r') => 6,
        (6, b'e') => 7,
        (7, b'f') => 8,
        _ => 9,
    }
}

fn name_after(found: u8, byte: u8) -> Inside
    ensures { result ≡ name_after found byte }
{
    if byte == b'=' {
        Inside::Value(found == 8)
    } else if byte == b',' {
        Inside::Name(0)
    } else if is_name_byte(byte) {
        Inside::Name(letter_after(found, byte))
    } else {
        Inside::Name(found)
    }
}

fn value_after(is_crossref: bool, byte: u8) -> Inside
    ensures { result ≡ value_after is_crossref byte }
{
    match byte {
        b'{' => Inside::Braced(is_crossref, 0),
        b'"' => Inside::Quoted(is_crossref, 0),
        b',' => Inside::Name(0),
        b'#' => Inside::Value(false),
        _ => Inside::Value(is_crossref),
    }
}

fn deeper(depth: usize) -> usize
    ensures { result ≡ deeper depth }
{
    if depth < MOST_DEPTH { depth + 1 } else { depth }
}

fn braced_after(is_crossref: bool, depth: usize, byte: u8) -> Inside
    ensures { result ≡ braced_after is_crossref depth byte }
{
    if byte == b'{' {
        Inside::Braced(is_crossref, deeper(depth))
    } else if byte == b'}' {
        if depth == 0 {
            Inside::Value(false)
        } else {
            Inside::Braced(is_crossref, depth - 1)
        }
    } else {
        Inside::Braced(is_crossref, depth)
    }
}

fn quoted_after(is_crossref: bool, depth: usize, byte: u8) -> Inside
    ensures { result ≡ quoted_after is_crossref depth byte }
{
    if byte == b'{' {
        Inside::Quoted(is_crossref, deeper(depth))
    } else if byte == b'}' {
        Inside::Quoted(is_crossref, depth.saturating_sub(1))
    } else if byte == b'"' && depth == 0 {
        Inside::Value(false)
    } else {
        Inside::Quoted(is_crossref, depth)
    }
}

/// Where the next place is.
pub fn inside_after(before: Inside, byte: u8) -> Inside
    ensures { result ≡ inside_after before byte }
{
    match before {
        Inside::Name(found) => name_after(found, byte),
        Inside::Value(is_crossref) => value_after(is_crossref, byte),
        Inside::Braced(is_crossref, depth) => braced_after(is_crossref, depth, byte),
        Inside::Quoted(is_crossref, depth) => quoted_after(is_crossref, depth, byte),
    }
}

/// Where these bytes end, which follow an item's opening sign.
pub fn inside_behind(text: &[u8]) -> Inside
    ensures { result ≡ inside_behind text.now }
{
    let mut state = Inside::Name(9);
    'bytes: for byte in text {
        state = inside_after(state, *byte);
    }
    state
}

fn value_role(is_crossref: bool, byte: u8) -> Option<Role>
    ensures { result ≡ value_role is_crossref byte }
{
    if is_crossref && is_digit(byte) {
        Some(Role::Number)
    } else if is_name_byte(byte) {
        Some(Role::Macro)
    } else {
        None
    }
}

fn enclosed_role(is_crossref: bool, depth: usize, close: u8, byte: u8) -> Option<Role>
    ensures { result ≡ enclosed_role is_crossref depth close byte }
{
    if is_crossref && !is_white(byte) && !(byte == close && depth == 0) {
        Some(Role::Crossref)
    } else {
        None
    }
}

/// What a byte at such a place is a part of.
pub fn inside_role(at: Inside, byte: u8) -> Option<Role>
    ensures { result ≡ inside_role at byte }
{
    match at {
        Inside::Name(_) => None,
        Inside::Value(is_crossref) => value_role(is_crossref, byte),
        Inside::Braced(is_crossref, depth) => enclosed_role(is_crossref, depth, b'}', byte),
        Inside::Quoted(is_crossref, depth) => enclosed_role(is_crossref, depth, b'"', byte),
    }
}

/// Whether a place is in braces or quotes.
pub fn is_enclosed(inside: Inside) -> bool
    ensures { result ≡ is_enclosed inside }
{
    match inside {
        Inside::Name(_) | Inside::Value(_) => false,
        Inside::Braced(_, _) | Inside::Quoted(_, _) => true,
    }
}
