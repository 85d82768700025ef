//! Where the entries of a database have their keys: what a message about an entry is shown at.
//!
//! This is asked after each change of a text, so it doesn't read the database, which takes as long as the rest of the
//! change. It looks at each `@`: what follows like the beginning of an entry is taken for one, inside of a value too.

ghost use Rattle.std.specs.Prelude.{◌≡◌, ◌≤◌, ◌<◌, ◌+◌, ◌^◌, length, IfOk, IfSome};
ghost use Rattle.std.specs.List.{prefix_len};
ghost use Rattle.bt_mentions.specs.Keys.{is_type_byte, is_plain_key_byte, is_entry_type, before_key, key_after, entry_key, entry_keys};

use crate::databases::is_opening;
use crate::mention::{Mention, Role};
use bt_text::{Sequence, eq_ignore_ascii_case, is_white, white_run};
use memchr::memchr;
use std::alloc::{AllocError, Global};

/// A key is cut after this many bytes, so that the search takes linear time.
const KEY_BYTES: usize = 250;

fn is_type_byte(byte: u8) -> bool
    ensures { result ≡ is_type_byte byte }
{
    !is_white(byte) && byte != b'@' && byte != b'{' && byte != b'(' && byte != b'}' && byte != b','
}

fn is_plain_key_byte(byte: u8) -> bool
    ensures { result ≡ is_plain_key_byte byte }
{
    !is_white(byte) && byte != b',' && byte != b'}'
}

/// Whether entries can have a type.
fn is_entry_type(name: &[u8]) -> bool
    ensures { result ≡ is_entry_type name.now }
{
    !name.is_empty()
        && !eq_ignore_ascii_case(name, b"string")
        && !eq_ignore_ascii_case(name, b"preamble")
        && !eq_ignore_ascii_case(name, b"comment")
}

fn type_len(text: &[u8]) -> usize
    ensures within { result ≤ length text.now }
    ensures len { result ≡ prefix_len is_type_byte text.now }
{
    text.iter().take_while(|byte| is_type_byte(**byte)).count()
}

fn key_len(text: &[u8]) -> usize
    ensures within { result ≤ length text.now }
    ensures len { result ≡ prefix_len is_plain_key_byte text.now }
{
    text.iter()
        .take_while(|byte| is_plain_key_byte(**byte))
        .count()
}

/// How many bytes follow an `@` up to a key, if an entry begins there.
fn before_key(text: &[u8]) -> Option<usize>
    ensures value { result ≡ before_key text.now }
    ensures within { IfSome result (λ n. n ≤ length text.now) }
{
    let (name, rest) = text.split_at(type_len(text));
    let space = white_run(rest);
    match rest.split_at(space).1 {
        [sign, inside @ ..] => if is_opening(*sign) && is_entry_type(name) {
            Some(name.len() + space + 1 + white_run(inside))
        } else {
            None
        },
        [] => None,
    }
}

/// The key that a text begins with, whose place is given.
fn key_after(text: &[u8], place: usize) -> Mention
    requires { place + length text.now < 2 ^ 64 }
    ensures { result ≡ key_after text.now place }
{
    let (front, _) = text.split_at(text.len().min(KEY_BYTES));
    Mention {
        from: place,
        to: place + key_len(front),
        role: Role::Key,
    }
}

/// The key of the entry that begins with an `@` before this text, if one does.
fn entry_key(text: &[u8], place: usize) -> Option<Mention>
    requires { place + length text.now < 2 ^ 64 }
    ensures { result ≡ entry_key text.now place }
{
    match before_key(text) {
        Some(count) => Some(key_after(text.split_at(count).1, place + count)),
        None => None,
    }
}

/// The keys of a database's entries, in order.
pub fn entry_keys(alloc: Global, text: &[u8]) -> Result<Sequence<Mention>, AllocError>
    ensures { IfOk result (λ found. found ≡ entry_keys text.now) }
{
    let mut found = Sequence::new(alloc);
    let mut place = 0;
    let mut rest = text;
    'entries: while let Some(count) = memchr(b'@', rest) {
        let (_, others) = rest.split_at(count + 1);
        rest = others;
        place += count + 1;
        found.push_if_any(entry_key(rest, place))?;
    }
    Ok(found)
}
