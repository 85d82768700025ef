//! The state of a scan.

ghost use Rattle.std.specs.Prelude.{◌≡◌};
ghost use Rattle.bt_mentions.specs.State.{state_after, role_at, is_open};

use crate::citing::{Citing, are_keys, citing_after};
use crate::inside::{Inside, inside_after, inside_role, is_enclosed};
use crate::key_bytes::is_cited_byte;
use crate::mention::Role;

/// Where a place is: in an item of a database, or in a text with citations.
#[derive(Clone, Copy, PartialEq, Eq)]
pub enum State {
    Item(Inside),
    /// Whether the text is LaTeX, and where in it.
    Text(bool, Citing),
}

/// The state after one more byte.
pub fn state_after(before: State, byte: u8) -> State
    ensures { result ≡ state_after before byte }
{
    match before {
        State::Item(inside) => State::Item(inside_after(inside, byte)),
        State::Text(in_latex, citing) => State::Text(in_latex, citing_after(citing, byte)),
    }
}

/// What a byte at such a place is a part of.
pub fn role_at(state: State, byte: u8) -> Option<Role>
    ensures { result ≡ role_at state byte }
{
    match state {
        State::Item(inside) => inside_role(inside, byte),
        State::Text(in_latex, citing) => if are_keys(citing) && is_cited_byte(in_latex, byte) {
            Some(Role::Citation)
        } else {
            None
        },
    }
}

/// Whether braces or quotes of an item are open at such a place.
pub fn is_open(state: State) -> bool
    ensures { result ≡ is_open state }
{
    match state {
        State::Item(inside) => is_enclosed(inside),
        State::Text(_, _) => false,
    }
}
