//! The mentions of a text: longest runs of bytes that belong to a name, by the state of the scan.

ghost use Rattle.std.specs.Prelude.{◌≡◌, ◌<◌, ◌+◌, ◌^◌, ◌++◌, [], length, IfOk, OnOk};
ghost use Rattle.std.specs.List.{fold};
ghost use Rattle.bt_mentions.specs.Scan.{is_kept, current_after, mention_before, scan_after, all_found, citations};

use crate::citing::Citing;
use crate::mention::{Mention, Role, is_parent};
use crate::state::{State, is_open, role_at, state_after};
use bt_text::Sequence;
use std::alloc::{AllocError, Global};

/// A scan that has come to a place.
#[derive(Drop)]
pub struct Scan {
    pub state: State,
    pub place: usize,
    /// The mention before the place, if there is one.
    pub current: Option<Mention>,
    /// The mentions before it.
    pub found: Sequence<Mention>,
}

/// Whether a mention stays the current one after a byte that isn't part of it. A parent's key does up to the comma, because a
/// `#` before that makes the value no key.
fn is_kept(role: Role, byte: u8) -> bool
    ensures { result ≡ is_kept role byte }
{
    is_parent(role) && byte != b',' && byte != b'#'
}

fn current_after(
    role: Option<Role>,
    byte: u8,
    place: usize,
    current: Option<Mention>,
) -> Option<Mention>
    requires { place + 1 < 2 ^ 64 }
    ensures { result ≡ current_after role byte place current }
{
    match (role, current) {
        (None, None) => None,
        (None, Some(one)) => if is_kept(one.role, byte) {
            Some(one)
        } else {
            None
        },
        (Some(role), None) => Some(Mention {
            from: place,
            to: place + 1,
            role,
        }),
        (Some(_), Some(one)) => Some(Mention {
            from: one.from,
            to: place + 1,
            role: one.role,
        }),
    }
}

fn mention_before(role: Option<Role>, byte: u8, current: Option<Mention>) -> Option<Mention>
    ensures { result ≡ mention_before role byte current }
{
    match (role, current) {
        (None, Some(one)) => if is_parent(one.role) && byte != b',' {
            None
        } else {
            Some(one)
        },
        (None, None) => None,
        (Some(_), _) => None,
    }
}

impl Scan {
    fn take(&mut self, byte: u8) -> Result<(), AllocError>
        requires { self.old.place + 1 < 2 ^ 64 }
        ensures { OnOk result (self.new ≡ scan_after self.old byte) }
    {
        let role = role_at(self.state, byte);
        self.found
            .push_if_any(mention_before(role, byte, self.current))?;
        self.current = current_after(role, byte, self.place, self.current);
        self.state = state_after(self.state, byte);
        self.place += 1;
        Ok(())
    }

    /// The mentions, and the one that the bytes end with. A text that isn't closed is none.
    fn into_found(self) -> Result<Sequence<Mention>, AllocError>
        ensures { IfOk result (λ found. found ≡ all_found self) }
    {
        let Scan {
            state,
            current,
            found,
            ..
        } = self;
        let mut all = found;
        if !is_open(state) {
            all.push_if_any(current)?;
        }
        Ok(all)
    }

    /// The mentions up to the end of the bytes that follow.
    pub fn over(self, text: &[u8]) -> Result<Sequence<Mention>, AllocError>
        requires { self.place + length text.now < 2 ^ 64 }
        ensures { IfOk result (λ found. found ≡ all_found (fold scan_after self text.now)) }
    {
        let mut scan = self;
        'bytes: for byte in text {
            scan.take(*byte)?;
        }
        scan.into_found()
    }
}

/// The keys that a text cites. In LaTeX a `%` ends a key.
pub fn citations(
    alloc: Global,
    in_latex: bool,
    text: &[u8],
) -> Result<Sequence<Mention>, AllocError>
    ensures { IfOk result (λ found. found ≡ citations in_latex text.now) }
{
    let scan = Scan {
        state: State::Text(in_latex, Citing::Outside),
        place: 0,
        current: None,
        found: Sequence::new(alloc),
    };
    scan.over(text)
}
