//! The files that a LaTeX text or an `.aux` file names, in arguments of commands such as `\bibliography` and `\input`.

ghost use Rattle.std.specs.Prelude.{◌≡◌, ◌<◌, ◌+◌, ◌^◌, IfOk, OnOk};
ghost use Rattle.bt_mentions.specs.Links.{kind_of, is_command_byte, ends_name, before_after, after_command, in_argument, linking_after, link_before, link_after, links};

use crate::databases::part;
use bt_text::{Sequence, is_white};
use std::alloc::{AllocError, Global};

/// What a file is that a text names.
#[derive(Clone, Copy, PartialEq, Eq)]
pub enum LinkKind {
    Database,
    Style,
    /// A part of the text, or an `.aux` file.
    Text,
}

/// A file's name in a text, by the offsets of its beginning and its end.
#[derive(Clone, Copy, PartialEq, Eq)]
pub struct Link {
    pub from: usize,
    pub to: usize,
    pub kind: LinkKind,
}

/// Where a place is, by the bytes before it.
#[derive(Clone, Copy, PartialEq, Eq)]
pub enum Linking {
    /// In no command.
    Outside,
    /// In the name of a command, which begins at this place.
    Command(usize),
    /// Before an option or the argument of a command that names files.
    Ahead(LinkKind),
    /// In an option of one.
    Choice(LinkKind),
    /// In its argument, between names.
    Argument(LinkKind),
    /// In a file's name, which begins at this place.
    File(LinkKind, usize),
}

/// A scan that has come to a place.
#[derive(Drop)]
pub struct LinkScan {
    pub state: Linking,
    pub place: usize,
    pub found: Sequence<Link>,
}

/// What a command's argument names, if it names files.
fn kind_of(command: &[u8]) -> Option<LinkKind>
    ensures { result ≡ kind_of command.now }
{
    if command == b"bibliography".as_slice()
        || command == b"bibdata".as_slice()
        || command == b"addbibresource".as_slice()
    {
        Some(LinkKind::Database)
    } else if command == b"bibliographystyle".as_slice() || command == b"bibstyle".as_slice() {
        Some(LinkKind::Style)
    } else if command == b"input".as_slice()
        || command == b"include".as_slice()
        || command == b"@input".as_slice()
    {
        Some(LinkKind::Text)
    } else {
        None
    }
}

fn is_command_byte(byte: u8) -> bool
    ensures { result ≡ is_command_byte byte }
{
    let letter = byte.to_ascii_lowercase();
    b'a' <= letter && letter <= b'z' || byte == b'@'
}

fn ends_name(byte: u8) -> bool
    ensures { result ≡ ends_name byte }
{
    byte == b'}' || byte == b',' || is_white(byte)
}

/// Where a place is after a byte that follows the name or an option of a command that names files.
fn before_after(kind: LinkKind, place: usize, byte: u8) -> Linking
    requires { place + 1 < 2 ^ 64 }
    ensures { result ≡ before_after kind place byte }
{
    if byte == b'[' {
        Linking::Choice(kind)
    } else if byte == b'{' {
        Linking::Argument(kind)
    } else if byte == b'\\' {
        Linking::Command(place + 1)
    } else if is_white(byte) {
        Linking::Ahead(kind)
    } else {
        Linking::Outside
    }
}

/// The same after the name of any command, or outside of all.
fn after_command(kind: Option<LinkKind>, place: usize, byte: u8) -> Linking
    requires { place + 1 < 2 ^ 64 }
    ensures { result ≡ after_command kind place byte }
{
    match kind {
        Some(kind) => before_after(kind, place, byte),
        None => if byte == b'\\' {
            Linking::Command(place + 1)
        } else {
            Linking::Outside
        },
    }
}

/// Where a place is after a byte of an argument that belongs to no name.
fn in_argument(kind: LinkKind, place: usize, byte: u8) -> Linking
    ensures { result ≡ in_argument kind place byte }
{
    if byte == b'}' {
        Linking::Outside
    } else if ends_name(byte) {
        Linking::Argument(kind)
    } else {
        Linking::File(kind, place)
    }
}

/// Where the next place is, after a byte at a place of a text.
fn linking_after(text: &[u8], place: usize, before: Linking, byte: u8) -> Linking
    requires { place + 1 < 2 ^ 64 }
    ensures { result ≡ linking_after text.now place before byte }
{
    match before {
        Linking::Outside => after_command(None, place, byte),
        Linking::Command(from) => if is_command_byte(byte) {
            Linking::Command(from)
        } else {
            after_command(kind_of(part(text, from, place)), place, byte)
        },
        Linking::Ahead(kind) => before_after(kind, place, byte),
        Linking::Choice(kind) => if byte == b']' {
            Linking::Ahead(kind)
        } else {
            Linking::Choice(kind)
        },
        Linking::Argument(kind) => in_argument(kind, place, byte),
        Linking::File(kind, from) => if ends_name(byte) {
            in_argument(kind, place, byte)
        } else {
            Linking::File(kind, from)
        },
    }
}

/// The name that ends before a byte at a place, if one does.
fn link_before(state: Linking, place: usize, byte: u8) -> Option<Link>
    ensures { result ≡ link_before state place byte }
{
    match state {
        Linking::File(kind, from) => if ends_name(byte) {
            Some(Link {
                from,
                to: place,
                kind,
            })
        } else {
            None
        },
        _ => None,
    }
}

impl LinkScan {
    fn take(&mut self, text: &[u8], byte: u8) -> Result<(), AllocError>
        requires { self.old.place + 1 < 2 ^ 64 }
        ensures { OnOk result (self.new ≡ link_after text.now self.old byte) }
    {
        self.found
            .push_if_any(link_before(self.state, self.place, byte))?;
        self.state = linking_after(text, self.place, self.state, byte);
        self.place += 1;
        Ok(())
    }
}

/// The files that a text names, in order.
pub fn links(alloc: Global, text: &[u8]) -> Result<Sequence<Link>, AllocError>
    ensures { IfOk result (λ found. found ≡ links text.now) }
{
    let mut scan = LinkScan {
        state: Linking::Outside,
        place: 0,
        found: Sequence::new(alloc),
    };
    'bytes: for byte in text {
        scan.take(text, *byte)?;
    }
    let LinkScan { found, .. } = scan;
    Ok(found)
}
