//! The lines of an `.aux` text that matter.
//!
//! LaTeX writes many commands into it. BibTeX looks only at lines that begin, at their first byte, with one of four
//! commands, and silently skips all others. `bt_job` decides which files the commands open.

ghost use Rattle.std.specs.Prelude.{◌≡◌, ◌≤◌, ◌<◌, ◌+◌, ◌^◌, [], ◌++◌, length, IfOk, OnOk, IfSome};
ghost use Rattle.std.specs.List.{position_or_len};
ghost use Rattle.bt_text.specs.ByteTests.{is_line_feed};
ghost use Rattle.bt_bib.specs.AuxLine.{command_of, opening_of, parting, item, aux_lines};
ghost use Rattle.bt_bib.specs.inner.Cases.{if_counted};

use crate::aux_argument::{AuxFault, Parting, read_argument};
use bt_text::{Bytes, Sequence, trim_end};
use memchr::memchr;
use std::alloc::{AllocError, Global};

/// The commands that matter.
#[derive(Clone, Copy, PartialEq, Eq)]
pub enum Command {
    /// `\citation{..}`
    Citation,
    /// `\bibdata{..}`
    Database,
    /// `\bibstyle{..}`
    Style,
    /// `\@input{..}`
    Nested,
}

impl Command {
    /// The first bytes of a line with this command, up to and including the opening brace.
    pub fn word(self) -> &'static [u8]
        ensures { result.now ≡ opening_of self }
    {
        match self {
            Command::Citation => b"\\citation{",
            Command::Database => b"\\bibdata{",
            Command::Style => b"\\bibstyle{",
            Command::Nested => b"\\@input{",
        }
    }

    fn parting(self) -> Parting
        ensures { result ≡ parting self }
    {
        match self {
            Command::Citation | Command::Database => Parting::Commas,
            Command::Style | Command::Nested => Parting::Whole,
        }
    }
}

/// A line that matters: its number from 1, its command, and the parts before its fault, if it has one.
#[derive(Drop)]
pub struct AuxItem {
    pub line: usize,
    pub command: Command,
    pub parts: Sequence<Bytes>,
    pub fault: Option<AuxFault>,
}

#[tactic(auto, using(crate::proofs::AuxLemmas::line_is_first))]
fn line_len(text: &[u8]) -> usize
    ensures value { result ≡ position_or_len is_line_feed text.now }
    ensures within { result ≤ length text.now }
    ensures room { result + 1 < 2 ^ 64 }
{
    memchr(b'\n', text).unwrap_or(text.len())
}

fn command_of(line: &[u8]) -> Option<Command>
    ensures value { result ≡ command_of line.now }
    ensures within { IfSome result (λ command. length (opening_of command) ≤ length line.now) }
{
    if line.starts_with(Command::Citation.word()) {
        Some(Command::Citation)
    } else if line.starts_with(Command::Database.word()) {
        Some(Command::Database)
    } else if line.starts_with(Command::Style.word()) {
        Some(Command::Style)
    } else if line.starts_with(Command::Nested.word()) {
        Some(Command::Nested)
    } else {
        None
    }
}

fn item(alloc: Global, number: usize, line: &[u8], command: Command) -> Result<AuxItem, AllocError>
    requires { length (opening_of command) ≤ length line.now }
    ensures { IfOk result (λ found. found ≡ item number line.now command) }
{
    let rest = &line[command.word().len()..];
    let (parts, fault) = read_argument(alloc, rest, command.parting())?;
    Ok(AuxItem {
        line: number,
        command,
        parts,
        fault,
    })
}

fn add_line(
    alloc: Global,
    items: &mut Sequence<AuxItem>,
    number: usize,
    line: &[u8],
) -> Result<(), AllocError>
    ensures { OnOk result (items.new ≡ items.old ++ if_counted number line.now [] (command_of line.now)) }
{
    if let Some(command) = command_of(line) {
        items.push(item(alloc, number, line, command)?)?;
    }
    Ok(())
}

/// The lines of a text that matter, in order. The only error is out of memory.
pub fn read_aux(alloc: Global, text: &[u8]) -> Result<Sequence<AuxItem>, AllocError>
    ensures { IfOk result (λ items. items ≡ aux_lines text.now) }
{
    let mut items = Sequence::new(alloc);
    let mut rest = text;
    let mut number = 1;
    'lines: loop {
        let end = line_len(rest);
        add_line(alloc, &mut items, number, trim_end(&rest[..end]))?;
        if end == rest.len() {
            return Ok(items);
        }
        rest = &rest[end + 1..];
        number += 1;
    }
}
