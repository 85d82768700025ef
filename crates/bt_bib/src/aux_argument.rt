//! The argument of a command in an `.aux` text: its parts, and what is wrong with it.
//!
//! An argument ends at its first `}`, which must be the last byte of the line, or at white space, which is a fault.
//! BibTeX accepts a part only once it has seen what ends it. So if there is a fault, the last part doesn't count, and
//! the parts before it do.

ghost use Rattle.std.specs.Prelude.{◌≡◌, ◌≤◌, length, map, IfOk};
ghost use Rattle.bt_bib.specs.AuxArgument.{ends_argument, inside, parts_in, fault_at, parts_kept, fault_of, argument_parts};

use bt_text::{Bytes, Sequence, is_white};
use std::alloc::{AllocError, Global};

/// What is wrong with an argument.
#[derive(Clone, Copy, PartialEq, Eq)]
pub enum AuxFault {
    /// No brace ends it.
    NoBrace,
    /// It contains white space.
    WhiteSpace,
    /// Something follows its brace.
    StuffAfter,
}

#[derive(Clone, Copy, PartialEq, Eq)]
pub enum Parting {
    Commas,
    Whole,
}

fn ends_argument(byte: u8) -> bool
    ensures { result ≡ ends_argument byte }
{
    byte == b'}' || is_white(byte)
}

fn inside_len(rest: &[u8]) -> usize
    ensures value { result ≡ length (inside rest.now) }
    ensures within { result ≤ length rest.now }
{
    rest.iter()
        .take_while(|byte| !ends_argument(**byte))
        .count()
}

fn parts_in<'a>(
    alloc: Global,
    argument: &'a [u8],
    parting: Parting,
) -> Result<Vec<&'a [u8]>, AllocError>
    ensures { IfOk result (λ parts. map (λ p. p.now) parts.items ≡ parts_in parting argument.now) }
{
    match parting {
        Parting::Commas => argument.split(|byte| *byte == b',').collect(alloc),
        Parting::Whole => Ok(Vec::from_array(alloc, [argument])?),
    }
}

fn kept<'p, 'a>(fault: Option<AuxFault>, parts: &'p [&'a [u8]]) -> &'p [&'a [u8]]
    ensures { map (λ p. p.now) result.now ≡ parts_kept fault (map (λ p. p.now) parts.now) }
{
    match fault {
        None => parts,
        Some(_) => &parts[..parts.len().saturating_sub(1)],
    }
}

fn copied(alloc: Global, parts: &[&[u8]]) -> Result<Sequence<Bytes>, AllocError>
    ensures { IfOk result (λ copies. copies ≡ map (λ p. p.now) parts.now) }
{
    let mut copies = Sequence::new(alloc);
    'parts: for part in parts {
        copies.push(Bytes::copied(alloc, part)?)?;
    }
    Ok(copies)
}

fn fault_at(rest_after: &[u8]) -> Option<AuxFault>
    ensures { result ≡ fault_at rest_after.now }
{
    match rest_after.split_first() {
        None => Some(AuxFault::NoBrace),
        Some((end, stuff)) => {
            if is_white(*end) {
                Some(AuxFault::WhiteSpace)
            } else if stuff.is_empty() {
                None
            } else {
                Some(AuxFault::StuffAfter)
            }
        }
    }
}

/// Of the text after a command's opening brace: the parts before a fault, and the fault.
pub fn read_argument(
    alloc: Global,
    rest: &[u8],
    parting: Parting,
) -> Result<(Sequence<Bytes>, Option<AuxFault>), AllocError>
    ensures { IfOk result (λ read. read ≡ (argument_parts parting rest.now, fault_of rest.now)) }
{
    let (argument, rest_after) = rest.split_at(inside_len(rest));
    let fault = fault_at(rest_after);
    let parts = parts_in(alloc, argument, parting)?;
    Ok((copied(alloc, kept(fault, parts.as_slice()))?, fault))
}
