//! The pieces of a pattern with texts of their own. A pattern in which many names are formatted is cut into them once.

ghost use Rattle.std.specs.Prelude.{◌≡◌, ◌<◌, None, IfOk, length};
ghost use Rattle.bt_names.specs.declared.kept_pieces.Rest.TheVariants as rest;
ghost use Rattle.bt_names.specs.Patterns.{pattern_fault};
ghost use Rattle.bt_names.specs.inner.Rest.{IsCut, IsNext};

use crate::cuts::first_len;
use crate::pieces::{Part, Piece, piece_of};
use bt_text::Bytes;
use std::alloc::{AllocError, Global};

/// What a group with a letter says.
#[derive(Drop)]
pub struct KeptPart {
    letter: u8,
    is_whole: bool,
    has_own: bool,
    own: Bytes,
    before: Bytes,
    behind: Bytes,
}

impl KeptPart {
    ghost use Rattle.std.specs.Prelude.{◌≡◌, IfOk};
    ghost use Rattle.bt_names.specs.declared.tokens.Parts.{Parts};
    ghost use Rattle.bt_names.specs.inner.Pieces.{kept_part_output, part_output};

    fn of(alloc: Global, part: Part<'_>) -> Result<KeptPart, AllocError>
        ensures { IfOk result (λ kept. (parts : Parts) → kept_part_output parts kept ≡ part_output parts part.entry) }
    {
        Ok(KeptPart {
            letter: part.letter,
            is_whole: part.is_whole,
            has_own: part.has_own,
            own: Bytes::copied(alloc, part.own)?,
            before: Bytes::copied(alloc, part.before)?,
            behind: Bytes::copied(alloc, part.behind)?,
        })
    }

    fn lent(&self) -> Part<'_>
        ensures { (parts : Parts) → part_output parts result ≡ kept_part_output parts self.now }
    {
        Part {
            letter: self.letter,
            is_whole: self.is_whole,
            has_own: self.has_own,
            own: self.own.as_slice(),
            before: self.before.as_slice(),
            behind: self.behind.as_slice(),
        }
    }
}

/// A `Piece` that owns its bytes.
#[derive(Drop)]
pub enum KeptPiece {
    Plain(Bytes),
    Bare(Bytes),
    Lettered(KeptPart),
}

impl KeptPiece {
    ghost use Rattle.std.specs.Prelude.{◌≡◌, IfOk};
    ghost use Rattle.bt_names.specs.declared.tokens.Parts.{Parts};
    ghost use Rattle.bt_names.specs.inner.Pieces.{kept_output, piece_output};

    fn of(alloc: Global, piece: Piece<'_>) -> Result<KeptPiece, AllocError>
        ensures { IfOk result (λ kept. (parts : Parts) → kept_output parts kept ≡ piece_output parts piece.entry) }
    {
        match piece {
            Piece::Plain(bytes) => Ok(KeptPiece::Plain(Bytes::copied(alloc, bytes)?)),
            Piece::Bare(bytes) => Ok(KeptPiece::Bare(Bytes::copied(alloc, bytes)?)),
            Piece::Lettered(part) => Ok(KeptPiece::Lettered(KeptPart::of(alloc, part)?)),
        }
    }

    fn lent(&self) -> Piece<'_>
        ensures { (parts : Parts) → piece_output parts result ≡ kept_output parts self.now }
    {
        match self {
            KeptPiece::Plain(bytes) => Piece::Plain(bytes.as_slice()),
            KeptPiece::Bare(bytes) => Piece::Bare(bytes.as_slice()),
            KeptPiece::Lettered(part) => Piece::Lettered(part.lent()),
        }
    }
}

/// What is left of a pattern without a fault: its bytes, or pieces that it was cut into before.
#[derive(Clone, Copy)]
pub enum Rest<'p> {
    Bytes(&'p [u8]),
    Pieces(&'p [KeptPiece]),
}

/// The first piece of a pattern that isn't known. Most are known, so this is kept out of the loop over pieces.
#[cold]
#[tactic(auto, using(crate::proofs::SoundLemmas::sound_first, crate::proofs::SoundLemmas::sound_rest))]
fn next_of_bytes(pattern: &[u8]) -> (Piece<'_>, Rest<'_>)
    requires some { 0 < length pattern.now }
    requires sound { pattern_fault pattern.now ≡ None }
    ensures { IsNext (rest.Bytes pattern.entry) result.0 result.1 }
{
    let (block, behind) = pattern.split_at(first_len(pattern));
    (piece_of(block), Rest::Bytes(behind))
}

impl<'p> Rest<'p> {
    ghost use Rattle.std.specs.Prelude.{◌≡◌, [], IfNone, IfSome};
    ghost use Rattle.bt_names.specs.declared.tokens.Parts.{Parts};
    ghost use Rattle.bt_names.specs.inner.Rest.{IsNext, IsSound, rest_output};

    /// The first piece, and what stands behind it.
    #[inline(always)]
    pub fn next(self) -> Option<(Piece<'p>, Rest<'p>)>
        requires { IsSound self }
        ensures some { IfSome result (λ found. IsNext self.entry found.0 found.1) }
        ensures none { IfNone result ((parts : Parts) → rest_output parts self.entry ≡ []) }
    {
        match self {
            Rest::Bytes(pattern) => {
                if pattern.is_empty() {
                    None
                } else {
                    Some(next_of_bytes(pattern))
                }
            }
            Rest::Pieces(pieces) => match pieces {
                [] => None,
                [first, behind @ ..] => Some((first.lent(), Rest::Pieces(behind))),
            },
        }
    }
}

/// The pieces of a pattern without a fault.
pub fn kept_pieces(alloc: Global, pattern: &[u8]) -> Result<Vec<KeptPiece>, AllocError>
    requires { pattern_fault pattern.now ≡ None }
    ensures { IfOk result (λ pieces. IsCut pattern.now pieces.items) }
{
    let mut pieces = Vec::new(alloc);
    let mut rest = Rest::Bytes(pattern);
    'walk: while let Some((piece, behind)) = rest.next() {
        pieces.push(KeptPiece::of(alloc, piece)?)?;
        rest = behind;
    }
    Ok(pieces)
}
