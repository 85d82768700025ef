//! Writes the parts of a name in a pattern, up to a limit.
//!
//! A group can put a long text between many tokens, so it may be far longer than name and pattern. Such a group isn't
//! begun if that text alone exceeds the limit. After each piece, the bytes written are compared with the limit.

ghost use Rattle.std.specs.Prelude.{◌≡◌, ◌<◌, ◌+◌, ◌-◌, ◌*◌, ◌++◌, IfOk, IsTrue, None, OnOk, length};
ghost use Rattle.bt_names.specs.Written.{IsWritten};
ghost use Rattle.bt_names.specs.inner.Pieces.{piece_output};
ghost use Rattle.bt_names.specs.inner.Rest.{IsSound, rest_output};

use crate::groups::{push_bare, push_part};
use crate::kept_pieces::Rest;
use crate::lent_tokens::{LentParts, LentToken};
use crate::pieces::Piece;
use std::alloc::AllocError;

/// Whether a text was written.
#[derive(Clone, Copy, PartialEq, Eq)]
pub enum Written {
    /// The whole text, which has no more bytes than the limit says.
    Whole,
    /// Not all of it: the whole text has more bytes than the limit says.
    Longer,
}

/// Whether a text between tokens takes more than a byte above the limit. The end of a group may take one byte away.
fn passes(limit: usize, own: &[u8], tokens: &[LentToken]) -> bool
    ensures { IsTrue result → limit + 1 < (length tokens.now - 1) * length own.now }
{
    !own.is_empty()
        && limit
            < tokens
                .len()
                .saturating_sub(1)
                .saturating_mul(own.len())
                .saturating_sub(1)
}

/// Whether a piece is known to be longer than the limit before it is written.
fn is_longer(limit: usize, parts: &LentParts, piece: Piece) -> bool
    ensures { IsTrue result → limit < length (piece_output parts.now piece.entry) }
{
    match piece {
        Piece::Plain(_) => false,
        Piece::Bare(_) => false,
        Piece::Lettered(part) => {
            part.has_own && passes(limit, part.own, parts.named_by(part.letter))
        }
    }
}

fn push_piece(out: &mut Vec<u8>, parts: &LentParts, piece: Piece) -> Result<(), AllocError>
    ensures { OnOk result (out.new.items ≡ out.old.items ++ piece_output parts.now piece.entry) }
{
    match piece {
        Piece::Plain(bytes) => out.extend_from_slice(bytes),
        Piece::Bare(bytes) => push_bare(out, bytes),
        Piece::Lettered(part) => push_part(out, parts, part),
    }
}

/// Appends what a pattern without a fault gives to `out`, if that has at most `limit` bytes.
#[tactic(auto, using(crate::proofs::SoundLemmas::sound_first, crate::proofs::SoundLemmas::sound_rest))]
pub fn push_pieces(
    out: &mut Vec<u8>,
    limit: usize,
    parts: &LentParts,
    pattern: Rest<'_>,
) -> Result<Written, AllocError>
    requires { IsSound pattern }
    ensures { IfOk result (IsWritten limit (rest_output parts.now pattern.entry) out.old.items out.new.items) }
{
    let start = out.len();
    let mut rest = pattern;
    'walk: while let Some((piece, behind)) = rest.next() {
        if is_longer(limit, parts, piece) {
            return Ok(Written::Longer);
        }
        push_piece(out, parts, piece)?;
        if limit < out.len().saturating_sub(start) {
            return Ok(Written::Longer);
        }
        rest = behind;
    }
    Ok(Written::Whole)
}
