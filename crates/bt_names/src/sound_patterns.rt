//! Patterns that are known to have no fault.
//!
//! A style formats thousands of names in the same few patterns, which are texts in its functions. To compare a pattern with
//! those is ten times faster than to look for its faults, and such a pattern is cut into its pieces once.

use crate::kept_pieces::{KeptPiece, Rest, kept_pieces};
use crate::patterns::pattern_fault;
use bt_text::{Bytes, equal_bytes};
use memchr::memchr;
use std::alloc::{AllocError, Global};
use std::marker::Model;

/// How many patterns are known at most. Styles have fewer; each costs a comparison of lengths for each name.
const MOST_PATTERNS: usize = 16;

#[derive(Drop)]
struct SoundPattern {
    text: Bytes,
    pieces: Vec<KeptPiece>,
}

/// Patterns without a fault. Contracts see the list of them.
#[derive(Drop)]
pub struct SoundPatterns {
    patterns: Vec<SoundPattern>,
}

impl Model for SoundPatterns {
    ghost use Rattle.std.specs.Prelude.{All, List, ℕ, map};
    ghost use Rattle.bt_names.specs.inner.Rest.{IsCut};

    ghost Value = { List (List ℕ) };

    ghost view = { λ known. map (λ pattern. pattern.text) known.patterns.items };

    ghost invariant = { λ known. All (λ pattern. IsCut pattern.text pattern.pieces.items) known.patterns.items };
}

impl SoundPatterns {
    ghost use Rattle.std.specs.Prelude.{◌≡◌, [], IfErr, IfOk, IfSome, OnErr, Some};
    ghost use Rattle.bt_names.specs.Patterns.{pattern_fault};
    ghost use Rattle.bt_names.specs.inner.Rest.{IsCut, IsRestOf};

    /// No pattern. It takes no memory.
    pub fn none(alloc: Global) -> SoundPatterns
        ensures { result ≡ [] }
    {
        SoundPatterns {
            patterns: Vec::new(alloc),
        }
    }

    /// Adds a text if it is a pattern with a group, has no fault, and few are known. The only error is out of memory, and
    /// then the patterns are as before.
    pub fn add(&mut self, alloc: Global, text: &[u8]) -> Result<(), AllocError>
        ensures { OnErr result (self.new ≡ self.old) }
    {
        if self.patterns.len() < MOST_PATTERNS && memchr(b'{', text).is_some() {
            self.add_pattern(alloc, text)
        } else {
            Ok(())
        }
    }

    fn add_pattern(&mut self, alloc: Global, pattern: &[u8]) -> Result<(), AllocError>
        ensures { OnErr result (self.new ≡ self.old) }
    {
        if self.pieces_of(pattern).is_some() || pattern_fault(pattern).is_some() {
            return Ok(());
        }
        let text = Bytes::copied(alloc, pattern)?;
        let pieces = kept_pieces(alloc, pattern)?;
        self.patterns.push(SoundPattern { text, pieces })?;
        Ok(())
    }

    fn pieces_of(&self, pattern: &[u8]) -> Option<&[KeptPiece]>
        ensures { IfSome result (λ pieces. IsCut pattern.now pieces.now) }
    {
        'known: for known in self.patterns.as_slice() {
            if equal_bytes(known.text.as_slice(), pattern) {
                return Some(&known.pieces);
            }
        }
        None
    }

    /// A pattern without a fault, in pieces if it is known; or the place of its first fault.
    pub(crate) fn find<'p>(&'p self, pattern: &'p [u8]) -> Result<Rest<'p>, usize>
        ensures ok { IfOk result (IsRestOf pattern.now) }
        ensures err { IfErr result (λ place. pattern_fault pattern.now ≡ Some place) }
    {
        match self.pieces_of(pattern) {
            Some(pieces) => Ok(Rest::Pieces(pieces)),
            None => match pattern_fault(pattern) {
                Some(place) => Err(place),
                None => Ok(Rest::Bytes(pattern)),
            },
        }
    }
}
