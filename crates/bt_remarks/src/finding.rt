//! What the check of a style finds.

use bt_text::{Bytes, Sequence};

/// What the editor makes of a finding.
#[derive(Clone, Copy, Debug, PartialEq, Eq)]
pub enum Weight {
    /// Some database makes the style do this wrong.
    Fault,
    Hint,
    /// A hint at what could go.
    Unused,
}

/// A call that leads to a finding.
#[derive(Drop)]
pub struct CallPlace {
    pub start: usize,
    pub end: usize,
    pub words: Bytes,
}

/// What the check found: the part of the text where it is, its code and words, and the calls that lead there.
#[derive(Drop)]
pub struct Finding {
    pub start: usize,
    pub end: usize,
    pub weight: Weight,
    pub code: Bytes,
    pub words: Bytes,
    /// An entry for which it comes, as a run has shown; empty if none is known.
    pub entry: Bytes,
    /// The innermost first.
    pub calls: Sequence<CallPlace>,
}
