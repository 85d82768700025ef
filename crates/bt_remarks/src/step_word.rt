//! The words of a style that ran when messages came, and what finds remarks.

use crate::finding::Finding;
use bt_text::{Bytes, Sequence};
use std::alloc::{AllocError, Global};

/// A call that leads to a word: the word of the caller that ran, and the caller's name with its line.
#[derive(Drop)]
pub struct CallWord {
    pub start: usize,
    pub end: usize,
    pub words: Bytes,
}

/// The part of a style's text that ran when a step complained, and the calls that led there, the innermost first.
#[derive(Drop)]
pub struct StepWord {
    pub start: usize,
    pub end: usize,
    pub calls: Sequence<CallWord>,
}

/// What finds remarks on a paper's styles.
pub trait Remarks {
    /// For each message of the run the word that ran when it came; none if the message isn't of a step of the style at this
    /// URI, or its word isn't known. The only error is out of memory.
    fn step_words(
        &self,
        alloc: Global,
        uri: &[u8],
    ) -> Result<Sequence<Option<StepWord>>, AllocError>;

    /// What a check finds in a style's text. The only error is out of memory.
    fn findings_of(&self, alloc: Global, text: &[u8]) -> Result<Sequence<Finding>, AllocError>;
}
