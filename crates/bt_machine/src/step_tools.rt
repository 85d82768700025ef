//! What saves the steps of a run time: buffers, which they use one after another, and what is known of the style's patterns.

use crate::patterns::sound_patterns;
use bt_stack::{SoundPatterns, StepBuffers};
use bt_style::Style;
use std::alloc::{AllocError, Global};

/// What the steps of a run share. It has no influence on their outcomes.
#[derive(Drop)]
pub struct StepTools {
    pub(crate) patterns: SoundPatterns,
    pub(crate) buffers: StepBuffers,
}

impl StepTools {
    /// Tools that know no pattern, for a single step. They take no memory.
    pub fn new(alloc: Global) -> Self {
        StepTools {
            patterns: SoundPatterns::none(alloc),
            buffers: StepBuffers::new(alloc),
        }
    }

    /// Tools for many steps of a style. The only error is out of memory.
    pub fn of(alloc: Global, style: &Style) -> Result<Self, AllocError> {
        Ok(StepTools {
            patterns: sound_patterns(alloc, style)?,
            buffers: StepBuffers::new(alloc),
        })
    }
}
