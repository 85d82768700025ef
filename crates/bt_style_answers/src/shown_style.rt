//! A style's text as an editor shows it.

ghost use Rattle.std.specs.Prelude.{◌≡◌, ◌<◌, ◌*◌, ◌^◌, length, IfOk};
ghost use Rattle.serde_json.specs.View.{view};
ghost use Rattle.bt_shapes.specs.Shapes.{range_of};

use bt_positions::{Counting, IndexedText};
use serde_json::Value;
use std::alloc::{AllocError, Global};

/// The text of a style in a file, and the units of positions in it. It has fewer than 2^63 bytes.
#[derive(Clone, Copy)]
pub struct ShownStyle<'a> {
    /// The name of the file.
    pub uri: &'a [u8],
    pub counting: Counting,
    pub text: &'a IndexedText,
    ghost fits: { 2 * length text.now < 2 ^ 64 },
}

impl ShownStyle<'_> {
    /// The range of a part of the text, as far as the text has it.
    pub(crate) fn range(&self, alloc: Global, from: usize, to: usize) -> Result<Value, AllocError>
        ensures { IfOk result (λ v. view v ≡ range_of self.now.counting self.now.text.now from to) }
    {
        bt_shapes::range_of(alloc, self.counting, self.text, from, to)
    }
}
