//! What is known of values.

use crate::may::May;
use crate::range::Range;
use bt_actions::Code;

/// What is known of a value on the stack. A function is known exactly.
#[derive(Clone, Copy)]
pub enum Known<'a> {
    Number(Range),
    Text(May),
    Run(Code<'a>),
}
