//! What the stack keeps of a value.

use bt_style::{Op, Target};
use std::mem;

/// A value as it is kept: 24 bytes that own nothing, so it is copied, and never shared or dropped. Only the modules that
/// the stack uses see it.
#[derive(Clone, Copy)]
pub enum Value<'a> {
    Number(i32),
    /// A text that the style or the step's input has.
    Given(&'a [u8]),
    /// A text in the pool, which the step made or copied there for a variable: where it starts, and its length. A slice has
    /// two words, too, and two words need no limit on the pool.
    Made(usize, usize),
    /// A quoted name.
    Name(Target),
    /// A function in braces.
    Block(&'a [Op]),
    /// The field of this number, which is missing.
    Missing(usize),
}

const _: () = prove!(mem::size_of::<Value>() == 24);
