//! What can be run.

use bt_style::{Op, Target};

/// What can be run: a name, which is called, or the elements of a function.
#[derive(Clone, Copy)]
pub enum Code<'a> {
    Name(Target),
    Block(&'a [Op]),
}
