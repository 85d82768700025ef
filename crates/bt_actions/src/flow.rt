//! Whether a run goes on, and the limit of the stack.

/// Whether the run goes on.
#[derive(Clone, Copy, PartialEq, Eq)]
pub enum Flow {
    Go,
    Stop,
}

/// How many values the stack may hold.
pub const STACK_LIMIT: usize = 1_000;
