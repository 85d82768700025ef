//! The ticks that a step has left, and its calls of built-in functions.
//!
//! It isn't a part of a step's state: no action changes it, so no contract of an action has to mention it. A call is
//! counted when it takes its tick, so the counts add up to at most 1,000,000 and their sums never overflow.

ghost use Rattle.std.specs.Prelude.{◌≡◌, ◌+◌, ◌<◌, ◌≤◌, sum, replicate};

use bt_style::{BUILTIN_COUNT, Builtin};

/// How many ticks a step may take.
pub const TICK_LIMIT: u32 = 1_000_000;

/// The ticks that a step has left, and how often it called each built-in function, by its place in the table.
#[derive(Drop)]
pub struct Tally {
    pub ticks: u32,
    pub calls: [u32; BUILTIN_COUNT],
    ghost within: { sum calls + ticks ≤ 1000000 },
}

impl Tally {
    ghost use Rattle.bt_actions.specs.Tally.{with_call};

    /// All ticks left, and no call.
    pub fn new() -> Tally
        ensures ticks { result.ticks ≡ 1000000 }
        ensures calls { result.calls ≡ replicate 37 0 }
    {
        Tally {
            ticks: TICK_LIMIT,
            calls: [0; BUILTIN_COUNT],
        }
    }

    /// Takes a tick, and counts the call if the element calls a built-in function.
    pub fn take(&mut self, called: Option<Builtin>)
        requires { 0 < self.old.ticks }
        ensures ticks { self.new.ticks + 1 ≡ self.old.ticks }
        ensures calls { self.new.calls ≡ with_call called self.old.calls }
    {
        self.ticks -= 1;
        if let Some(builtin) = called {
            self.calls[builtin.place()] += 1;
        }
    }
}
