//! The count of all ticks that were taken.
//!
//! A value that only grows, with one function that raises it, and no copy: so the report of an edit can't leave out a
//! step that was run.

use std::marker::Model;

/// How many ticks were taken. Only steps raise it, and nothing sets it back.
#[derive(Drop)]
pub struct Meter {
    ticks: u128,
}

impl Model for Meter {
    ghost use Rattle.std.specs.Prelude.{ℕ};

    ghost Value = { ℕ };

    ghost view = { λ meter. meter.ticks };
}

impl Meter {
    ghost use Rattle.std.specs.Prelude.{◌≡◌, ◌+◌, ◌^◌, ◌<◌};

    /// A meter that has seen no tick.
    pub fn new() -> Meter
        ensures { result ≡ 0 }
    {
        Meter { ticks: 0 }
    }

    /// The ticks so far.
    pub fn value(&self) -> u128
        ensures { result ≡ self.now }
    {
        self.ticks
    }

    /// Adds the ticks of a step.
    pub(crate) fn raise(&mut self, by: u32)
        requires { self.old + by < 2 ^ 128 }
        ensures { self.new ≡ self.old + by }
    {
        self.ticks += u128::from(by);
    }
}
