//! What is known of one value.

ghost use Rattle.std.specs.Int.{int_max, int_min};
ghost use Rattle.std.specs.Prelude.{◌≡◌};

use crate::bounds::{Bounds, UNBOUNDED};

#[derive(Clone, Copy, PartialEq, Eq)]
pub struct Known {
    /// Whether the integer is above 0.
    pub truth: Option<bool>,
    /// The number of the constant that the string equals.
    pub only: Option<usize>,
    pub bounds: Bounds,
    /// How many other values were known before it.
    pub age: usize,
}

pub const NOTHING: Known = Known {
    truth: None,
    only: None,
    bounds: UNBOUNDED,
    age: 0,
};

impl Known {
    pub fn says_nothing(self) -> bool {
        self.truth.is_none() && self.only.is_none() && self.bounds == UNBOUNDED
    }

    /// What holds where either of them holds.
    pub fn joined(self, other: Known) -> Known
        ensures low { result.bounds.low ≡ int_min self.bounds.low other.bounds.low }
        ensures high { result.bounds.high ≡ int_max self.bounds.high other.bounds.high }
    {
        Known {
            truth: if self.truth == other.truth {
                self.truth
            } else {
                None
            },
            only: if self.only == other.only {
                self.only
            } else {
                None
            },
            bounds: self.bounds.or(other.bounds),
            age: self.age,
        }
    }
}
