//! The bounds of an integer.

ghost use Rattle.std.specs.Int.{int_max, int_min};
ghost use Rattle.std.specs.Prelude.{◌≡◌, ◌≤ℤ◌, ◌<ℤ◌, Some, true, false};

/// The integers from `low` to `high`.
#[derive(Clone, Copy, PartialEq, Eq, Hash)]
pub struct Bounds {
    pub low: i64,
    pub high: i64,
}

pub const UNBOUNDED: Bounds = Bounds {
    low: i64::MIN,
    high: i64::MAX,
};

impl Bounds {
    /// One number.
    pub fn exactly(number: i32) -> Bounds
        ensures low { result.low ≡ number }
        ensures high { result.high ≡ number }
    {
        Bounds {
            low: i64::from(number),
            high: i64::from(number),
        }
    }

    pub fn at_least(low: i64) -> Bounds
        ensures { result.low ≡ low }
    {
        Bounds {
            low,
            high: i64::MAX,
        }
    }

    pub fn at_most(high: i64) -> Bounds
        ensures { result.high ≡ high }
    {
        Bounds {
            low: i64::MIN,
            high,
        }
    }

    /// Whether each number of these is above each of the others (true), or none is (false), if one of the two is known.
    pub fn is_above(self, other: Bounds) -> Option<bool>
        ensures above { result ≡ Some true → other.high <ℤ self.low }
        ensures below { result ≡ Some false → self.high ≤ℤ other.low }
    {
        if self.low > other.high {
            Some(true)
        } else if self.high <= other.low {
            Some(false)
        } else {
            None
        }
    }

    pub fn is_positive(self) -> Option<bool> {
        self.is_above(Bounds::exactly(0))
    }

    /// The bounds of a sum; a bound beyond those of an `i64` is the last one within them.
    pub fn sum(self, other: Bounds) -> Bounds {
        Bounds {
            low: self.low.saturating_add(other.low),
            high: self.high.saturating_add(other.high),
        }
    }

    /// The bounds of a difference; a bound beyond those of an `i64` is the last one within them.
    pub fn difference(self, other: Bounds) -> Bounds {
        Bounds {
            low: self.low.saturating_sub(other.high),
            high: self.high.saturating_sub(other.low),
        }
    }

    /// The bounds of a number that lies within these or within the others.
    pub fn or(self, other: Bounds) -> Bounds
        ensures low { result.low ≡ int_min self.low other.low }
        ensures high { result.high ≡ int_max self.high other.high }
    {
        Bounds {
            low: self.low.min(other.low),
            high: self.high.max(other.high),
        }
    }

    /// The bounds of a number that lies within both.
    pub fn and(self, other: Bounds) -> Bounds
        ensures low { result.low ≡ int_max self.low other.low }
        ensures high { result.high ≡ int_min self.high other.high }
    {
        Bounds {
            low: self.low.max(other.low),
            high: self.high.min(other.high),
        }
    }
}
