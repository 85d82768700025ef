//! Between which bounds a number is.

ghost use Rattle.std.specs.Prelude.{◌≡◌, ◌+ℤ◌, ◌-ℤ◌, pos};
ghost use Rattle.bt_sound.specs.Known.{any_number, at_least, bit, bound_by, bounded, difference_range, exactly, is_under, is_upto, less_range, sum_range};
ghost use Rattle.bt_sound.specs.Reading.{above_zero, capped, is_open, raised, upto_zero};
ghost use Rattle.bt_sound.specs.Below.{high_within, low_within, range_within};

/// Between which bounds a number is, if there are any.
#[derive(Clone, Copy)]
pub struct Range {
    pub low: Option<i32>,
    pub high: Option<i32>,
}

/// A bound that needs more than 32 bits is none.
fn bounded(bound: i64) -> Option<i32>
    ensures { result ≡ bounded bound }
{
    match i32::try_from(bound) {
        Ok(bound) => Some(bound),
        Err(_) => None,
    }
}

fn sum_bound(ours: Option<i32>, theirs: Option<i32>) -> Option<i32>
    ensures { result ≡ bound_by (λ a b. a +ℤ b) ours theirs }
{
    match (ours, theirs) {
        (Some(ours), Some(theirs)) => bounded(i64::from(ours) + i64::from(theirs)),
        _ => None,
    }
}

fn difference_bound(ours: Option<i32>, theirs: Option<i32>) -> Option<i32>
    ensures { result ≡ bound_by (λ a b. a -ℤ b) ours theirs }
{
    match (ours, theirs) {
        (Some(ours), Some(theirs)) => bounded(i64::from(ours) - i64::from(theirs)),
        _ => None,
    }
}

/// Whether one bound is there and below another.
fn is_under(ours: Option<i32>, theirs: Option<i32>) -> bool
    ensures { result ≡ is_under ours theirs }
{
    match (ours, theirs) {
        (Some(ours), Some(theirs)) => ours < theirs,
        _ => false,
    }
}

/// Whether one bound is there and not above another.
fn is_upto(ours: Option<i32>, theirs: Option<i32>) -> bool
    ensures { result ≡ is_upto ours theirs }
{
    match (ours, theirs) {
        (Some(ours), Some(theirs)) => !(theirs < ours),
        _ => false,
    }
}

fn capped(high: Option<i32>) -> i32
    ensures { result ≡ capped high }
{
    match high {
        Some(high) if high < 0 => high,
        _ => 0,
    }
}

fn raised(low: Option<i32>) -> i32
    ensures { result ≡ raised low }
{
    match low {
        None => 1,
        Some(low) => if low < 1 { 1 } else { low },
    }
}

fn low_within(ours: Option<i32>, theirs: Option<i32>) -> bool
    ensures { result ≡ low_within ours theirs }
{
    match (ours, theirs) {
        (_, None) => true,
        (None, Some(_)) => false,
        (Some(ours), Some(theirs)) => !(ours < theirs),
    }
}

fn high_within(ours: Option<i32>, theirs: Option<i32>) -> bool
    ensures { result ≡ high_within ours theirs }
{
    match (ours, theirs) {
        (_, None) => true,
        (None, Some(_)) => false,
        (Some(ours), Some(theirs)) => !(theirs < ours),
    }
}

/// A lower bound of two numbers: 1, 0 or none, if the first one's bound isn't one of the second's.
fn lower(ours: Option<i32>, theirs: Option<i32>) -> Option<i32> {
    match (ours, theirs) {
        (Some(ours), Some(theirs)) => {
            if !(theirs < ours) {
                Some(ours)
            } else if !(theirs < 1) {
                Some(1)
            } else if !(theirs < 0) {
                Some(0)
            } else {
                None
            }
        }
        _ => None,
    }
}

/// An upper bound of two numbers: 0, 1 or none, if the first one's bound isn't one of the second's.
fn higher(ours: Option<i32>, theirs: Option<i32>) -> Option<i32> {
    match (ours, theirs) {
        (Some(ours), Some(theirs)) => {
            if !(ours < theirs) {
                Some(ours)
            } else if !(0 < theirs) {
                Some(0)
            } else if !(1 < theirs) {
                Some(1)
            } else {
                None
            }
        }
        _ => None,
    }
}

impl Range {
    pub fn any() -> Range
        ensures { result ≡ any_number }
    {
        Range {
            low: None,
            high: None,
        }
    }

    pub fn exactly(number: i32) -> Range
        ensures { result ≡ exactly number }
    {
        Range {
            low: Some(number),
            high: Some(number),
        }
    }

    pub fn at_least(number: i32) -> Range
        ensures { result ≡ at_least number }
    {
        Range {
            low: Some(number),
            high: None,
        }
    }

    /// 0 or 1.
    pub fn bit() -> Range
        ensures { result ≡ bit }
    {
        Range {
            low: Some(0),
            high: Some(1),
        }
    }

    pub fn sum(self, other: Range) -> Range
        ensures { result ≡ sum_range self other }
    {
        Range {
            low: sum_bound(self.low, other.low),
            high: sum_bound(self.high, other.high),
        }
    }

    pub fn difference(self, other: Range) -> Range
        ensures { result ≡ difference_range self other }
    {
        Range {
            low: difference_bound(self.low, other.high),
            high: difference_bound(self.high, other.low),
        }
    }

    /// Whether a number of this range is below one of the other: 1, 0 or either.
    pub fn less(self, other: Range) -> Range
        ensures { result ≡ less_range self other }
    {
        if is_under(self.high, other.low) {
            Range::exactly(1)
        } else if is_upto(other.high, self.low) {
            Range::exactly(0)
        } else {
            Range::bit()
        }
    }

    /// Its numbers that aren't above 0.
    pub fn upto_zero(self) -> Range
        ensures { result ≡ upto_zero self }
    {
        Range {
            low: self.low,
            high: Some(capped(self.high)),
        }
    }

    /// Its numbers above 0.
    pub fn above_zero(self) -> Range
        ensures { result ≡ above_zero self }
    {
        Range {
            low: Some(raised(self.low)),
            high: self.high,
        }
    }

    /// Whether there may be a number between the bounds.
    pub fn is_open(self) -> bool
        ensures { result ≡ is_open self }
    {
        !is_under(self.high, self.low)
    }

    /// Whether each of its numbers is one of the other range.
    pub fn is_within(self, other: Range) -> bool
        ensures { result ≡ range_within self other }
    {
        low_within(self.low, other.low) && high_within(self.high, other.high)
    }

    /// A range of the numbers of both. It soon stays the same if ranges are joined to it one after another.
    pub fn joined(self, other: Range) -> Range {
        Range {
            low: lower(self.low, other.low),
            high: higher(self.high, other.high),
        }
    }

    /// Whether its numbers are above 0, if that holds of all or of none.
    pub fn sign(self) -> Option<bool> {
        if is_under(Some(0), self.low) {
            Some(true)
        } else if is_upto(self.high, Some(0)) {
            Some(false)
        } else {
            None
        }
    }
}
