//! What the value of a field, or a text, may be.

ghost use Rattle.std.specs.Prelude.{◌≡◌};
ghost use Rattle.bt_sound.specs.Known.{any_field, any_text, empty_range, joined_may, missing_range, names_range};
ghost use Rattle.bt_sound.specs.Reading.{only_blank, only_inked, only_missing};
ghost use Rattle.bt_sound.specs.Below.{may_within};

use crate::range::Range;

/// What the value of a field may be: missing, white space only, or a text with something else in it. A text is one of the
/// last two.
#[derive(Clone, Copy, PartialEq, Eq)]
pub struct May {
    pub missing: bool,
    pub blank: bool,
    pub inked: bool,
}

impl May {
    pub fn any_text() -> May
        ensures { result ≡ any_text }
    {
        May {
            missing: false,
            blank: true,
            inked: true,
        }
    }

    pub fn any_field() -> May
        ensures { result ≡ any_field }
    {
        May {
            missing: true,
            blank: true,
            inked: true,
        }
    }

    pub fn only_missing() -> May
        ensures { result ≡ only_missing }
    {
        May {
            missing: true,
            blank: false,
            inked: false,
        }
    }

    pub fn only_blank() -> May
        ensures { result ≡ only_blank }
    {
        May {
            missing: false,
            blank: true,
            inked: false,
        }
    }

    pub fn only_inked() -> May
        ensures { result ≡ only_inked }
    {
        May {
            missing: false,
            blank: false,
            inked: true,
        }
    }

    /// A text like this one, and then one like the other.
    pub fn then(self, other: May) -> May
        ensures { result ≡ joined_may self other }
    {
        May {
            missing: false,
            blank: self.blank && other.blank,
            inked: self.inked || other.inked,
        }
    }

    /// The value of `missing$`.
    pub fn missing_range(self) -> Range
        ensures { result ≡ missing_range self }
    {
        if !self.missing {
            Range::exactly(0)
        } else if self.blank || self.inked {
            Range::bit()
        } else {
            Range::exactly(1)
        }
    }

    /// The value of `empty$`.
    pub fn empty_range(self) -> Range
        ensures { result ≡ empty_range self }
    {
        if !self.inked {
            Range::exactly(1)
        } else if self.missing || self.blank {
            Range::bit()
        } else {
            Range::exactly(0)
        }
    }

    /// The value of `num.names$`.
    pub fn names_range(self) -> Range
        ensures { result ≡ names_range self }
    {
        if self.blank {
            Range::at_least(0)
        } else {
            Range::at_least(1)
        }
    }

    /// Whether it may be nothing that the other may not be.
    pub fn is_within(self, other: May) -> bool
        ensures { result ≡ may_within self other }
    {
        (!self.missing || other.missing)
            && (!self.blank || other.blank)
            && (!self.inked || other.inked)
    }

    /// What one of two values may be.
    pub fn or(self, other: May) -> May {
        May {
            missing: self.missing || other.missing,
            blank: self.blank || other.blank,
            inked: self.inked || other.inked,
        }
    }

    /// The one kind of value that it may be, if there is one.
    pub fn certain(self) -> Option<May> {
        let is_certain = self == May::only_missing()
            || self == May::only_blank()
            || self == May::only_inked();
        if is_certain { Some(self) } else { None }
    }
}
