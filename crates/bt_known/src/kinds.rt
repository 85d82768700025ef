//! The kinds of values that a value of the analysis may have.

ghost use Rattle.std.specs.Prelude.{◌≡◌, ◌||◌, ◌&&◌, not, IsTrue};

#[derive(Clone, Copy, PartialEq, Eq, Hash)]
pub struct Kinds {
    pub function: bool,
    pub integer: bool,
    /// A missing field.
    pub missing: bool,
    pub string: bool,
}

pub const NONE: Kinds = Kinds {
    function: false,
    integer: false,
    missing: false,
    string: false,
};

pub const FUNCTION: Kinds = Kinds {
    function: true,
    integer: false,
    missing: false,
    string: false,
};

pub const INTEGER: Kinds = Kinds {
    function: false,
    integer: true,
    missing: false,
    string: false,
};

pub const MISSING: Kinds = Kinds {
    function: false,
    integer: false,
    missing: true,
    string: false,
};

pub const STRING: Kinds = Kinds {
    function: false,
    integer: false,
    missing: false,
    string: true,
};

pub const FIELD: Kinds = Kinds {
    function: false,
    integer: false,
    missing: true,
    string: true,
};

pub const ANY: Kinds = Kinds {
    function: true,
    integer: true,
    missing: true,
    string: true,
};

impl Kinds {
    pub fn or(self, other: Kinds) -> Kinds
        ensures function { result.function ≡ (self.function || other.function) }
        ensures integer { result.integer ≡ (self.integer || other.integer) }
        ensures missing { result.missing ≡ (self.missing || other.missing) }
        ensures string { result.string ≡ (self.string || other.string) }
    {
        Kinds {
            function: self.function || other.function,
            integer: self.integer || other.integer,
            missing: self.missing || other.missing,
            string: self.string || other.string,
        }
    }

    pub fn and(self, other: Kinds) -> Kinds
        ensures function { result.function ≡ (self.function && other.function) }
        ensures integer { result.integer ≡ (self.integer && other.integer) }
        ensures missing { result.missing ≡ (self.missing && other.missing) }
        ensures string { result.string ≡ (self.string && other.string) }
    {
        Kinds {
            function: self.function && other.function,
            integer: self.integer && other.integer,
            missing: self.missing && other.missing,
            string: self.string && other.string,
        }
    }

    pub fn without(self, other: Kinds) -> Kinds
        ensures function { result.function ≡ (self.function && not other.function) }
        ensures integer { result.integer ≡ (self.integer && not other.integer) }
        ensures missing { result.missing ≡ (self.missing && not other.missing) }
        ensures string { result.string ≡ (self.string && not other.string) }
    {
        Kinds {
            function: self.function && !other.function,
            integer: self.integer && !other.integer,
            missing: self.missing && !other.missing,
            string: self.string && !other.string,
        }
    }

    pub fn is_empty(self) -> bool
        ensures { result ≡ not (self.function || self.integer || self.missing || self.string) }
    {
        !(self.function || self.integer || self.missing || self.string)
    }

    /// Whether there is at most one kind.
    pub fn is_single(self) -> bool {
        self.is_within(FUNCTION)
            || self.is_within(INTEGER)
            || self.is_within(MISSING)
            || self.is_within(STRING)
    }

    pub fn is_within(self, other: Kinds) -> bool
        ensures function { IsTrue result → IsTrue self.function → IsTrue other.function }
        ensures integer { IsTrue result → IsTrue self.integer → IsTrue other.integer }
        ensures missing { IsTrue result → IsTrue self.missing → IsTrue other.missing }
        ensures string { IsTrue result → IsTrue self.string → IsTrue other.string }
    {
        self.without(other).is_empty()
    }
}
