//! What is wrong with an item.

/// What a name is the name of.
#[derive(Clone, Copy, Debug, PartialEq, Eq)]
pub enum NameRole {
    /// The word after `@`.
    EntryType,
    /// The name that `@string` gives a value.
    StringName,
    /// The name of a field.
    FieldName,
    /// A macro's name, as a part of a value.
    FieldPart,
}

/// What is wrong at the first place where no rule applies. The item ends at that place.
#[derive(Clone, Copy, Debug, PartialEq, Eq)]
pub enum ItemFault {
    /// The text ends inside the item.
    EndOfFile,
    /// A name is missing. A missing part of a value is `MissingPart` instead.
    MissingName(NameRole),
    /// This byte directly follows a name, and may not.
    BadNameEnd(NameRole, u8),
    /// The type isn't followed by `{` or `(`.
    ExpectedOpen,
    /// A key or value isn't followed by a comma or the closing sign (in a string or preamble: by the closing sign).
    ExpectedCommaOrClose,
    /// The name of a field or string isn't followed by `=`.
    ExpectedEquals,
    /// A `}` between quotes has no `{`.
    UnbalancedBraces,
    /// A part of a value is missing.
    MissingPart,
}
