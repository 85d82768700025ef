//! A place where a key or a macro is mentioned.

ghost use Rattle.std.specs.Prelude.{◌≡◌};
ghost use Rattle.bt_mentions.specs.Inside.{is_parent};

/// How a key or a macro is mentioned.
#[derive(Clone, Copy, PartialEq, Eq)]
pub enum Role {
    /// The key of an entry, where the entry begins.
    Key,
    /// The value of a `crossref` field in braces or quotes, without the white space around it.
    Crossref,
    /// The value of a `crossref` field that is a number.
    Number,
    /// A key in a citation.
    Citation,
    /// The name of a macro in its `@string`.
    Definition,
    /// A macro or a number in a value.
    Macro,
}

/// A mention, by the offsets of its beginning and its end.
#[derive(Clone, Copy, PartialEq, Eq)]
pub struct Mention {
    pub from: usize,
    pub to: usize,
    pub role: Role,
}

/// Whether a `crossref` field names a parent here.
pub fn is_parent(role: Role) -> bool
    ensures { result ≡ is_parent role }
{
    match role {
        Role::Crossref | Role::Number => true,
        Role::Key | Role::Citation | Role::Definition | Role::Macro => false,
    }
}
