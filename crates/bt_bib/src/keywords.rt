//! Types that are keywords of the format.

ghost use Rattle.std.specs.Prelude.{◌≡◌};
ghost use Rattle.bt_bib.specs.Keywords.{keyword_of};

use bt_text::eq_ignore_ascii_case;

/// The kind of piece that a type begins.
#[derive(Clone, Copy, PartialEq, Eq)]
pub enum Keyword {
    Comment,
    String,
    Preamble,
    Entry,
}

impl Keyword {
    /// The kind of piece that this type begins, whatever the case of its letters.
    pub fn of(kind: &[u8]) -> Keyword
        ensures { result ≡ keyword_of kind.now }
    {
        if eq_ignore_ascii_case(kind, b"comment") {
            Keyword::Comment
        } else if eq_ignore_ascii_case(kind, b"string") {
            Keyword::String
        } else if eq_ignore_ascii_case(kind, b"preamble") {
            Keyword::Preamble
        } else {
            Keyword::Entry
        }
    }
}
