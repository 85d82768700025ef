//! What each built-in function takes from the stack.

use bt_known::{ANY, FIELD, FUNCTION, INTEGER, Kinds, STRING};
use bt_style::Builtin;

/// The kinds that a built-in function takes, those of the lowest argument first.
pub fn takes(by: Builtin) -> &'static [Kinds] {
    match by {
        Builtin::Greater | Builtin::Less | Builtin::Plus | Builtin::Minus => &[INTEGER, INTEGER],
        Builtin::Join | Builtin::ChangeCase => &[STRING, STRING],
        Builtin::Equals | Builtin::Swap => &[ANY, ANY],
        Builtin::Assign => &[ANY, FUNCTION],
        Builtin::If => &[INTEGER, FUNCTION, FUNCTION],
        Builtin::While => &[FUNCTION, FUNCTION],
        Builtin::FormatName => &[STRING, INTEGER, STRING],
        Builtin::Substring => &[STRING, INTEGER, INTEGER],
        Builtin::TextPrefix => &[STRING, INTEGER],
        Builtin::Empty | Builtin::Missing => &[FIELD],
        Builtin::IntToChr | Builtin::IntToStr => &[INTEGER],
        Builtin::Duplicate | Builtin::Pop | Builtin::Top => &[ANY],
        Builtin::AddPeriod
        | Builtin::ChrToInt
        | Builtin::NumNames
        | Builtin::Purify
        | Builtin::TextLength
        | Builtin::Warning
        | Builtin::Width
        | Builtin::Write => &[STRING],
        Builtin::CallType
        | Builtin::Cite
        | Builtin::Newline
        | Builtin::Preamble
        | Builtin::Quote
        | Builtin::Skip
        | Builtin::Stack
        | Builtin::Type => &[],
    }
}

pub fn is_of_entries(by: Builtin) -> bool {
    matches!(by, Builtin::CallType | Builtin::Cite | Builtin::Type)
}
