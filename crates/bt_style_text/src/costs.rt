//! What a call of a built-in function costs: its ticks, and whether its time grows with its strings. The stack holds numbers
//! and places in texts, so moving, cutting or storing a string copies no bytes.

ghost use Rattle.std.specs.Prelude.{◌≡◌};
ghost use Rattle.bt_style_text.specs.Costs.{cost_of};

use bt_style::Builtin;

const TICK: &[u8] = b"1 of a step's 1,000,000 ticks";

const STRINGS: &[u8] = b"1 of a step's 1,000,000 ticks; its time grows with its strings";

const BODY: &[u8] = b"1 of a step's 1,000,000 ticks, and those of the function that it runs";

const BODIES: &[u8] =
    b"1 of a step's 1,000,000 ticks, and those of both functions each time they run";

/// What a call of a built-in function costs.
pub fn cost_of(builtin: Builtin) -> &'static [u8]
    ensures { result.now ≡ cost_of builtin }
{
    match builtin {
        Builtin::Greater
        | Builtin::Less
        | Builtin::Plus
        | Builtin::Minus
        | Builtin::Assign
        | Builtin::ChrToInt
        | Builtin::Cite
        | Builtin::Duplicate
        | Builtin::Empty
        | Builtin::IntToChr
        | Builtin::IntToStr
        | Builtin::Missing
        | Builtin::Pop
        | Builtin::Preamble
        | Builtin::Quote
        | Builtin::Skip
        | Builtin::Substring
        | Builtin::Swap
        | Builtin::Type => TICK,
        Builtin::Equals
        | Builtin::Join
        | Builtin::AddPeriod
        | Builtin::ChangeCase
        | Builtin::FormatName
        | Builtin::Newline
        | Builtin::NumNames
        | Builtin::Purify
        | Builtin::Stack
        | Builtin::TextLength
        | Builtin::TextPrefix
        | Builtin::Top
        | Builtin::Warning
        | Builtin::Width
        | Builtin::Write => STRINGS,
        Builtin::CallType | Builtin::If => BODY,
        Builtin::While => BODIES,
    }
}
