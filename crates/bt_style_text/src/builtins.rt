//! Names that stand for something before a style declares anything.

ghost use Rattle.std.specs.Prelude.{◌≡◌};
ghost use Rattle.std.specs.List.{find};
ghost use Rattle.bt_text.specs.CaseFolding.{is_same_folded};
ghost use Rattle.bt_style.specs.Builtins.{name_of};
ghost use Rattle.bt_style_text.specs.Builtins.{all_builtins, builtin_named, is_preset};

use bt_style::{BUILTIN_COUNT, Builtin};
use bt_text::eq_ignore_ascii_case;

static BUILTINS: [Builtin; BUILTIN_COUNT] = [
    Builtin::Greater,
    Builtin::Less,
    Builtin::Equals,
    Builtin::Plus,
    Builtin::Minus,
    Builtin::Join,
    Builtin::Assign,
    Builtin::AddPeriod,
    Builtin::CallType,
    Builtin::ChangeCase,
    Builtin::ChrToInt,
    Builtin::Cite,
    Builtin::Duplicate,
    Builtin::Empty,
    Builtin::FormatName,
    Builtin::If,
    Builtin::IntToChr,
    Builtin::IntToStr,
    Builtin::Missing,
    Builtin::Newline,
    Builtin::NumNames,
    Builtin::Pop,
    Builtin::Preamble,
    Builtin::Purify,
    Builtin::Quote,
    Builtin::Skip,
    Builtin::Stack,
    Builtin::Substring,
    Builtin::Swap,
    Builtin::TextLength,
    Builtin::TextPrefix,
    Builtin::Top,
    Builtin::Type,
    Builtin::Warning,
    Builtin::While,
    Builtin::Width,
    Builtin::Write,
];

fn builtin_among(builtins: &[Builtin], name: &[u8]) -> Option<Builtin>
    ensures { result ≡ find (λ builtin. is_same_folded name.now (name_of builtin)) builtins.now }
{
    builtins
        .iter()
        .copied()
        .find(|builtin| eq_ignore_ascii_case(name, builtin.name()))
}

/// All built-in functions, in the order of their table.
#[tactic(auto, unfolding(crate::specs::Builtins::all_builtins))]
pub fn all_builtins() -> &'static [Builtin]
    ensures { result.now ≡ all_builtins }
{
    &BUILTINS
}

/// The built-in function of a name.
pub fn builtin_named(name: &[u8]) -> Option<Builtin>
    ensures { result ≡ builtin_named name.now }
{
    builtin_among(all_builtins(), name)
}

/// Whether BibTeX declares a name itself.
pub fn is_preset(name: &[u8]) -> bool
    ensures { result ≡ is_preset name.now }
{
    eq_ignore_ascii_case(name, b"crossref")
        || eq_ignore_ascii_case(name, b"sort.key$")
        || eq_ignore_ascii_case(name, b"entry.max$")
        || eq_ignore_ascii_case(name, b"global.max$")
}
