//! What the built-in functions do, a line each: what they take from the stack and leave there, and an example. Arguments
//! are named from the lowest on the stack to the top.

ghost use Rattle.std.specs.Prelude.{◌≡◌};
ghost use Rattle.bt_style_text.specs.Help.{help_of};

use bt_style::Builtin;

const GREATER: &[u8] =
    b"integer a, integer b `>` integer: 1 if a is greater than b, otherwise 0. Example: `nameptr #1 >`";

const LESS: &[u8] =
    b"integer a, integer b `<` integer: 1 if a is less than b, otherwise 0. Example: `len #3 <`";

const EQUALS: &[u8] =
    b"two integers or two strings `=` integer: 1 if they are equal, otherwise 0. Example: `t \"others\" =`";

const PLUS: &[u8] =
    b"integer a, integer b `+` integer: their sum. Example: `nameptr #1 + 'nameptr :=`";

const MINUS: &[u8] = b"integer a, integer b `-` integer: a minus b. Example: `namesleft #1 -`";

const JOIN: &[u8] =
    b"string a, string b `*` string: a followed by b. Example: `\"vol.~\" volume *`";

const ASSIGN: &[u8] =
    b"value, quoted variable `:=` nothing: sets the variable to the value. Example: `#0 'count :=`";

const ADD_PERIOD: &[u8] =
    b"string `add.period$` string: with a period at its end, unless it ends with `.`, `?` or `!` already. Example: `title add.period$`";

const CALL_TYPE: &[u8] =
    b"`call.type$`: runs the function named like the entry's type, or `default.type`. Example: `ITERATE {call.type$}`";

const CHANGE_CASE: &[u8] =
    b"string, \"t\", \"l\" or \"u\" `change.case$` string: in lower case but for its first letter, in lower case, or in capitals; braces protect. Example: `title \"t\" change.case$`";

const CHR_TO_INT: &[u8] =
    b"string of one character `chr.to.int$` integer: the character's code. Example: `\"a\" chr.to.int$`";

const CITE: &[u8] =
    b"`cite$` string: the entry's key. Example: `\"\\bibitem{\" cite$ * \"}\" * write$`";

const DUPLICATE: &[u8] =
    b"value `duplicate$` value, value: pushes the value once more. Example: `duplicate$ empty$`";

const EMPTY: &[u8] =
    b"field or string `empty$` integer: 1 if it is missing or has only white space, otherwise 0. Example: `author empty$`";

const FORMAT_NAME: &[u8] =
    b"string of names, integer n, string pattern `format.name$` string: the n-th name as the pattern says. Example: `author #1 \"{vv~}{ll}{, jj}{, f.}\" format.name$`";

const IF: &[u8] =
    b"integer, function a, function b `if$`: runs a if the integer is above 0, otherwise b. Example: `title empty$ { \"\" } { title } if$`";

const INT_TO_CHR: &[u8] =
    b"integer `int.to.chr$` string: the character of this code. Example: `#97 int.to.chr$`";

const INT_TO_STR: &[u8] =
    b"integer `int.to.str$` string: its decimal digits. Example: `number.label int.to.str$`";

const MISSING: &[u8] =
    b"field or string `missing$` integer: 1 if the field is missing, otherwise 0. Example: `crossref missing$`";

const NEWLINE: &[u8] =
    b"`newline$`: writes the line that `write$` has collected, even an empty one. Example: `\"}\" write$ newline$`";

const NUM_NAMES: &[u8] =
    b"string of names `num.names$` integer: how many names there are, separated by `and`. Example: `author num.names$`";

const POP: &[u8] =
    b"value `pop$`: drops the value. Example: `duplicate$ empty$ { pop$ \"\" } 'skip$ if$`";

const PREAMBLE: &[u8] =
    b"`preamble$` string: the texts of all `@preamble` items, joined. Example: `preamble$ empty$ 'skip$ { preamble$ write$ newline$ } if$`";

const PURIFY: &[u8] =
    b"string `purify$` string: only its letters, digits and spaces, for sorting. Example: `title purify$`";

const QUOTE: &[u8] = b"`quote$` string: a double quote. Example: `quote$ title * quote$ *`";

const SKIP: &[u8] = b"`skip$`: does nothing. Example: `n #0 > { \", \" * } 'skip$ if$`";

const STACK: &[u8] =
    b"all values `stack$`: takes all values from the stack and logs each, for debugging. Example: `title #1 stack$`";

const SUBSTRING: &[u8] =
    b"string, integer start, integer length `substring$` string: that part, from 1; a negative start counts from the end. Example: `year #-1 #2 substring$`";

const SWAP: &[u8] =
    b"value a, value b `swap$` b, a: exchanges the top two values. Example: `swap$ \" \" * swap$ *`";

const TEXT_LENGTH: &[u8] =
    b"string `text.length$` integer: how many characters it has; a special character counts as one, braces don't. Example: `s text.length$`";

const TEXT_PREFIX: &[u8] =
    b"string, integer n `text.prefix$` string: its first n characters, with the braces that they need. Example: `s #3 text.prefix$`";

const TOP: &[u8] =
    b"value `top$`: takes the value and logs it, for debugging. Example: `title top$`";

const TYPE: &[u8] =
    b"`type$` string: the entry's type, empty if the style has no function for it. Example: `type$ \"book\" =`";

const WARNING: &[u8] =
    b"string `warning$`: logs the string as a warning. Example: `\"no year in \" cite$ * warning$`";

const WHILE: &[u8] =
    b"function a, function b `while$`: runs a, and as long as it leaves an integer above 0, runs b and a again. Example: `{ n #0 > } { n #1 - 'n := } while$`";

const WIDTH: &[u8] =
    b"string `width$` integer: its width in hundredths of a point of the font cmr10. Example: `label width$`";

const WRITE: &[u8] =
    b"string `write$`: appends the string to the line; long lines are broken at spaces. Example: `title write$`";

/// What a built-in function does.
pub fn help_of(builtin: Builtin) -> &'static [u8]
    ensures { result.now ≡ help_of builtin }
{
    match builtin {
        Builtin::Greater => GREATER,
        Builtin::Less => LESS,
        Builtin::Equals => EQUALS,
        Builtin::Plus => PLUS,
        Builtin::Minus => MINUS,
        Builtin::Join => JOIN,
        Builtin::Assign => ASSIGN,
        Builtin::AddPeriod => ADD_PERIOD,
        Builtin::CallType => CALL_TYPE,
        Builtin::ChangeCase => CHANGE_CASE,
        Builtin::ChrToInt => CHR_TO_INT,
        Builtin::Cite => CITE,
        Builtin::Duplicate => DUPLICATE,
        Builtin::Empty => EMPTY,
        Builtin::FormatName => FORMAT_NAME,
        Builtin::If => IF,
        Builtin::IntToChr => INT_TO_CHR,
        Builtin::IntToStr => INT_TO_STR,
        Builtin::Missing => MISSING,
        Builtin::Newline => NEWLINE,
        Builtin::NumNames => NUM_NAMES,
        Builtin::Pop => POP,
        Builtin::Preamble => PREAMBLE,
        Builtin::Purify => PURIFY,
        Builtin::Quote => QUOTE,
        Builtin::Skip => SKIP,
        Builtin::Stack => STACK,
        Builtin::Substring => SUBSTRING,
        Builtin::Swap => SWAP,
        Builtin::TextLength => TEXT_LENGTH,
        Builtin::TextPrefix => TEXT_PREFIX,
        Builtin::Top => TOP,
        Builtin::Type => TYPE,
        Builtin::Warning => WARNING,
        Builtin::While => WHILE,
        Builtin::Width => WIDTH,
        Builtin::Write => WRITE,
    }
}
