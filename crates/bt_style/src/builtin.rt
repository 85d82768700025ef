//! The built-in functions in one table: their names, and their places in it.

ghost use Rattle.std.specs.Prelude.{◌≡◌, ◌<◌};
ghost use Rattle.bt_style.specs.Builtins.{place_of, name_of};

/// How many built-in functions there are.
pub const BUILTIN_COUNT: usize = 37;

/// A built-in function of *Designing BibTeX Styles*, in the order of the table. Arguments are named from the lowest on
/// the literal stack to the top.
#[derive(Clone, Copy, Debug, PartialEq, Eq, Hash)]
pub enum Builtin {
    /// `>`. Two numbers: 1 if the lower one on the stack is greater, else 0.
    Greater,
    /// `<`. Two numbers: 1 if the lower one on the stack is less, else 0.
    Less,
    /// `=`. Two numbers or two texts: 1 if they are equal, else 0.
    Equals,
    /// `+`. Two numbers: their sum.
    Plus,
    /// `-`. Two numbers: the lower one on the stack minus the upper one.
    Minus,
    /// `*`. Two texts: the lower one followed by the upper one.
    Join,
    /// `:=`. A value and a quoted variable: gives the variable the value.
    Assign,
    /// `add.period$`. A text: the text with a full stop at its end, unless a sentence ends there.
    AddPeriod,
    /// `call.type$`. Runs the function of the entry's type, else `default.type`.
    CallType,
    /// `change.case$`. A text and `t`, `l` or `u`: the text as a title, in small letters or in capitals.
    ChangeCase,
    /// `chr.to.int$`. A text of one byte: the byte's number.
    ChrToInt,
    /// `cite$`. The entry's key.
    Cite,
    /// `duplicate$`. A value: the value twice.
    Duplicate,
    /// `empty$`. A text or a missing field: 1 if it is missing, empty or only white space, else 0.
    Empty,
    /// `format.name$`. A list of names, a number and a pattern: the name of that number, formatted by the pattern.
    FormatName,
    /// `if$`. A number and two functions: runs the lower one if the number is above 0, else the upper one.
    If,
    /// `int.to.chr$`. A number from 0 to 127: the text of that byte.
    IntToChr,
    /// `int.to.str$`. A number: its decimal digits, after `-` if it is negative.
    IntToStr,
    /// `missing$`. A text or a missing field: 1 if it is missing, else 0.
    Missing,
    /// `newline$`. Writes the output buffer as a line.
    Newline,
    /// `num.names$`. A list of names: how many there are.
    NumNames,
    /// `pop$`. A value: nothing.
    Pop,
    /// `preamble$`. The preambles of all databases, joined.
    Preamble,
    /// `purify$`. A text: its letters, digits and spaces.
    Purify,
    /// `quote$`. A double quote.
    Quote,
    /// `skip$`. Nothing.
    Skip,
    /// `stack$`. All values: logs and removes each, from the top.
    Stack,
    /// `substring$`. A text, a start and a length: that part of the text.
    Substring,
    /// `swap$`. Two values: exchanges them.
    Swap,
    /// `text.length$`. A text: how many text characters it has.
    TextLength,
    /// `text.prefix$`. A text and a number: the text's first text characters.
    TextPrefix,
    /// `top$`. A value: logs it.
    Top,
    /// `type$`. The entry's type, or the empty text if the style has no function of that name.
    Type,
    /// `warning$`. A text: logs it as a warning.
    Warning,
    /// `while$`. Two functions: runs the lower one and, if it leaves a number above 0, the upper one, and so on.
    While,
    /// `width$`. A text: its width.
    Width,
    /// `write$`. A text: appends it to the output buffer.
    Write,
}

impl Builtin {
    /// All of them, in the order of their table.
    pub const ALL: [Builtin; BUILTIN_COUNT] = [
        Builtin::Greater,
        Builtin::Less,
        Builtin::Equals,
        Builtin::Plus,
        Builtin::Minus,
        Builtin::Join,
        Builtin::Assign,
        Builtin::AddPeriod,
        Builtin::CallType,
        Builtin::ChangeCase,
        Builtin::ChrToInt,
        Builtin::Cite,
        Builtin::Duplicate,
        Builtin::Empty,
        Builtin::FormatName,
        Builtin::If,
        Builtin::IntToChr,
        Builtin::IntToStr,
        Builtin::Missing,
        Builtin::Newline,
        Builtin::NumNames,
        Builtin::Pop,
        Builtin::Preamble,
        Builtin::Purify,
        Builtin::Quote,
        Builtin::Skip,
        Builtin::Stack,
        Builtin::Substring,
        Builtin::Swap,
        Builtin::TextLength,
        Builtin::TextPrefix,
        Builtin::Top,
        Builtin::Type,
        Builtin::Warning,
        Builtin::While,
        Builtin::Width,
        Builtin::Write,
    ];

    /// The function's place in the table, from 0.
    #[tactic(auto, unfolding(crate::specs::Builtins::table))]
    pub fn place(self) -> usize
        ensures value { result ≡ place_of self }
        ensures within { result < 37 }
    {
        self as usize
    }

    /// The function's name.
    pub fn name(self) -> &'static [u8]
        ensures { result.now ≡ name_of self }
    {
        match self {
            Builtin::Greater => b">",
            Builtin::Less => b"<",
            Builtin::Equals => b"=",
            Builtin::Plus => b"+",
            Builtin::Minus => b"-",
            Builtin::Join => b"*",
            Builtin::Assign => b":=",
            Builtin::AddPeriod => b"add.period$",
            Builtin::CallType => b"call.type$",
            Builtin::ChangeCase => b"change.case$",
            Builtin::ChrToInt => b"chr.to.int$",
            Builtin::Cite => b"cite$",
            Builtin::Duplicate => b"duplicate$",
            Builtin::Empty => b"empty$",
            Builtin::FormatName => b"format.name$",
            Builtin::If => b"if$",
            Builtin::IntToChr => b"int.to.chr$",
            Builtin::IntToStr => b"int.to.str$",
            Builtin::Missing => b"missing$",
            Builtin::Newline => b"newline$",
            Builtin::NumNames => b"num.names$",
            Builtin::Pop => b"pop$",
            Builtin::Preamble => b"preamble$",
            Builtin::Purify => b"purify$",
            Builtin::Quote => b"quote$",
            Builtin::Skip => b"skip$",
            Builtin::Stack => b"stack$",
            Builtin::Substring => b"substring$",
            Builtin::Swap => b"swap$",
            Builtin::TextLength => b"text.length$",
            Builtin::TextPrefix => b"text.prefix$",
            Builtin::Top => b"top$",
            Builtin::Type => b"type$",
            Builtin::Warning => b"warning$",
            Builtin::While => b"while$",
            Builtin::Width => b"width$",
            Builtin::Write => b"write$",
        }
    }
}
