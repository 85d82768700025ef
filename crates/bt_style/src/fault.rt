//! What can be wrong with a style's text.

ghost use Rattle.std.specs.Prelude.{◌≡◌};
ghost use Rattle.bt_style.specs.Fault.{words_of};

use std::alloc::AllocError;
use std::fmt;
use thiserror::Error;

/// What is wrong with a style's text.
#[derive(Clone, Copy, PartialEq, Eq, Debug)]
pub enum FaultKind {
    /// A word where a command must be isn't the word of a command.
    UnknownCommand,
    /// MACRO comes after READ; or EXECUTE, ITERATE, REVERSE or SORT comes before it.
    CommandOrder,
    /// A second ENTRY.
    SecondEntry,
    /// A second READ.
    SecondRead,
    /// READ comes before ENTRY.
    NoEntry,
    /// A name is used that isn't defined before.
    UnknownName,
    /// A name or a macro is declared that exists already.
    NameTaken,
    /// A number doesn't fit into 32 bits with sign.
    NumberTooLarge,
    /// A text has no second quote on its line.
    UnclosedText,
    /// The end or something else comes where a right brace must be, or braces nest more than 100 deep.
    UnclosedBrace,
    /// A declared word isn't a name, or an apostrophe quotes nothing.
    BadName,
    /// A number has no digits or a wrong byte after it, a text has a wrong byte after it, or a brace comes where a
    /// command must be.
    StrayByte,
    /// EXECUTE, ITERATE or REVERSE names a field or a variable.
    NotAFunction,
    /// An argument, the name in it or a macro's text is missing.
    MissingArgument,
}

impl FaultKind {
    /// What the log says of such a fault.
    pub fn words(self) -> &'static [u8]
        ensures { result.now ≡ words_of self }
    {
        match self {
            FaultKind::UnknownCommand => b"This isn't a command",
            FaultKind::CommandOrder => b"This command stands in the wrong order",
            FaultKind::SecondEntry => b"Illegal, another ENTRY command",
            FaultKind::SecondRead => b"Illegal, another READ command",
            FaultKind::NoEntry => b"READ stands before ENTRY",
            FaultKind::UnknownName => b"This name isn't defined",
            FaultKind::NameTaken => b"This name is taken",
            FaultKind::NumberTooLarge => b"This number is too large",
            FaultKind::UnclosedText => b"This text has no end",
            FaultKind::UnclosedBrace => b"A brace isn't closed",
            FaultKind::BadName => b"This isn't a name",
            FaultKind::StrayByte => b"This byte can't stand here",
            FaultKind::NotAFunction => b"This isn't a function",
            FaultKind::MissingArgument => b"An argument is missing",
        }
    }
}

impl fmt::Display for FaultKind {
    fn fmt<W: fmt::Write>(&self, f: &mut fmt::Formatter<W>) -> fmt::Result {
        fmt::Debug::fmt(self, f)
    }
}

/// A fault in a style's text.
#[derive(Clone, Copy, PartialEq, Eq, Debug)]
pub struct StyleFault {
    pub kind: FaultKind,
    /// The line of the token at which it was found, from 1.
    pub line: usize,
}

/// Why there is no style.
#[derive(Clone, Copy, PartialEq, Eq, Debug, Error)]
pub enum StyleRefusal {
    /// The text has a fault, and this is the first one.
    #[error("Fault")]
    Fault {
        kind: FaultKind,
        /// The line of the token at which it was found, from 1.
        line: usize,
    },
    /// There is no memory left.
    #[error("OutOfMemory")]
    OutOfMemory,
}

/// A fault on a line.
pub fn fault(kind: FaultKind, line: usize) -> StyleRefusal
    ensures { result ≡ StyleRefusal.Fault kind line }
{
    StyleRefusal::Fault { kind, line }
}

impl From<AllocError> for StyleRefusal {
    ghost use Rattle.bt_style.specs.declared.fault.StyleRefusal.TheVariants.{OutOfMemory};

    ghost from_gives = { λ _ e. e ≡ OutOfMemory };

    fn from(_error: AllocError) -> StyleRefusal {
        StyleRefusal::OutOfMemory
    }
}
