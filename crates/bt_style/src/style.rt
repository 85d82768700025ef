//! A style: its names, its functions and its commands.

ghost use Rattle.bt_style.specs.Apart.{FieldsAreApart};

use crate::builtin::Builtin;
use bt_text::{Bytes, Sequence};

/// What a name stands for, with its number among its kind.
#[derive(Clone, Copy, Debug, PartialEq, Eq, Hash)]
pub enum Target {
    Builtin(Builtin),
    Field(usize),
    EntryNumber(usize),
    EntryText(usize),
    GlobalNumber(usize),
    GlobalText(usize),
    Function(usize),
}

/// An element of a function's body.
#[derive(Drop)]
pub enum Op {
    /// A number, which is pushed.
    Number(i32),
    /// A text, which is pushed.
    Text(Bytes),
    /// A quoted name, which is pushed.
    Quote(Target),
    /// A function in braces, which is pushed.
    Block(Vec<Op>),
    /// A call of a name.
    Call(Target),
}

/// A function of the style.
#[derive(Drop)]
pub struct Function {
    /// Its name, in small letters.
    pub name: Bytes,
    pub body: Vec<Op>,
}

/// A macro of the style.
#[derive(Drop)]
pub struct Macro {
    /// Its name, in small letters.
    pub name: Bytes,
    pub text: Bytes,
}

/// What a command does.
#[derive(Clone, Copy, PartialEq, Eq)]
pub enum Action {
    /// Declares fields and variables of entries.
    Entry,
    /// Runs a function once.
    Execute(Target),
    /// Defines the function of this number.
    Function(usize),
    /// Declares global numbers.
    Integers,
    /// Runs a function for each entry in turn.
    Iterate(Target),
    /// Defines the macro of this number.
    Macro(usize),
    /// Reads the databases.
    Read,
    /// Runs a function for each entry, the last one first.
    Reverse(Target),
    /// Sorts the entries by their sort keys.
    Sort,
    /// Declares global texts.
    Strings,
}

/// A command.
#[derive(Clone, Copy, PartialEq, Eq)]
pub struct Command {
    pub action: Action,
    /// The line of its word, from 1.
    pub line: usize,
}

/// A style. A name's number is its place in the list of its kind; names are in small letters.
///
/// Fields begin with `crossref`, entry texts with `sort.key$`, global numbers with `entry.max$` and `global.max$`.
#[derive(Drop)]
pub struct Style {
    pub fields: Sequence<Bytes>,
    pub entry_numbers: Sequence<Bytes>,
    pub entry_texts: Sequence<Bytes>,
    pub global_numbers: Sequence<Bytes>,
    pub global_texts: Sequence<Bytes>,
    pub macros: Sequence<Macro>,
    pub functions: Vec<Function>,
    /// All commands in order, those that only declare something included.
    pub commands: Sequence<Command>,
}

/// A law: no two fields of a style that a text spells have the same name, ignoring case.
pub fn fields_are_apart()
    ensures { FieldsAreApart }
{}
