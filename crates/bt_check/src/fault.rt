//! What a style can be made to do wrong.

use bt_style::Builtin;
use bt_text::Bytes;
use std::alloc::{AllocError, Global};

#[derive(Clone, Copy, PartialEq, Eq)]
pub enum FaultKind {
    /// A built-in function finds too little on the stack.
    Empty,
    /// A built-in function gets a value of the wrong kind.
    Kind,
    /// Something of an entry is used outside of one.
    Entry,
    /// `:=` gets something other than a variable.
    Variable,
    /// A step leaves something on the stack.
    Left,
    /// `change.case$` gets a constant other than `t`, `l` and `u`.
    Case,
    /// A constant isn't one byte, or a constant integer isn't a byte's.
    Character,
    /// The turns of a loop leave more and more on the stack.
    Loop,
    /// A function that isn't known before a run is run.
    Unknown,
    /// `call.type$` is used in a type's function.
    Recursion,
}

impl FaultKind {
    pub fn code(self) -> &'static [u8] {
        match self {
            FaultKind::Empty => b"empty",
            FaultKind::Kind => b"kind",
            FaultKind::Entry => b"entry",
            FaultKind::Variable => b"variable",
            FaultKind::Left => b"left",
            FaultKind::Case => b"case",
            FaultKind::Character => b"character",
            FaultKind::Loop => b"loop",
            FaultKind::Unknown => b"unknown",
            FaultKind::Recursion => b"recursion",
        }
    }
}

#[derive(Clone, Copy)]
pub struct Call {
    pub function: usize,
    /// The line of the word in it that is being run.
    pub line: usize,
}

#[derive(Clone, Copy)]
pub enum FieldState {
    Missing,
    /// It is there, and white space.
    Blank,
    /// It is missing or blank.
    Empty,
    /// It isn't empty.
    Present,
    /// It isn't missing.
    Given,
}

impl FieldState {
    pub fn word(self) -> &'static [u8] {
        match self {
            FieldState::Missing => b"missing",
            FieldState::Blank => b"blank",
            FieldState::Empty => b"empty",
            FieldState::Present => b"present",
            FieldState::Given => b"given",
        }
    }
}

#[derive(Clone, Copy)]
pub struct Condition {
    pub field: usize,
    pub state: FieldState,
}

/// A command that runs a function, and for whom.
#[derive(Clone, Copy)]
pub struct Step {
    /// The function that the command names, if it names no built-in one.
    pub function: Option<usize>,
    pub line: usize,
    pub is_of_entries: bool,
    /// The function of the entries' type, if the step is of `call.type$`.
    pub entry_type: Option<usize>,
}

#[derive(Drop)]
pub struct Fault {
    pub kind: FaultKind,
    pub words: Bytes,
    pub line: usize,
    /// The calls that lead to it, the outermost first.
    pub calls: Vec<Call>,
    pub conditions: Vec<Condition>,
    pub step: Step,
    /// The built-in function that complains, if one does.
    pub by: Option<Builtin>,
}

/// The words about kinds: `integer or string`.
pub fn kinds_words(
    alloc: Global,
    kinds: bt_known::Kinds,
    field: &[u8],
) -> Result<Bytes, AllocError> {
    let mut words = Bytes::new(alloc);
    let pairs: [(bool, &[u8]); 4] = [
        (kinds.function, b"function"),
        (kinds.integer, b"integer"),
        (kinds.missing, b"missing"),
        (kinds.string, b"string"),
    ];
    for (is_among, word) in pairs {
        if is_among {
            if words.len() > 0 {
                words.append(b" or ")?;
            }
            words.append(word)?;
            if word == b"missing".as_slice() && !field.is_empty() {
                words.append_all(&[b" ", field])?;
            }
        }
    }
    Ok(words)
}
