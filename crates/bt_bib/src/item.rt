//! The items of a database, as the readers return them.

use crate::fault::ItemFault;
use crate::value_parts::ValueParts;
use bt_text::{Bytes, Excerpt, Sequence, Shared};

/// The sign that closes an item.
#[derive(Clone, Copy, Debug, PartialEq, Eq)]
pub enum Closing {
    /// `}`, if `{` opened the item.
    Brace,
    /// `)`, if `(` opened it.
    Parenthesis,
}

/// A part of a value.
#[derive(Debug, Drop)]
pub enum Part {
    /// The bytes between two braces or quotes, or a run of digits.
    Text(Excerpt),
    /// A macro's name as written, and its line, relative to that of the item's `@`.
    Macro(Shared<Bytes>, usize),
}

/// A field of an entry.
#[derive(Debug, Drop)]
pub struct Field {
    /// Its name as written.
    pub name: Shared<Bytes>,
    /// The line of its name, relative to that of the item's `@`.
    pub line: usize,
    /// The parts of its value, one or more, in their order.
    pub value: ValueParts,
}

/// What was read of an entry.
#[derive(Debug, Drop)]
pub struct Entry {
    /// Its type as written; none if no type follows the `@`.
    pub kind: Option<Shared<Bytes>>,
    /// Its key as written, which may be empty; none if a fault comes before it.
    pub key: Option<Shared<Bytes>>,
    /// The fields whose values were read completely, in order.
    pub fields: Sequence<Field>,
}

/// What was read of a `@string`.
#[derive(Debug, Drop)]
pub struct Definition {
    /// The name that it defines, as written; none if a fault comes before its end.
    pub name: Option<Shared<Bytes>>,
    /// The parts of the value; none if it wasn't read completely.
    pub value: Option<ValueParts>,
}

/// The kinds of items, with what was read of them.
#[derive(Debug, Drop)]
pub enum Content {
    /// An entry, or an item whose type is faulty.
    Entry(Entry),
    /// A `@string`.
    Define(Definition),
    /// A `@preamble`, with the parts of its value; none if it wasn't read completely.
    Preamble(Option<ValueParts>),
}

/// An item, or what was read of one before its fault. Its lines are relative to that of its `@`.
#[derive(Debug, Drop)]
pub struct Item {
    /// The line of an entry's key or a string's name, else of the `@`.
    pub line: usize,
    /// What kind of item it is, and what was read of it.
    pub content: Content,
    /// How it is closed; none if no opening sign was read.
    pub close: Option<Closing>,
    /// What is wrong with it, if anything is.
    pub fault: Option<ItemFault>,
}

/// What begins with an `@`.
#[derive(Debug, Drop)]
pub enum Piece {
    /// The word `@comment`. What follows is read as if the word weren't there.
    Comment,
    /// An item.
    Item(Item),
}
