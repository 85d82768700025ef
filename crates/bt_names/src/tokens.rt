//! The tokens that a name is made of, and its four parts.

use bt_text::{Bytes, Sequence};

/// A token of a name.
#[derive(Drop)]
pub struct Token {
    /// Its bytes.
    pub text: Bytes,
    /// What parts it from the token before: a comma, `-`, `~`, a space for any white space, or 0 for the first token of
    /// a name.
    pub before: u8,
}

/// The four parts of a name, each a list of tokens in their order.
#[derive(Drop)]
pub struct Parts {
    /// The first names.
    pub first: Sequence<Token>,
    /// What stands in small letters before the last name, as `de la`.
    pub von: Sequence<Token>,
    /// The last name.
    pub last: Sequence<Token>,
    /// What stands between two commas, as `Jr`.
    pub jr: Sequence<Token>,
}
