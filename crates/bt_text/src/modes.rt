//! How the case of a text can be changed.

/// How the case of a text is changed.
#[derive(Clone, Copy, PartialEq, Eq)]
pub enum Mode {
    /// As `Lower`, but a letter at depth 0, or a whole special character, is spared at place 0 and after white space
    /// with a colon before it.
    Title,
    /// Letters at depth 0, and those of special characters outside control sequences, are made small.
    Lower,
    /// The same letters are made large.
    Upper,
}
