//! How a pattern spells the tokens of a part: whole, or by their initials.

/// How tokens are spelled.
#[derive(Clone, Copy, PartialEq, Eq)]
pub enum Form {
    /// With all their bytes.
    Whole,
    /// By their first letters or special characters.
    Initials,
}
