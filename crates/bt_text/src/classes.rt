//! The classes of bytes.

/// The class of a byte.
#[derive(Clone, Copy, PartialEq, Eq)]
pub enum Class {
    /// Tab, line feed, carriage return and space.
    White,
    /// `A` to `Z`, `a` to `z`, and the bytes from 128 on.
    Letter,
    /// `0` to `9`.
    Digit,
    /// `~` and `-`.
    Sep,
    /// All other bytes.
    Other,
}
