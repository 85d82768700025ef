//! The version.

/// The version of the programs, the packages and the man pages.
pub const VERSION: &str = "0.9.0";
