//! Names of people: how many a text lists, the parts of one, and one in a pattern.
//!
//! Definitions cut whole texts. The code makes one pass with a depth counter: names and faults are found without memory,
//! tokens borrow the bytes of their name, and a pattern is written straight into the caller's buffer.
#![tactic(auto)]

mod cuts;
mod faults;
mod formatted_name;
mod groups;
mod kept_pieces;
mod lent_tokens;
mod name;
mod name_parts;
mod names;
mod patterns;
mod pieces;
mod sound_patterns;
mod spelling;
mod tokens;
mod vons;
mod writing;

pub use faults::{FormatFault, NameFault};
pub use formatted_name::{ListedName, format, parts};
pub use names::count;
pub use sound_patterns::SoundPatterns;
pub use spelling::Form;
pub use tokens::{Parts, Token};
pub use writing::Written;
