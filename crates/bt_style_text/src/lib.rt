//! What a style's text says of itself, word by word: where names are declared and used.
//!
//! An editor asks while the text is being written, so nothing here asks for a style that can be read: the text is cut into
//! words by the rules of the style's reader (`words.rt`), and each word gets a role by what stands before it (`marks.rt`).
//! A fault changes the roles of words up to the next command.
#![tactic(auto)]

mod builtins;
mod commands;
mod comments;
mod completing;
mod costs;
mod help;
mod hinting;
mod hover;
mod lines;
mod marks;
mod names;
mod numbered;
mod outline;
mod parts;
mod renaming;
mod roles;
mod uses;
mod words;

pub use builtins::all_builtins;
pub use commands::{Command, all_commands};
pub use completing::{Offer, offer_at, offered, written_from};
pub use help::help_of;
pub use hinting::{Likely, declarations, likely_name, meant, unknown, unused};
pub use hover::hover_of;
pub use marks::{Mark, marks_of};
pub use names::{declares, definition, name_at, references};
pub use numbered::{Numbered, PlacedWord};
pub use outline::{Symbol, symbols_of};
pub use parts::part;
pub use renaming::{RenameRefusal, rename};
pub use roles::{Kind, Role};
pub use words::{Word, WordKind, words_of};
