//! What helps to write databases and LaTeX texts: completions, and actions that repair what is wrong at a place.
#![tactic(auto)]

mod actions;
mod citing;
mod completing;
mod fields;
mod finding;
mod item_ends;
mod quick_fix;
mod respelling;
mod spellings;
mod style_actions;
mod style_macros;
mod style_names;
mod types;
mod written;

pub use actions::actions_for;
pub use completing::completion_at;
pub use finding::definition_at;
pub use style_actions::actions_in_style;
