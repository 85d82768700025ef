//! What a style's function takes from the stack and leaves there, and what lies there before a word, in words for an editor.
//!
//! `bt_check` finds it by running the function alone (`watching.rt` there). Here the word under the cursor is looked up among
//! the style's words (`spots.rt`), and what was found is put into words (`words.rt`, `sentences.rt`).
#![tactic(auto)]

mod notes;
mod sentences;
mod spots;
mod words;

pub use notes::stack_notes;
pub use words::with_notes;
