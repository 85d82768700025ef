//! The words of a style that ran when the steps of a run complained, and the calls that led there.
//!
//! A run keeps what each step was given, so a step that complained is carried out again by itself, by the machine of
//! `bt_why`, which knows the word that runs (`search.rt`). That machine knows words by their lines. It gets a program in which
//! each word has a line of its own, so it knows the very word (`Numbered` of `bt_style_text`).
#![tactic(auto)]

mod marking;
mod search;

pub use search::{TracedRun, step_words};
