//! The word of a style's text at which its first fault is.
//!
//! The reader of styles (`bt_style`) tells the line of a fault and no word. So the text is read again, cut behind one word
//! of that line after the other: the first cut that has the fault ends with its word.
#![tactic(auto)]

mod faulty;

pub use faulty::faulty_word;
