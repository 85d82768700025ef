//! What a language server answers about a style's text, as values of the protocol.
#![tactic(auto)]

mod completion;
mod folding;
mod hinting;
mod hovering;
mod outline;
mod references;
mod renaming;
mod shown_style;

pub use hinting::fault_words;
pub use hovering::hover_contents;
pub use references::Lent;
pub use shown_style::ShownStyle;
