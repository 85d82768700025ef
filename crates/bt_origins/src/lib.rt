//! Where the parts of a run's bibliography come from: its fields with their places in the databases, and the style's words.
//!
//! The steps that a run kept are carried out again by the machine of `bt_why`, whose bytes have marks (`explained.rt`).
//! `places.rt` finds entries and fields in the databases, `sources.rt` puts marks into words.
#![tactic(auto)]

mod explained;
mod fates;
mod files;
mod places;
mod sources;

pub use explained::{Difference, Explained, explain};
pub use fates::Fate;
pub use files::{NamedText, is_source, places_of, style_named, text_named};
pub use places::{PlacedEntry, PlacedField, Places};
pub use sources::{Sources, decimal};
