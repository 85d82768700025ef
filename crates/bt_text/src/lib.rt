//! What every layer knows of texts: bytes and their classes, special characters, the functions on texts, and how lines
//! are broken.
//!
//! The definitions cut a text into blocks. The functions on texts handle the bytes outside groups in runs: a run is
//! copied at once, then changed in place. Only groups are looked at block by block.
#![tactic(auto)]

mod blocks;
mod by_name;
mod byte_tests;
mod bytes;
mod case_change;
mod case_folding;
mod chunks;
mod classes;
mod depth;
mod element;
mod excerpt;
mod held;
mod kept_bytes;
mod length;
mod line_breaks;
mod modes;
mod name_bytes;
mod name_list;
mod output;
mod period;
mod places;
mod prefix;
mod purification;
mod runs;
mod same;
mod sequence;
mod shared;
mod sparse;
mod special;
mod substrings;
mod titles;
mod values;
mod white;
mod widths;

pub use blocks::{begins_special, block_len};
pub use by_name::ByName;
pub use byte_tests::{class, is_digit, is_letter, is_separator, is_white};
pub use bytes::Bytes;
pub use case_change::{change_case, push_changed_case};
pub use case_folding::{eq_ignore_ascii_case, is_ascii_lowercase, to_ascii_lowercase};
pub use classes::Class;
pub use depth::{balanced, depth_after, depth_of};
pub use element::Element;
pub use excerpt::Excerpt;
pub use held::{Held, HeldFault, TEXT_BYTES};
pub use length::text_length;
pub use modes::Mode;
pub use name_bytes::{is_name, is_name_byte, name_len};
pub use name_list::NameList;
pub use period::{add_period, push_with_period};
pub use prefix::{push_prefix, text_prefix};
pub use purification::{purify, push_purified};
pub use same::{Same, are_same, equal_bytes};
pub use sequence::Sequence;
pub use shared::{Shared, shared_all};
pub use sparse::SparseTexts;
pub use special::{control_name_len, is_foreign};
pub use substrings::{part_place, substring};
pub use values::Values;
pub use white::{is_white_joined, join_white, trim_end, white_run};
pub use widths::width;
