//! The paper that an editor works on, and what stands at a place of one of its texts: the entry, the key or the macro there.
//!
//! Everything here is written over any `Paper`, so nothing depends on how a session gets what a paper shows. A feature that
//! goes over many texts is a type: `Visit` says what a file adds to a list of values, and `Pick` what a mention adds.
#![tactic(auto)]

mod commented;
mod editor;
mod entries;
mod hover;
mod mentioning;
mod paper;
mod parameters;
mod picking;
mod shapes;
mod visiting;
mod words;

pub use commented::{is_commented, without_open_comments};
pub use editor::{Editor, Workspace};
pub use entries::{
    field_of, fields_of, has_extension, is_database, is_style, is_tex, item_around, key_of,
    kind_of, name_of, symbol_kind,
};
pub use hover::{hover_at, key_at, keys_at_end, word_of};
pub use mentioning::{citations_of, is_key, mention_at, mentions_of};
pub use paper::Paper;
pub use parameters::{
    Cursor, cursor_of, document_named, document_of, flag_at, has_word_at, place_of, position_at,
    text_at, version_at, wants_declarations,
};
pub use picking::{NamedText, Pick, with_picked};
pub use shapes::{
    SHOWN_BYTES, capabilities, diagnostic, diagnostic_values, location, publication, range_of,
    shown_status, shown_text,
};
pub use visiting::{Visit, is_any, with_files, with_texts, with_value};
pub use words::{bytes_of, counting_of, fits_latin, shown};
