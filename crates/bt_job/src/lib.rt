//! A job of BibTeX: its files, its log, and what its `.aux` files ask for.
#![tactic(auto)]

mod asked;
mod aux_texts;
mod citations;
mod file_names;
mod files;
mod line_effects;
mod name_table;
mod nested_files;
mod progress;
mod reader;

pub use aux_texts::AuxTexts;
pub use citations::Citations;
pub use file_names::{FILE_NAME_BYTES, file_name_of, is_file_name, owned_text_of, text_of};
pub use files::File;
pub use nested_files::read_citations;
