//! The command line of BibTeX and its one-shot form: reads the files of a job, writes its `.bbl` and its `.blg`.
#![tactic(auto)]

mod folder;
mod job;
mod job_files;
mod met_names;
mod options;
mod words;

pub use folder::{Folder, Found};
pub use job::one_shot;
pub use options::{Options, OptionsFault, parse_options};
