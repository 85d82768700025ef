//! A job over an author's files, whose names may be any: it runs under names that a session admits, and is reported
//! under the author's. The size and number of files have no limit here; only a session's edits limit them.
#![tactic(auto)]

mod job;
mod job_run;

pub use job::{names_of, run, wanted};
pub use job_run::JobRun;
