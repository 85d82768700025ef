//! A run of BibTeX over the present files: the commands of the style, the log and the counts. Steps of an earlier run
//! that agree are reused.
#![tactic(auto)]

mod alike;
mod answers;
mod asking;
mod beginning;
mod bibliography;
mod change;
mod changed_entry;
mod commands;
mod counts;
mod course;
mod database_edit;
mod database_messages;
mod declarations;
mod finding;
mod follow;
mod index;
mod job;
mod kept;
mod kept_resolution;
mod kept_steps;
mod kept_walk;
mod known_calls;
mod mark;
mod once;
mod prefetch;
mod put;
mod read_command;
mod readings;
mod recorder;
mod reuse;
mod reused_step;
mod same_input;
mod same_messages;
mod sort_command;
mod sort_order;
mod start;
mod step;
mod step_command;
mod styles;
mod unseen;
mod walk;
mod walk_context;
mod written_steps;

pub use answers::{Answers, Report, Run, answers_after};
pub use change::Change;
pub use course::{CommandPlace, Course, Step};
pub use kept::Kept;
pub use once::run_once;
