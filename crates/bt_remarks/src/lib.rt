//! What an editor is told of a paper and its styles beside the run's messages: lenses, origins, findings of a style's
//! check, and the words of a style that ran when messages came.
//!
//! All of it is plain data, so that the features which show it stand neither on the machine nor on the check. What finds it
//! is behind the trait `Remarks`.
#![tactic(auto)]

mod checked;
mod finding;
mod lens;
mod step_word;
mod values;
mod wording;

pub use checked::{Checked, check_again, found_for};
pub use finding::{CallPlace, Finding, Weight};
pub use lens::{FileLine, Lens, Origin};
pub use step_word::{CallWord, Remarks, StepWord};
pub use values::{ShownText, with_findings};
pub use wording::{entry_words, function_words};
