//! When another `bibtex` should do a job: this program ends a run at a style's first fault and at its limits, but the
//! original goes on.

use bt_log::{Message, Place, Rank, Said};
use bt_run::Answers;

/// The end of the warning of a value that is left out because it is too long.
const TOO_LONG: &[u8] = b" is over 65536 bytes";

fn is_style_fault(message: &Message) -> bool {
    match (&message.rank, &message.place) {
        (Rank::Error, Some(Place::Line { file, .. })) => file.as_slice().ends_with(b".bst"),
        _ => false,
    }
}

fn is_step_limit(message: &Message) -> bool {
    matches!(
        (&message.rank, &message.place),
        (Rank::Fatal, Some(Place::Step { .. }))
    )
}

fn is_value_limit(message: &Message) -> bool {
    match &message.said {
        Said::Words(words) => {
            message.rank == Rank::Warning
                && message.entry.is_none()
                && words.as_slice().ends_with(TOO_LONG)
        }
        Said::OfFile { .. } => false,
    }
}

/// The message about something that another program would have carried on or kept, if there is one.
pub fn reason(answers: &Answers) -> Option<&Message> {
    answers.messages.as_slice().iter().find(|message| {
        is_style_fault(message) || is_step_limit(message) || is_value_limit(message)
    })
}
