//! Whether two lists of messages are the same, of READ or of a step.

ghost use Rattle.std.specs.Prelude.{◌≡◌, IsTrue};

use crate::reused_step::is_same_number;
use bt_log::{Message, Place, Said};
use bt_text::{Bytes, Shared, equal_bytes};

fn is_same_text(one: &Option<Shared<Bytes>>, other: &Option<Shared<Bytes>>) -> bool
    ensures { IsTrue result → one.now ≡ other.now }
{
    match (one, other) {
        (None, None) => true,
        (Some(one), Some(other)) => equal_bytes(one.as_slice(), other.as_slice()),
        _ => false,
    }
}

/// Whether two messages say the same words. (Neither READ nor a step says anything of files.)
fn is_same_said(one: &Said, other: &Said) -> bool
    ensures { IsTrue result → one.now ≡ other.now }
{
    match (one, other) {
        (Said::Words(one), Said::Words(other)) => equal_bytes(one.as_slice(), other.as_slice()),
        _ => false,
    }
}

/// Whether two places are the same line of a database. (READ gives only such places, and a step none.)
fn is_same_line(one: &Place, other: &Place) -> bool
    ensures { IsTrue result → one.now ≡ other.now }
{
    match (one, other) {
        (
            Place::DatabaseLine {
                database: one,
                line: first,
                byte: from,
            },
            Place::DatabaseLine {
                database: other,
                line: second,
                byte: at,
            },
        ) => one == other && first == second && is_same_number(*from, *at),
        _ => false,
    }
}

fn is_same_place(one: &Option<Place>, other: &Option<Place>) -> bool
    ensures { IsTrue result → one.now ≡ other.now }
{
    match (one, other) {
        (None, None) => true,
        (Some(one), Some(other)) => is_same_line(one, other),
        _ => false,
    }
}

fn is_same_message(one: &Message, other: &Message) -> bool
    ensures { IsTrue result → one.now ≡ other.now }
{
    one.rank == other.rank
        && is_same_said(&one.said, &other.said)
        && is_same_text(&one.entry, &other.entry)
        && is_same_place(&one.place, &other.place)
        && is_same_text(&one.second, &other.second)
}

/// Whether two lists of messages of READ or of a step are the same.
pub fn are_same_messages(messages: &[Message], others: &[Message]) -> bool
    ensures { IsTrue result → messages.now ≡ others.now }
{
    if messages.len() != others.len() {
        return false;
    }
    'messages: for number in 0..messages.len() {
        if !is_same_message(&messages[number], &others[number]) {
            return false;
        }
    }
    true
}
