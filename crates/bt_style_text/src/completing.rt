//! What can be written at a place.

ghost use Rattle.std.specs.Prelude.{◌≡◌, filter, IfOk};
ghost use Rattle.std.specs.List.{find};
ghost use Rattle.bt_style_text.specs.Completing.{is_before, is_closed, covers, is_covered, context_at, offer_of, offer_at, goes_on, is_written, written_from, command_start, is_offered, is_names, offered};

use crate::marks::Mark;
use crate::names::{Space, declares, space_of};
use crate::outline::start_after;
use crate::parts::part;
use crate::roles::{Context, Role, TOP, context_after, role_of};
use crate::words::{Word, WordKind};
use std::alloc::{AllocError, Global};

/// What can be written at a place.
#[derive(Clone, Copy)]
pub enum Offer {
    Nothing,
    Commands,
    /// Built-in functions, and what the style declares before the place.
    Names,
}

/// Whether a word can't be continued at its end.
fn is_closed(kind: WordKind) -> bool
    ensures { result ≡ is_closed kind }
{
    match kind {
        WordKind::Open | WordKind::Close | WordKind::Literal => true,
        WordKind::Plain | WordKind::Broken | WordKind::Comment => false,
    }
}

/// Whether a word stands before a place, and isn't continued there.
fn is_before(place: usize, word: Word) -> bool
    ensures { result ≡ is_before place word }
{
    word.end < place || word.end == place && is_closed(word.kind)
}

/// Whether a word covers a place so that nothing else can be written there: a comment up to its end, a literal inside.
fn covers(place: usize, word: Word) -> bool
    ensures { result ≡ covers place word }
{
    match word.kind {
        WordKind::Comment | WordKind::Broken => word.start < place && place <= word.end,
        WordKind::Literal => word.start < place && place < word.end,
        WordKind::Open | WordKind::Close | WordKind::Plain => false,
    }
}

fn is_covered(words: &[Word], place: usize) -> bool
    ensures { result ≡ is_covered place words.now }
{
    words.iter().any(|word| covers(place, *word))
}

/// Where the word at a place stands: after the words before it.
fn context_at(text: &[u8], words: &[Word], place: usize) -> Context
    ensures { result ≡ context_at text.now place words.now }
{
    let mut context = TOP;
    'words: for word in words {
        if !is_before(place, *word) {
            return context;
        }
        context = context_after(context, word.kind, part(text, word.start, word.end));
    }
    context
}

/// What can be written where a word would have this role.
fn offer_of(role: Role) -> Offer
    ensures { result ≡ offer_of role }
{
    match role {
        Role::Called => Offer::Names,
        _ => Offer::Nothing,
    }
}

/// What can be written at a place of a text that has these words.
pub fn offer_at(text: &[u8], words: &[Word], place: usize) -> Offer
    ensures { result ≡ offer_at text.now place words.now }
{
    if is_covered(words, place) {
        return Offer::Nothing;
    }
    let context = context_at(text, words, place);
    if context.depth == 0 {
        Offer::Commands
    } else {
        offer_of(role_of(context, WordKind::Plain, b"x"))
    }
}

/// Whether a word of this role can be continued.
fn goes_on(role: Role) -> bool
    ensures { result ≡ goes_on role }
{
    match role {
        Role::Open | Role::Close | Role::Literal | Role::Broken | Role::Comment => false,
        _ => true,
    }
}

fn is_written(place: usize, mark: Mark) -> bool
    ensures { result ≡ is_written place mark }
{
    goes_on(mark.role) && mark.start < place && place <= mark.end
}

fn written_mark(marks: &[Mark], place: usize) -> Option<Mark>
    ensures { result ≡ find (is_written place) marks.now }
{
    marks.iter().copied().find(|mark| is_written(place, *mark))
}

/// Where the word begins that is being written at a place, after its quote; the place itself if there is none.
pub fn written_from(marks: &[Mark], place: usize) -> usize
    ensures { result ≡ written_from place marks.now }
{
    match written_mark(marks, place) {
        Some(mark) => mark.start,
        None => place,
    }
}

/// Where the last command begins that begins before a place or there; 0 if there is none.
fn command_start(marks: &[Mark], place: usize) -> usize
    ensures { result ≡ command_start place 0 marks.now }
{
    let mut start = 0;
    'marks: for mark in marks {
        if mark.start <= place {
            start = start_after(start, *mark);
        }
    }
    start
}

/// Whether a mark declares a name before the command that begins at a place.
fn is_offered(start: usize, mark: Mark) -> bool
    ensures { result ≡ is_offered start mark }
{
    declares(mark.role) && is_names(space_of(mark.role)) && mark.end < start
}

fn is_names(space: Space) -> bool
    ensures { result ≡ is_names space }
{
    match space {
        Space::Names => true,
        Space::Nothing | Space::Macros => false,
    }
}

fn offered_before(alloc: Global, marks: &[Mark], start: usize) -> Result<Vec<Mark>, AllocError>
    ensures { IfOk result (λ found. found.items ≡ filter (is_offered start) marks.now) }
{
    marks
        .iter()
        .copied()
        .filter(|mark| is_offered(start, *mark))
        .collect(alloc)
}

/// What a style declares before the command at a place: fields, variables and functions, in order. A function isn't declared
/// in its own body.
pub fn offered(alloc: Global, marks: &[Mark], place: usize) -> Result<Vec<Mark>, AllocError>
    ensures { IfOk result (λ found. found.items ≡ offered place marks.now) }
{
    let start = command_start(marks, place);
    let found = offered_before(alloc, marks, start)?;
    Ok(found)
}
