//! The comments above a command.

ghost use Rattle.std.specs.Prelude.{◌≡◌, ◌≤◌, length, count_by};
ghost use Rattle.bt_text.specs.ByteTests.{is_line_feed};
ghost use Rattle.bt_style_text.specs.Comments.{line_number, follows, is_comment, longer, run_after, attached, comment_above};

use crate::marks::Mark;
use crate::parts::part;
use crate::roles::Role;

/// Comments, each on the line after the one before: the places where they begin and end.
#[derive(Clone, Copy)]
pub struct Run {
    pub start: usize,
    pub end: usize,
}

fn line_feeds(bytes: &[u8]) -> usize
    ensures value { result ≡ count_by is_line_feed bytes.now }
    ensures within { result ≤ length bytes.now }
{
    bytes.iter().filter(|b| **b == b'\n').count()
}

/// The line in which a place lies, from 0.
pub fn line_number(text: &[u8], place: usize) -> usize
    ensures value { result ≡ line_number place text.now }
    ensures within { result ≤ length text.now }
{
    line_feeds(text.split_at(place.min(text.len())).0)
}

/// Whether one place follows another with at most a line feed between them.
fn follows(text: &[u8], from: usize, to: usize) -> bool
    ensures { result ≡ follows text.now from to }
{
    line_feeds(part(text, from, to)) <= 1
}

fn is_comment(role: Role) -> bool
    ensures { result ≡ is_comment role }
{
    match role {
        Role::Comment => true,
        _ => false,
    }
}

/// The comments that a further one begins or goes on.
fn longer(text: &[u8], run: Option<Run>, start: usize, end: usize) -> Run
    ensures { result ≡ longer text.now run start end }
{
    match run {
        Some(run) => if follows(text, run.end, start) {
            Run {
                start: run.start,
                end,
            }
        } else {
            Run { start, end }
        },
        None => Run { start, end },
    }
}

fn run_after(text: &[u8], run: Option<Run>, mark: Mark) -> Option<Run>
    ensures { result ≡ run_after text.now run mark }
{
    if is_comment(mark.role) {
        Some(longer(text, run, mark.start, mark.end))
    } else {
        None
    }
}

/// The comments, if a place follows them.
fn attached(text: &[u8], run: Option<Run>, start: usize) -> Option<Run>
    ensures { result ≡ attached text.now run start }
{
    match run {
        Some(run) => if follows(text, run.end, start) {
            Some(run)
        } else {
            None
        },
        None => None,
    }
}

/// The comments right above the word that begins at a place.
pub fn comment_above(text: &[u8], marks: &[Mark], start: usize) -> Option<Run>
    ensures { result ≡ comment_above text.now start marks.now }
{
    let mut run = None;
    'marks: for mark in marks {
        if start <= mark.start {
            return attached(text, run, start);
        }
        run = run_after(text, run, *mark);
    }
    None
}
