//! The words of a style's text with their roles.

ghost use Rattle.std.specs.Prelude.{◌≡◌, IfOk};
ghost use Rattle.bt_style_text.specs.Words.{words_of};
ghost use Rattle.bt_style_text.specs.Roles.{top};
ghost use Rattle.bt_style_text.specs.Marks.{is_quoted, name_start, mark_of, marks_from, marks_of};

use crate::parts::part;
use crate::roles::{Context, Role, TOP, context_after, role_of};
use crate::words::{Word, words_of};
use std::alloc::{AllocError, Global};

/// A word with its role. A quoted name begins after its quote.
#[derive(Clone, Copy)]
pub struct Mark {
    pub role: Role,
    pub start: usize,
    pub end: usize,
}

fn is_quoted(role: Role) -> bool
    ensures { result ≡ is_quoted role }
{
    match role {
        Role::Quoted => true,
        _ => false,
    }
}

/// Where a word's name begins: after its quote, if it has one.
fn name_start(role: Role, word: Word) -> usize
    ensures { result ≡ name_start role word }
{
    if is_quoted(role) && word.start < word.end {
        word.start + 1
    } else {
        word.start
    }
}

fn mark_of(context: Context, word: Word, bytes: &[u8]) -> Mark
    ensures { result ≡ mark_of context word bytes.now }
{
    let role = role_of(context, word.kind, bytes);
    Mark {
        role,
        start: name_start(role, word),
        end: word.end,
    }
}

fn marks_in(alloc: Global, text: &[u8], words: &[Word]) -> Result<Vec<Mark>, AllocError>
    ensures { IfOk result (λ marks. marks.items ≡ marks_from top text.now words.now) }
{
    let mut marks = Vec::new(alloc);
    let mut context = TOP;
    'words: for word in words {
        let bytes = part(text, word.start, word.end);
        marks.push(mark_of(context, *word, bytes))?;
        context = context_after(context, word.kind, bytes);
    }
    Ok(marks)
}

/// The words of a text with their roles, in order.
pub fn marks_of(alloc: Global, text: &[u8]) -> Result<Vec<Mark>, AllocError>
    ensures { IfOk result (λ marks. marks.items ≡ marks_of text.now) }
{
    let words = words_of(alloc, text)?;
    let marks = marks_in(alloc, text, words.as_slice())?;
    Ok(marks)
}
