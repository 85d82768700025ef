//! The word at a place of a style's text, as the style's program numbers words.

use bt_check::Spot;
use bt_style_text::{Kind, Mark, Role};
use bt_words::{Act, Program};
use std::alloc::{AllocError, Global};

/// A word of a function: the function's number, and how many words of its body stand before it. A function in braces
/// counts as a word, and so do its own words.
#[derive(Clone, Copy)]
pub struct BodyWord {
    pub function: usize,
    pub number: usize,
}

/// How far the marks of a text were gone through.
#[derive(Clone, Copy)]
struct Cursor {
    /// How many functions were declared.
    functions: usize,
    /// How many words stand behind the name that the last command declares as a function, with the brace before the body
    /// as the first one; none if it declares no function.
    words: Option<usize>,
}

const BEGIN: Cursor = Cursor {
    functions: 0,
    words: None,
};

/// Whether a mark of this role in a function's body is a word.
fn is_word(role: Role) -> bool {
    matches!(
        role,
        Role::Called | Role::Quoted | Role::Number | Role::Literal | Role::Open
    )
}

impl Cursor {
    /// The word that a mark of this role is.
    fn word(self, role: Role) -> Option<BodyWord> {
        if !is_word(role) {
            return None;
        }
        Some(BodyWord {
            function: self.functions.checked_sub(1)?,
            number: self.words?.checked_sub(1)?,
        })
    }

    /// Behind a mark of this role.
    fn after(self, role: Role) -> Cursor {
        match role {
            Role::Command(_) => Cursor {
                functions: self.functions,
                words: None,
            },
            Role::Declared(Kind::Function) => Cursor {
                functions: self.functions.saturating_add(1),
                words: Some(0),
            },
            _ => Cursor {
                functions: self.functions,
                words: self
                    .words
                    .map(|words| words.saturating_add(usize::from(is_word(role)))),
            },
        }
    }
}

/// The word at a place, whose end counts as well. Where one word ends and another begins, it is the second one.
pub fn word_at(marks: &[Mark], place: usize) -> Option<BodyWord> {
    let mut cursor = BEGIN;
    let mut found = None;
    for mark in marks {
        if mark.start <= place && place <= mark.end {
            found = cursor.word(mark.role).or(found);
        }
        cursor = cursor.after(mark.role);
    }
    found
}

/// A word in the style's program.
pub fn spot_of(
    alloc: Global,
    program: &Program,
    wanted: BodyWord,
) -> Result<Option<Spot>, AllocError> {
    let mut spots = Vec::new(alloc);
    spots.push(Spot {
        body: wanted.function,
        number: 0,
    })?;
    let mut before = 0usize;
    for _ in 0..u64::MAX {
        let Some(spot) = spots.pop() else {
            return Ok(None);
        };
        let Some(word) = program.body(spot.body).get(spot.number) else {
            continue;
        };
        if before == wanted.number {
            return Ok(Some(spot));
        }
        before = before.saturating_add(1);
        spots.push(Spot {
            body: spot.body,
            number: spot.number.saturating_add(1),
        })?;
        if let Act::Block(body) = word.act {
            spots.push(Spot { body, number: 0 })?;
        }
    }
    Ok(None)
}
