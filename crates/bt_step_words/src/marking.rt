//! What a step was given, for the machine whose bytes have marks.

use bt_text::{Bytes, Shared};
use bt_why::{Line, Marked, Text, Variables, Written};
use std::alloc::{AllocError, Global};

/// A text all of whose bytes have this mark.
fn marked(alloc: Global, bytes: &[u8], mark: usize) -> Result<Text, AllocError> {
    let mut text = Vec::with_capacity(alloc, bytes.len())?;
    for (at, byte) in bytes.iter().enumerate() {
        text.push(Marked {
            byte: *byte,
            mark,
            at,
        })?;
    }
    Ok(text)
}

fn marked_texts(
    alloc: Global,
    texts: &[Shared<Bytes>],
    mark: usize,
) -> Result<Vec<Shared<Text>>, AllocError> {
    let mut all = Vec::new(alloc);
    for text in texts {
        all.push(Shared::new(alloc, marked(alloc, text.as_slice(), mark)?)?)?;
    }
    Ok(all)
}

/// The values of variables.
pub fn marked_variables(
    alloc: Global,
    variables: &bt_actions::Variables,
    mark: usize,
) -> Result<Variables, AllocError> {
    let texts = variables.texts.to_vec(alloc)?;
    Ok(Variables {
        numbers: variables.numbers.to_vec(alloc)?,
        texts: marked_texts(alloc, texts.as_slice(), mark)?,
    })
}

/// The line that hasn't ended.
pub fn marked_line(alloc: Global, bytes: &[u8], mark: usize) -> Result<Line, AllocError> {
    let mut line = Vec::new(alloc);
    for one in marked(alloc, bytes, mark)? {
        line.push(Written {
            marked: one,
            step: 0,
        })?;
    }
    Ok(line)
}
