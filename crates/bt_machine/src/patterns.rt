//! The patterns of a style, in which `format.name$` formats names.

use bt_stack::SoundPatterns;
use bt_style::{Op, Style};
use std::alloc::{AllocError, Global};

/// How many blocks of a function are looked at. What the others hold isn't known, which costs time alone.
const MOST_BLOCKS: usize = 10_000;

/// Adds the texts of a body, and puts its blocks after others.
fn add_texts<'a>(
    alloc: Global,
    body: &'a [Op],
    patterns: &mut SoundPatterns,
    blocks: &mut Vec<&'a [Op]>,
) -> Result<(), AllocError> {
    for op in body {
        match op {
            Op::Text(text) => patterns.add(alloc, text.as_slice())?,
            Op::Block(ops) => blocks.push(ops)?,
            _ => {}
        }
    }
    Ok(())
}

fn add_all(alloc: Global, body: &[Op], patterns: &mut SoundPatterns) -> Result<(), AllocError> {
    let mut blocks = Vec::new(alloc);
    blocks.push(body)?;
    for _ in 0..MOST_BLOCKS {
        match blocks.pop() {
            Some(block) => add_texts(alloc, block, patterns, &mut blocks)?,
            None => return Ok(()),
        }
    }
    Ok(())
}

/// The patterns among the texts in a style's functions that have no fault, or some of them.
pub fn sound_patterns(alloc: Global, style: &Style) -> Result<SoundPatterns, AllocError> {
    let mut patterns = SoundPatterns::none(alloc);
    for function in &style.functions {
        add_all(alloc, &function.body, &mut patterns)?;
    }
    Ok(patterns)
}
