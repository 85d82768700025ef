//! The text of an `.aux` file, written from its items.
//!
//! Messages name lines, so each item must be on the line that it was read from: empty lines stand for all that BibTeX skips.
//! A faulty item must make its fault again. The reader drops the part at which it finds one, so one more part is written.

ghost use Rattle.std.specs.Prelude.{◌≡◌, ◌∷◌, ◌++◌, replicate, Some, IfOk, OnOk, if◌then◌else◌};
ghost use Rattle.std.specs.List.{join_with_byte};
ghost use Rattle.bt_files.specs.AuxText.{comma, line_feed, written_end, written_argument, written_item, written};

use bt_bib::{AuxFault, AuxItem};
use bt_text::Bytes;
use std::alloc::{AllocError, Global};

/// Writes a part, with a comma before it if it isn't the first.
fn write_part(text: &mut Bytes, is_first: bool, part: &[u8]) -> Result<(), AllocError>
    ensures { OnOk result (text.new ≡ text.old ++ (if is_first then part.now else comma ∷ part.now)) }
{
    if is_first {
        text.append(part)
    } else {
        text.append_all(&[b",", part])
    }
}

fn write_parts(text: &mut Bytes, parts: &[Bytes]) -> Result<(), AllocError>
    ensures { OnOk result (text.new ≡ text.old ++ join_with_byte comma parts.now) }
{
    let mut is_first = true;
    'parts: for part in parts {
        write_part(text, is_first, part.as_slice())?;
        is_first = false;
    }
    Ok(())
}

fn faulty_end(fault: AuxFault) -> &'static [u8]
    ensures { result.now ≡ written_end (Some fault) }
{
    match fault {
        AuxFault::NoBrace => b"",
        AuxFault::WhiteSpace => b" }",
        AuxFault::StuffAfter => b"}x",
    }
}

fn write_argument(
    text: &mut Bytes,
    parts: &[Bytes],
    fault: Option<AuxFault>,
) -> Result<(), AllocError>
    ensures { OnOk result (text.new ≡ text.old ++ written_argument parts.now fault) }
{
    write_parts(text, parts)?;
    match fault {
        None => text.append(b"}"),
        Some(fault) => {
            write_part(text, parts.is_empty(), b"x")?;
            text.append(faulty_end(fault))
        }
    }
}

fn write_item(text: &mut Bytes, item: &AuxItem) -> Result<(), AllocError>
    ensures { OnOk result (text.new ≡ text.old ++ written_item item.now) }
{
    text.append(item.command.word())?;
    write_argument(text, item.parts.as_slice(), item.fault)
}

fn write_line_feeds(text: &mut Bytes, count: usize) -> Result<(), AllocError>
    ensures { OnOk result (text.new ≡ text.old ++ replicate count line_feed) }
{
    'lines: for _ in 0..count {
        text.append(b"\n")?;
    }
    Ok(())
}

/// The text of these items. Each item is on the line of its own number, so there may be empty lines before it. The
/// only error is out of memory.
#[tactic(auto, unfolding(crate::specs::AuxText::written))]
pub fn written(alloc: Global, items: &[AuxItem]) -> Result<Bytes, AllocError>
    ensures { IfOk result (λ text. text ≡ written items.now) }
{
    let mut text = Bytes::new(alloc);
    let mut line = 1;
    'items: for item in items {
        write_line_feeds(&mut text, item.line.saturating_sub(line))?;
        write_item(&mut text, item)?;
        line = item.line;
    }
    Ok(text)
}
