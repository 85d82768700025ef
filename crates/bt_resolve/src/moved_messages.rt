//! The messages after an edit, from those before it.
//!
//! Messages of items after the edit stay, but for their lines and places. A line or place that would overflow isn't
//! moved: then there is no answer, and the caller resolves anew. So no bound on lines has to be known here.

ghost use Rattle.std.specs.Prelude.{◌≡◌, ◌++◌, ◌+◌, ◌-◌, ◌≤◌, map, take, drop, length, option_map, IfOk, IfSome, IsTrue, OnOk};
ghost use Rattle.bt_resolve.specs.inner.Patches.{patched, rebased_message};

use crate::kept::Around;
use bt_bib::{ItemsEdit, Spot};
use bt_log::{Message, Place};
use bt_text::Sequence;
use std::alloc::{AllocError, Global};

fn moved_line(line: u128, stood: usize, stand: usize) -> Option<u128>
    ensures { IfSome result (λ moved. moved ≡ line - stood + stand) }
{
    line.saturating_sub(stood as u128)
        .checked_add(stand as u128)
}

fn moved_byte(byte: Option<usize>, stood: usize, stand: usize) -> Option<Option<usize>>
    ensures { IfSome result (λ moved. moved ≡ option_map (λ b. b - stood + stand) byte) }
{
    match byte {
        None => Some(None),
        Some(byte) => {
            let moved = byte.saturating_sub(stood).checked_add(stand)?;
            Some(Some(moved))
        }
    }
}

/// A message about a text that has moved from `stood` to `stand`. None if its line or place overflows.
fn rebased_message(
    message: &Message,
    stood: Spot,
    stand: Spot,
) -> Result<Option<Message>, AllocError>
    ensures { IfOk result (λ moved. IfSome moved (λ m. m ≡ rebased_message stood stand message.now)) }
{
    let Some(
        Place::DatabaseLine {
            database,
            line,
            byte,
        },
    ) = &message.place
    else {
        let same = message.share()?;
        return Ok(Some(same));
    };
    let Some(line) = moved_line(*line, stood.line, stand.line) else {
        return Ok(None);
    };
    let Some(byte) = moved_byte(*byte, stood.place, stand.place) else {
        return Ok(None);
    };
    let database = *database;
    let moved = message.at(Place::DatabaseLine {
        database,
        line,
        byte,
    })?;
    Ok(Some(moved))
}

fn add_shared(messages: &mut Sequence<Message>, more: &[Message]) -> Result<(), AllocError>
    ensures { OnOk result (messages.new ≡ messages.old ++ more.now) }
{
    'more: for message in more {
        messages.push(message.share()?)?;
    }
    Ok(())
}

/// Appends messages about a text that has moved from `stood` to `stand`. Returns whether all lines and places fit.
fn add_rebased(
    messages: &mut Sequence<Message>,
    more: &[Message],
    stood: Spot,
    stand: Spot,
) -> Result<bool, AllocError>
    ensures { IfOk result (λ fit. IsTrue fit → messages.new
        ≡ messages.old ++ map (rebased_message stood stand) more.now) }
{
    'more: for message in more {
        let Some(moved) = rebased_message(message, stood, stand)? else {
            return Ok(false);
        };
        messages.push(moved)?;
    }
    Ok(true)
}

/// All messages after an edit: `told` replaces those about the replaced pieces. The text of the pieces after them, in
/// the same database, has moved. None if a line or place would overflow.
pub fn patched(
    alloc: Global,
    all: &[Message],
    told: &[Message],
    around: Around,
    edit: &ItemsEdit,
) -> Result<Option<Sequence<Message>>, AllocError>
    ensures { IfOk result (λ made. IfSome made (λ messages. messages ≡ patched all.now around.first.told
        around.past.told around.last.told told.now edit.now.stood edit.now.stand)) }
{
    let (first, past, last) = (around.first.told, around.past.told, around.last.told);
    if first > past || past > last || last > all.len() {
        return Ok(None);
    }
    let mut messages = Sequence::new(alloc);
    add_shared(&mut messages, &all[..first])?;
    add_shared(&mut messages, told)?;
    if !add_rebased(&mut messages, &all[past..last], edit.stood, edit.stand)? {
        return Ok(None);
    }
    add_shared(&mut messages, &all[last..])?;
    Ok(Some(messages))
}
