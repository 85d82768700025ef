//! The findings of open styles, each held with the text in which they were found.

ghost use Rattle.std.specs.Prelude.{◌≡◌, ◌<◌, length, option_map, position, IfSome};
ghost use Rattle.std.specs.Str.{bytes_eq};
ghost use Rattle.bt_remarks.specs.Checked.{is_of, checked_as, found_for};

use crate::finding::Finding;
use crate::step_word::Remarks;
use bt_text::{Bytes, Sequence};
use std::alloc::{AllocError, Global};

/// A text that was checked, under its document's name.
#[derive(Drop)]
pub struct Checked {
    pub name: Bytes,
    pub text: Bytes,
    pub findings: Sequence<Finding>,
}

/// Whether a check is of this text of a document.
#[tactic(auto, unfolding(crate::specs::Checked::is_of))]
fn is_of(one: &Checked, name: &[u8], text: &[u8]) -> bool
    ensures { result ≡ is_of name.now text.now one.now }
{
    one.name.as_slice() == name && one.text.as_slice() == text
}

fn checked_as<'a>(held: &'a [Checked], name: &[u8], text: &[u8]) -> Option<&'a Checked>
    ensures { option_map (λ one. one.now) result ≡ checked_as name.now text.now held.now }
{
    held.iter().find(|one| is_of(one, name, text))
}

/// The findings that are held for this text of a document; none if it wasn't checked.
pub fn found_for<'a>(held: &'a [Checked], name: &[u8], text: &[u8]) -> &'a [Finding]
    ensures { result.now ≡ found_for name.now text.now held.now }
{
    match checked_as(held, name, text) {
        Some(one) => one.findings.as_slice(),
        None => &[],
    }
}

fn index_of(held: &[Checked], name: &[u8]) -> Option<usize>
    ensures place { result ≡ position (λ one. bytes_eq one.name name.now) held.now }
    ensures within { IfSome result (λ n. n < length held.now) }
{
    held.iter().position(|one| one.name.as_slice() == name)
}

/// Holds a check, which replaces the one of its document, or comes last.
fn hold(held: &mut Sequence<Checked>, checked: Checked) -> Result<(), AllocError> {
    match index_of(held.as_slice(), checked.name.as_slice()) {
        Some(place) => {
            held.set(place, checked);
            Ok(())
        }
        None => {
            held.push(checked)?;
            Ok(())
        }
    }
}

/// Checks a text of a document, unless its findings are held already. The only error is out of memory.
pub fn check_again<R: Remarks>(
    alloc: Global,
    remarks: &R,
    held: &mut Sequence<Checked>,
    name: &[u8],
    text: &[u8],
) -> Result<(), AllocError> {
    if checked_as(held.as_slice(), name, text).is_some() {
        return Ok(());
    }
    let checked = Checked {
        name: Bytes::copied(alloc, name)?,
        text: Bytes::copied(alloc, text)?,
        findings: remarks.findings_of(alloc, text)?,
    };
    hold(held, checked)
}
