//! The elements of a body.

ghost use Rattle.std.specs.Prelude.{◌≡◌, ◌*◌, ◌+◌, ◌<◌, ◌≤◌, length, IfSome, IfNone, IfOk};
ghost use Rattle.bt_style.specs.Fault.{Gives};
ghost use Rattle.bt_style.specs.Program.{program_of};
ghost use Rattle.bt_style.specs.Tree.{element_of};
ghost use Rattle.std.specs.List.{take_while};
ghost use Rattle.std.specs.Char.{is_ascii_digit};
ghost use Rattle.bt_style.specs.Elements.{decimal, size_at, number_at, word_element, quoted_at};

use crate::draft::Draft;
use crate::fault::{FaultKind, StyleRefusal, fault};
use crate::style::Op;
use std::alloc::Global;

fn digit_count(bytes: &[u8]) -> usize
    ensures { result ≡ length (take_while is_ascii_digit bytes.now) }
{
    bytes.iter().take_while(|b| b.is_ascii_digit()).count()
}

fn decimal_within(digits: &[u8], greatest: u32) -> Option<u32>
    ensures some { IfSome result (λ n. (n ≡ decimal 0 digits.now) × (n ≤ greatest)) }
    ensures none { IfNone result (greatest < decimal 0 digits.now) }
{
    let mut n: u32 = 0;
    for d in digits {
        let next = u64::from(n) * 10 + u64::from(d.saturating_sub(b'0'));
        if next > u64::from(greatest) {
            return None;
        }
        n = next as u32;
    }
    Some(n)
}

/// A number without its sign.
#[tactic(auto, unfolding(crate::specs::Elements::size_at))]
fn size(bytes: &[u8], greatest: u32, line: usize) -> Result<u32, StyleRefusal>
    ensures gives { Gives (λ n. n) result (size_at greatest bytes.now line) }
    ensures within { IfOk result (λ n. n ≤ greatest) }
{
    let (digits, behind) = bytes.split_at(digit_count(bytes));
    if digits.is_empty() {
        return Err(fault(FaultKind::StrayByte, line));
    }
    let Some(n) = decimal_within(digits, greatest) else {
        return Err(fault(FaultKind::NumberTooLarge, line));
    };
    if behind.is_empty() {
        Ok(n)
    } else {
        Err(fault(FaultKind::StrayByte, line))
    }
}

/// The number after a `#`.
#[tactic(auto, unfolding(crate::specs::Elements::number_at))]
fn number(bytes: &[u8], line: usize) -> Result<i32, StyleRefusal>
    ensures { Gives (λ n. n) result (number_at bytes.now line) }
{
    if !bytes.is_empty() && bytes[0] == b'-' {
        Ok(-i64::from(size(&bytes[1..], 1 << 31, line)?) as i32)
    } else {
        Ok(size(bytes, i32::MAX as u32, line)? as i32)
    }
}

/// The quoted name after a `'`.
#[tactic(auto, unfolding(crate::specs::Elements::quoted_at))]
fn quoted(alloc: Global, draft: &Draft, word: &[u8], line: usize) -> Result<Op, StyleRefusal>
    ensures { Gives element_of result (quoted_at (program_of draft.now) word.now line) }
{
    if word.is_empty() {
        return Err(fault(FaultKind::BadName, line));
    }
    Ok(Op::Quote(draft.target(alloc, word, line)?))
}

/// A number, a quoted name or a call.
#[tactic(auto, unfolding(crate::specs::Elements::word_element))]
pub fn element(alloc: Global, draft: &Draft, word: &[u8], line: usize) -> Result<Op, StyleRefusal>
    ensures { Gives element_of result (word_element (program_of draft.now) word.now line) }
{
    if !word.is_empty() && word[0] == b'#' {
        Ok(Op::Number(number(&word[1..], line)?))
    } else if !word.is_empty() && word[0] == b'\'' {
        quoted(alloc, draft, &word[1..], line)
    } else {
        Ok(Op::Call(draft.target(alloc, word, line)?))
    }
}
