//! What the built-in functions make of what is known of the stack, its top first, or `None` where they may complain.

ghost use Rattle.std.specs.Prelude.{◌≡◌, option_map, IfOk};
ghost use Rattle.bt_style.specs.declared.builtin.Builtin.TheVariants as builtin;
ghost use Rattle.bt_sound.specs.Seen.{known_seen, knowns_seen};
ghost use Rattle.bt_sound.specs.Transfer.{any_top, are_alike, field_top, number_on, number_top, stack_after, text_on, text_top};

use crate::known::Known;
use crate::may::May;
use crate::range::Range;
use crate::state::on;
use bt_style::Builtin;
use std::alloc::{AllocError, Global};

fn number_top<'s, 'a>(stack: &'s [Known<'a>]) -> Option<(Range, &'s [Known<'a>])>
    ensures { option_map (λ top. (top.0, knowns_seen top.1.now)) result ≡ number_top (knowns_seen stack.now) }
{
    let (top, below) = stack.split_first()?;
    match top {
        Known::Number(range) => Some((*range, below)),
        _ => None,
    }
}

/// A text that isn't missing on the top.
fn text_top<'s, 'a>(stack: &'s [Known<'a>]) -> Option<(May, &'s [Known<'a>])>
    ensures { option_map (λ top. (top.0, knowns_seen top.1.now)) result ≡ text_top (knowns_seen stack.now) }
{
    let (top, below) = stack.split_first()?;
    match top {
        Known::Text(may) if !may.missing => Some((*may, below)),
        _ => None,
    }
}

/// The value of a field, or a text, on the top.
fn field_top<'s, 'a>(stack: &'s [Known<'a>]) -> Option<(May, &'s [Known<'a>])>
    ensures { option_map (λ top. (top.0, knowns_seen top.1.now)) result ≡ field_top (knowns_seen stack.now) }
{
    let (top, below) = stack.split_first()?;
    match top {
        Known::Text(may) => Some((*may, below)),
        _ => None,
    }
}

fn number_on<'a>(
    alloc: Global,
    range: Range,
    below: &[Known<'a>],
) -> Result<Option<Vec<Known<'a>>>, AllocError>
    ensures { IfOk result (λ after. option_map (λ stack. knowns_seen stack.items) after ≡ number_on range (knowns_seen below.now)) }
{
    Ok(Some(on(alloc, Known::Number(range), below)?))
}

fn text_on<'a>(alloc: Global, below: &[Known<'a>]) -> Result<Option<Vec<Known<'a>>>, AllocError>
    ensures { IfOk result (λ after. option_map (λ stack. knowns_seen stack.items) after ≡ text_on (knowns_seen below.now)) }
{
    Ok(Some(on(alloc, Known::Text(May::any_text()), below)?))
}

fn any_top<'s, 'a>(stack: &'s [Known<'a>]) -> Option<(Known<'a>, &'s [Known<'a>])>
    ensures { option_map (λ top. (known_seen top.0, knowns_seen top.1.now)) result ≡ any_top (knowns_seen stack.now) }
{
    let (top, below) = stack.split_first()?;
    Some((*top, below))
}

fn greater<'a>(alloc: Global, stack: &[Known<'a>]) -> Result<Option<Vec<Known<'a>>>, AllocError>
    ensures { IfOk result (λ after. option_map (λ stack. knowns_seen stack.items) after ≡ stack_after builtin.Greater (knowns_seen stack.now)) }
{
    let Some((upper, below)) = number_top(stack) else {
        return Ok(None);
    };
    let Some((lower, below)) = number_top(below) else {
        return Ok(None);
    };
    number_on(alloc, upper.less(lower), below)
}

fn less<'a>(alloc: Global, stack: &[Known<'a>]) -> Result<Option<Vec<Known<'a>>>, AllocError>
    ensures { IfOk result (λ after. option_map (λ stack. knowns_seen stack.items) after ≡ stack_after builtin.Less (knowns_seen stack.now)) }
{
    let Some((upper, below)) = number_top(stack) else {
        return Ok(None);
    };
    let Some((lower, below)) = number_top(below) else {
        return Ok(None);
    };
    number_on(alloc, lower.less(upper), below)
}

fn plus<'a>(alloc: Global, stack: &[Known<'a>]) -> Result<Option<Vec<Known<'a>>>, AllocError>
    ensures { IfOk result (λ after. option_map (λ stack. knowns_seen stack.items) after ≡ stack_after builtin.Plus (knowns_seen stack.now)) }
{
    let Some((upper, below)) = number_top(stack) else {
        return Ok(None);
    };
    let Some((lower, below)) = number_top(below) else {
        return Ok(None);
    };
    number_on(alloc, lower.sum(upper), below)
}

fn minus<'a>(alloc: Global, stack: &[Known<'a>]) -> Result<Option<Vec<Known<'a>>>, AllocError>
    ensures { IfOk result (λ after. option_map (λ stack. knowns_seen stack.items) after ≡ stack_after builtin.Minus (knowns_seen stack.now)) }
{
    let Some((upper, below)) = number_top(stack) else {
        return Ok(None);
    };
    let Some((lower, below)) = number_top(below) else {
        return Ok(None);
    };
    number_on(alloc, lower.difference(upper), below)
}

/// `*`.
fn join<'a>(alloc: Global, stack: &[Known<'a>]) -> Result<Option<Vec<Known<'a>>>, AllocError>
    ensures { IfOk result (λ after. option_map (λ stack. knowns_seen stack.items) after ≡ stack_after builtin.Join (knowns_seen stack.now)) }
{
    let Some((upper, below)) = text_top(stack) else {
        return Ok(None);
    };
    let Some((lower, below)) = text_top(below) else {
        return Ok(None);
    };
    Ok(Some(on(alloc, Known::Text(lower.then(upper)), below)?))
}

fn change_case<'a>(alloc: Global, stack: &[Known<'a>]) -> Result<Option<Vec<Known<'a>>>, AllocError>
    ensures { IfOk result (λ after. option_map (λ stack. knowns_seen stack.items) after ≡ stack_after builtin.ChangeCase (knowns_seen stack.now)) }
{
    let Some((_mode, below)) = text_top(stack) else {
        return Ok(None);
    };
    let Some((_text, below)) = text_top(below) else {
        return Ok(None);
    };
    text_on(alloc, below)
}

/// `add.period$` and others that take a text and leave a text.
fn text_to_text<'a>(
    alloc: Global,
    stack: &[Known<'a>],
) -> Result<Option<Vec<Known<'a>>>, AllocError>
    ensures { IfOk result (λ after. option_map (λ stack. knowns_seen stack.items) after ≡ stack_after builtin.AddPeriod (knowns_seen stack.now)) }
{
    let Some((_text, below)) = text_top(stack) else {
        return Ok(None);
    };
    text_on(alloc, below)
}

/// `int.to.str$` and `int.to.chr$`.
fn number_to_text<'a>(
    alloc: Global,
    stack: &[Known<'a>],
) -> Result<Option<Vec<Known<'a>>>, AllocError>
    ensures { IfOk result (λ after. option_map (λ stack. knowns_seen stack.items) after ≡ stack_after builtin.IntToStr (knowns_seen stack.now)) }
{
    let Some((_number, below)) = number_top(stack) else {
        return Ok(None);
    };
    text_on(alloc, below)
}

fn names_counted<'a>(
    alloc: Global,
    stack: &[Known<'a>],
) -> Result<Option<Vec<Known<'a>>>, AllocError>
    ensures { IfOk result (λ after. option_map (λ stack. knowns_seen stack.items) after ≡ stack_after builtin.NumNames (knowns_seen stack.now)) }
{
    let Some((text, below)) = text_top(stack) else {
        return Ok(None);
    };
    number_on(alloc, text.names_range(), below)
}

/// `text.length$` and `chr.to.int$`.
fn length<'a>(alloc: Global, stack: &[Known<'a>]) -> Result<Option<Vec<Known<'a>>>, AllocError>
    ensures { IfOk result (λ after. option_map (λ stack. knowns_seen stack.items) after ≡ stack_after builtin.TextLength (knowns_seen stack.now)) }
{
    let Some((_text, below)) = text_top(stack) else {
        return Ok(None);
    };
    number_on(alloc, Range::at_least(0), below)
}

fn width<'a>(alloc: Global, stack: &[Known<'a>]) -> Result<Option<Vec<Known<'a>>>, AllocError>
    ensures { IfOk result (λ after. option_map (λ stack. knowns_seen stack.items) after ≡ stack_after builtin.Width (knowns_seen stack.now)) }
{
    let Some((_text, below)) = text_top(stack) else {
        return Ok(None);
    };
    number_on(alloc, Range::any(), below)
}

fn emptiness<'a>(alloc: Global, stack: &[Known<'a>]) -> Result<Option<Vec<Known<'a>>>, AllocError>
    ensures { IfOk result (λ after. option_map (λ stack. knowns_seen stack.items) after ≡ stack_after builtin.Empty (knowns_seen stack.now)) }
{
    let Some((field, below)) = field_top(stack) else {
        return Ok(None);
    };
    number_on(alloc, field.empty_range(), below)
}

fn missing<'a>(alloc: Global, stack: &[Known<'a>]) -> Result<Option<Vec<Known<'a>>>, AllocError>
    ensures { IfOk result (λ after. option_map (λ stack. knowns_seen stack.items) after ≡ stack_after builtin.Missing (knowns_seen stack.now)) }
{
    let Some((field, below)) = field_top(stack) else {
        return Ok(None);
    };
    number_on(alloc, field.missing_range(), below)
}

fn format_name<'a>(alloc: Global, stack: &[Known<'a>]) -> Result<Option<Vec<Known<'a>>>, AllocError>
    ensures { IfOk result (λ after. option_map (λ stack. knowns_seen stack.items) after ≡ stack_after builtin.FormatName (knowns_seen stack.now)) }
{
    let Some((_pattern, below)) = text_top(stack) else {
        return Ok(None);
    };
    let Some((_number, below)) = number_top(below) else {
        return Ok(None);
    };
    let Some((_names, below)) = text_top(below) else {
        return Ok(None);
    };
    text_on(alloc, below)
}

fn substring<'a>(alloc: Global, stack: &[Known<'a>]) -> Result<Option<Vec<Known<'a>>>, AllocError>
    ensures { IfOk result (λ after. option_map (λ stack. knowns_seen stack.items) after ≡ stack_after builtin.Substring (knowns_seen stack.now)) }
{
    let Some((_length, below)) = number_top(stack) else {
        return Ok(None);
    };
    let Some((_start, below)) = number_top(below) else {
        return Ok(None);
    };
    let Some((_text, below)) = text_top(below) else {
        return Ok(None);
    };
    text_on(alloc, below)
}

fn text_prefix<'a>(alloc: Global, stack: &[Known<'a>]) -> Result<Option<Vec<Known<'a>>>, AllocError>
    ensures { IfOk result (λ after. option_map (λ stack. knowns_seen stack.items) after ≡ stack_after builtin.TextPrefix (knowns_seen stack.now)) }
{
    let Some((_length, below)) = number_top(stack) else {
        return Ok(None);
    };
    let Some((_text, below)) = text_top(below) else {
        return Ok(None);
    };
    text_on(alloc, below)
}

fn duplicate<'a>(alloc: Global, stack: &[Known<'a>]) -> Result<Option<Vec<Known<'a>>>, AllocError>
    ensures { IfOk result (λ after. option_map (λ stack. knowns_seen stack.items) after ≡ stack_after builtin.Duplicate (knowns_seen stack.now)) }
{
    let Some((top, below)) = any_top(stack) else {
        return Ok(None);
    };
    Ok(Some(on(alloc, top, stack)?))
}

/// `pop$` and `top$`.
fn pop<'a>(alloc: Global, stack: &[Known<'a>]) -> Result<Option<Vec<Known<'a>>>, AllocError>
    ensures { IfOk result (λ after. option_map (λ stack. knowns_seen stack.items) after ≡ stack_after builtin.Pop (knowns_seen stack.now)) }
{
    let Some((_top, below)) = any_top(stack) else {
        return Ok(None);
    };
    Ok(Some(Vec::from_slice(alloc, below)?))
}

/// `write$` and `warning$`.
fn text_taken<'a>(alloc: Global, stack: &[Known<'a>]) -> Result<Option<Vec<Known<'a>>>, AllocError>
    ensures { IfOk result (λ after. option_map (λ stack. knowns_seen stack.items) after ≡ stack_after builtin.Write (knowns_seen stack.now)) }
{
    let Some((_text, below)) = text_top(stack) else {
        return Ok(None);
    };
    Ok(Some(Vec::from_slice(alloc, below)?))
}

fn swap<'a>(alloc: Global, stack: &[Known<'a>]) -> Result<Option<Vec<Known<'a>>>, AllocError>
    ensures { IfOk result (λ after. option_map (λ stack. knowns_seen stack.items) after ≡ stack_after builtin.Swap (knowns_seen stack.now)) }
{
    let Some((top, below)) = any_top(stack) else {
        return Ok(None);
    };
    let Some((next, below)) = any_top(below) else {
        return Ok(None);
    };
    let swapped = on(alloc, top, below)?;
    Ok(Some(on(alloc, next, swapped.as_slice())?))
}

/// Whether both are numbers, or texts that aren't missing.
fn are_alike(upper: &Known, lower: &Known) -> bool
    ensures { result ≡ are_alike (known_seen upper.now) (known_seen lower.now) }
{
    match (upper, lower) {
        (Known::Number(_), Known::Number(_)) => true,
        (Known::Text(upper), Known::Text(lower)) => !upper.missing && !lower.missing,
        _ => false,
    }
}

fn equals<'a>(alloc: Global, stack: &[Known<'a>]) -> Result<Option<Vec<Known<'a>>>, AllocError>
    ensures { IfOk result (λ after. option_map (λ stack. knowns_seen stack.items) after ≡ stack_after builtin.Equals (knowns_seen stack.now)) }
{
    let Some((upper, below)) = any_top(stack) else {
        return Ok(None);
    };
    let Some((lower, below)) = any_top(below) else {
        return Ok(None);
    };
    if are_alike(&upper, &lower) {
        number_on(alloc, Range::bit(), below)
    } else {
        Ok(None)
    }
}

/// What a built-in function that looks at the stack only makes of what is known of it, or `None` where it may complain.
/// `:=`, `cite$`, `type$` and those that run others give `None` here.
pub fn stack_after<'a>(
    alloc: Global,
    builtin: Builtin,
    stack: &[Known<'a>],
) -> Result<Option<Vec<Known<'a>>>, AllocError>
    ensures { IfOk result (λ after. option_map (λ stack. knowns_seen stack.items) after ≡ stack_after builtin (knowns_seen stack.now)) }
{
    match builtin {
        Builtin::Greater => greater(alloc, stack),
        Builtin::Less => less(alloc, stack),
        Builtin::Equals => equals(alloc, stack),
        Builtin::Plus => plus(alloc, stack),
        Builtin::Minus => minus(alloc, stack),
        Builtin::Join => join(alloc, stack),
        Builtin::AddPeriod => text_to_text(alloc, stack),
        Builtin::ChangeCase => change_case(alloc, stack),
        Builtin::ChrToInt => length(alloc, stack),
        Builtin::Duplicate => duplicate(alloc, stack),
        Builtin::Empty => emptiness(alloc, stack),
        Builtin::FormatName => format_name(alloc, stack),
        Builtin::IntToChr => number_to_text(alloc, stack),
        Builtin::IntToStr => number_to_text(alloc, stack),
        Builtin::Missing => missing(alloc, stack),
        Builtin::Newline => Ok(Some(Vec::from_slice(alloc, stack)?)),
        Builtin::NumNames => names_counted(alloc, stack),
        Builtin::Pop => pop(alloc, stack),
        Builtin::Preamble => text_on(alloc, stack),
        Builtin::Purify => text_to_text(alloc, stack),
        Builtin::Quote => text_on(alloc, stack),
        Builtin::Skip => Ok(Some(Vec::from_slice(alloc, stack)?)),
        Builtin::Stack => Ok(Some(Vec::new(alloc))),
        Builtin::Substring => substring(alloc, stack),
        Builtin::Swap => swap(alloc, stack),
        Builtin::TextLength => length(alloc, stack),
        Builtin::TextPrefix => text_prefix(alloc, stack),
        Builtin::Top => pop(alloc, stack),
        Builtin::Warning => text_taken(alloc, stack),
        Builtin::Width => width(alloc, stack),
        Builtin::Write => text_taken(alloc, stack),
        Builtin::Assign
        | Builtin::CallType
        | Builtin::Cite
        | Builtin::If
        | Builtin::Type
        | Builtin::While => Ok(None),
    }
}
