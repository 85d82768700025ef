//! Which functions use a name, and how often it is used and set.

ghost use Rattle.std.specs.Prelude.{◌≡◌, ◌≤◌, ◌++◌, length, count_by, IfOk, OnOk};
ghost use Rattle.bt_style_text.specs.Uses.{uses, is_use_of, function_after, next_function, caller_at, callers, is_assigned, set_count, use_count};

use crate::marks::Mark;
use crate::names::{Space, is_name_of};
use crate::parts::part;
use crate::roles::{Kind, Role};
use std::alloc::{AllocError, Global};

/// Whether a role uses a name.
pub fn uses(role: Role) -> bool
    ensures { result ≡ uses role }
{
    match role {
        Role::Called | Role::Quoted => true,
        _ => false,
    }
}

/// Whether a mark uses a name.
pub fn is_use_of(text: &[u8], name: &[u8], mark: Mark) -> bool
    ensures { result ≡ is_use_of text.now name.now mark }
{
    uses(mark.role) && is_name_of(text, Space::Names, name, mark)
}

fn function_after(function: Option<Mark>, mark: Mark) -> Option<Mark>
    ensures { result ≡ function_after function mark }
{
    match mark.role {
        Role::Command(_) => None,
        Role::Declared(Kind::Function) => Some(mark),
        _ => function,
    }
}

/// The function that is still to be named as a user after a mark: none if it has been named.
fn next_function(is_use: bool, function: Option<Mark>, mark: Mark) -> Option<Mark>
    ensures { result ≡ next_function is_use function mark }
{
    if is_use {
        None
    } else {
        function_after(function, mark)
    }
}

fn put_caller(
    callers: &mut Vec<Mark>,
    is_use: bool,
    function: Option<Mark>,
) -> Result<(), AllocError>
    ensures { OnOk result (callers.new.items ≡ callers.old.items ++ caller_at is_use function) }
{
    if is_use && let Some(function) = function {
        callers.push(function)?;
    }
    Ok(())
}

/// The names of the functions that use a name, each once and in order.
pub fn callers(
    alloc: Global,
    text: &[u8],
    marks: &[Mark],
    name: &[u8],
) -> Result<Vec<Mark>, AllocError>
    ensures { IfOk result (λ found. found.items ≡ callers text.now name.now marks.now) }
{
    let mut found = Vec::new(alloc);
    let mut function = None;
    'marks: for mark in marks {
        let is_use = is_use_of(text, name, *mark);
        put_caller(&mut found, is_use, function)?;
        function = next_function(is_use, function, *mark);
    }
    Ok(found)
}

/// How often a name is used.
pub fn use_count(text: &[u8], marks: &[Mark], name: &[u8]) -> usize
    ensures { result ≡ use_count text.now name.now marks.now }
{
    marks
        .iter()
        .filter(|mark| is_use_of(text, name, **mark))
        .count()
}

/// Whether a variable is given a value that stands before these marks: `:=` follows at once.
fn is_assigned(text: &[u8], behind: &[Mark]) -> bool
    ensures { result ≡ is_assigned text.now behind.now }
{
    match behind {
        [] => false,
        [mark, ..] => part(text, mark.start, mark.end) == b":=".as_slice(),
    }
}

/// How often a variable is set: the uses of its name that `:=` follows.
pub fn set_count(text: &[u8], marks: &[Mark], name: &[u8]) -> usize
    ensures value { result ≡ set_count text.now name.now marks.now }
    ensures within { result ≤ length marks.now }
{
    let mut count = 0;
    let mut rest = marks;
    'marks: while let [mark, behind @ ..] = rest {
        if is_use_of(text, name, *mark) && is_assigned(text, behind) {
            count += 1;
        }
        rest = behind;
    }
    count
}
