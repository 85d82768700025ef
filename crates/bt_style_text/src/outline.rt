//! What a style declares, as an editor's outline.

ghost use Rattle.std.specs.Prelude.{◌≡◌, ◌++◌, IfOk, OnOk};
ghost use Rattle.bt_style_text.specs.Outline.{start_after, command_end, has_command, symbol_with, symbol_of, symbols_of};

use crate::marks::Mark;
use crate::roles::{Kind, Role};
use std::alloc::{AllocError, Global};

/// Something that a style declares, and the part of the text that does it: of a function or a macro the whole command,
/// of other names only the name.
#[derive(Clone, Copy)]
pub struct Symbol {
    pub kind: Kind,
    pub name: Mark,
    pub start: usize,
    pub end: usize,
}

/// Where the last command begins after a mark.
pub fn start_after(start: usize, mark: Mark) -> usize
    ensures { result ≡ start_after start mark }
{
    match mark.role {
        Role::Command(_) => mark.start,
        _ => start,
    }
}

/// Where a command ends of which these marks are left, and which ended here so far. Comments before the next command
/// aren't its own.
fn command_end(end: usize, marks: &[Mark]) -> usize
    ensures { result ≡ command_end end marks.now }
{
    let mut so_far = end;
    'marks: for mark in marks {
        match mark.role {
            Role::Command(_) => return so_far,
            Role::Comment => {}
            _ => so_far = mark.end,
        }
    }
    so_far
}

/// Whether a whole command declares a name of this kind, and no other name.
fn has_command(kind: Kind) -> bool
    ensures { result ≡ has_command kind }
{
    match kind {
        Kind::Function | Kind::Macro => true,
        _ => false,
    }
}

fn symbol_with(kind: Kind, start: usize, mark: Mark, behind: &[Mark]) -> Symbol
    ensures { result ≡ symbol_with kind start mark behind.now }
{
    if has_command(kind) {
        Symbol {
            kind,
            name: mark,
            start,
            end: command_end(mark.end, behind),
        }
    } else {
        Symbol {
            kind,
            name: mark,
            start: mark.start,
            end: mark.end,
        }
    }
}

fn put(
    symbols: &mut Vec<Symbol>,
    start: usize,
    mark: Mark,
    behind: &[Mark],
) -> Result<(), AllocError>
    ensures { OnOk result (symbols.new.items ≡ symbols.old.items ++ symbol_of start mark behind.now) }
{
    if let Role::Declared(kind) = mark.role {
        symbols.push(symbol_with(kind, start, mark, behind))?;
    }
    Ok(())
}

/// What a style declares, in the order of its text.
pub fn symbols_of(alloc: Global, marks: &[Mark]) -> Result<Vec<Symbol>, AllocError>
    ensures { IfOk result (λ found. found.items ≡ symbols_of marks.now) }
{
    let mut found = Vec::new(alloc);
    let mut start = 0;
    let mut rest = marks;
    'marks: while let [mark, behind @ ..] = rest {
        put(&mut found, start, *mark, behind)?;
        start = start_after(start, *mark);
        rest = behind;
    }
    Ok(found)
}
