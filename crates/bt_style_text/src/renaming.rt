//! Renames a name of a style.

ghost use Rattle.std.specs.Prelude.{◌≡◌, IfOk};
ghost use Rattle.bt_style_text.specs.Renaming.{is_reserved, is_taken, refusal, renaming, rename};

use crate::builtins::{builtin_named, is_preset};
use crate::marks::Mark;
use crate::names::{Space, declaration_of, marks_of_name, name_at, space_of};
use crate::parts::part;
use bt_text::{Sequence, eq_ignore_ascii_case, is_name};
use std::alloc::{AllocError, Global};

/// Why a name isn't renamed.
#[derive(Clone, Copy)]
pub enum RenameRefusal {
    /// No name stands there, or none that the style declares: an unknown one, a built-in function, or one of those that
    /// BibTeX declares itself.
    NotDeclared,
    /// The new text isn't a name.
    NoName,
    /// The new name stands for something else.
    Taken,
}

/// Whether a name stands for something before a style declares anything.
fn is_reserved(space: Space, name: &[u8]) -> bool
    ensures { result ≡ is_reserved space name.now }
{
    match space {
        Space::Names => builtin_named(name).is_some() || is_preset(name),
        Space::Nothing | Space::Macros => false,
    }
}

/// Whether a name stands for something in a style.
fn is_taken(text: &[u8], marks: &[Mark], space: Space, name: &[u8]) -> bool
    ensures { result ≡ is_taken text.now marks.now space name.now }
{
    is_reserved(space, name) || declaration_of(text, marks, space, name).is_some()
}

/// What stands in the way of a new name for an old one. Another spelling of the old name is always allowed.
fn refusal(
    text: &[u8],
    marks: &[Mark],
    space: Space,
    old: &[u8],
    new: &[u8],
) -> Option<RenameRefusal>
    ensures { result ≡ refusal text.now marks.now space old.now new.now }
{
    if declaration_of(text, marks, space, old).is_none() {
        Some(RenameRefusal::NotDeclared)
    } else if !is_name(new) {
        Some(RenameRefusal::NoName)
    } else if !eq_ignore_ascii_case(old, new) && is_taken(text, marks, space, new) {
        Some(RenameRefusal::Taken)
    } else {
        None
    }
}

/// The marks that have to be the new name, so that the name at a place is called so; or what stands in the way.
pub fn rename(
    alloc: Global,
    text: &[u8],
    marks: &[Mark],
    place: usize,
    new: &[u8],
) -> Result<Result<Sequence<Mark>, RenameRefusal>, AllocError>
    ensures { IfOk result (λ r. r ≡ rename text.now marks.now place new.now) }
{
    match name_at(marks, place) {
        Some(mark) => {
            let space = space_of(mark.role);
            let old = part(text, mark.start, mark.end);
            match refusal(text, marks, space, old, new) {
                Some(refusal) => Ok(Err(refusal)),
                None => {
                    let found = marks_of_name(alloc, text, marks, space, old)?;
                    Ok(Ok(Sequence::from_vec(found)))
                }
            }
        }
        None => Ok(Err(RenameRefusal::NotDeclared)),
    }
}
