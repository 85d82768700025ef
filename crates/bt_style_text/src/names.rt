//! Where names are declared and used.
//!
//! Fields, variables and functions share their names, and macros have names of their own. Names match in any case.

ghost use Rattle.std.specs.Prelude.{◌≡◌, IfOk};
ghost use Rattle.bt_style_text.specs.Names.{space_of, is_named, declares, is_same_space, is_name_of, is_declaration_of, is_name_at, name_at, declaration_of, definition, marks_of_name, references};

use crate::marks::Mark;
use crate::parts::part;
use crate::roles::{Kind, Role};
use bt_text::eq_ignore_ascii_case;
use std::alloc::{AllocError, Global};

/// Which names a word can stand for.
#[derive(Clone, Copy)]
pub enum Space {
    /// None.
    Nothing,
    /// Fields, variables and functions, those of the style and the built-in ones.
    Names,
    Macros,
}

/// Which names a role can stand for.
pub fn space_of(role: Role) -> Space
    ensures { result ≡ space_of role }
{
    match role {
        Role::Declared(Kind::Macro) => Space::Macros,
        Role::Declared(_) | Role::Called | Role::Quoted => Space::Names,
        _ => Space::Nothing,
    }
}

/// Whether a role stands for a name.
pub fn is_named(role: Role) -> bool
    ensures { result ≡ is_named role }
{
    match space_of(role) {
        Space::Nothing => false,
        Space::Names | Space::Macros => true,
    }
}

/// Whether a role declares a name.
pub fn declares(role: Role) -> bool
    ensures { result ≡ declares role }
{
    match role {
        Role::Declared(_) => true,
        _ => false,
    }
}

/// Whether two spaces are the same one, and not that of no names.
fn is_same_space(a: Space, b: Space) -> bool
    ensures { result ≡ is_same_space a b }
{
    match (a, b) {
        (Space::Names, Space::Names) => true,
        (Space::Macros, Space::Macros) => true,
        _ => false,
    }
}

/// Whether a mark stands for a name of a space.
pub fn is_name_of(text: &[u8], space: Space, name: &[u8], mark: Mark) -> bool
    ensures { result ≡ is_name_of text.now space name.now mark }
{
    is_same_space(space, space_of(mark.role))
        && eq_ignore_ascii_case(part(text, mark.start, mark.end), name)
}

/// Whether a mark is the declaration of a name.
pub fn is_declaration_of(text: &[u8], space: Space, name: &[u8], mark: Mark) -> bool
    ensures { result ≡ is_declaration_of text.now space name.now mark }
{
    declares(mark.role) && is_name_of(text, space, name, mark)
}

fn is_name_at(place: usize, mark: Mark) -> bool
    ensures { result ≡ is_name_at place mark }
{
    is_named(mark.role) && mark.start <= place && place <= mark.end
}

/// The name at a place, whose end counts as well.
pub fn name_at(marks: &[Mark], place: usize) -> Option<Mark>
    ensures { result ≡ name_at place marks.now }
{
    marks.iter().copied().find(|mark| is_name_at(place, *mark))
}

/// Where a name is declared: at the first of its declarations.
pub fn declaration_of(text: &[u8], marks: &[Mark], space: Space, name: &[u8]) -> Option<Mark>
    ensures { result ≡ declaration_of text.now marks.now space name.now }
{
    marks
        .iter()
        .copied()
        .find(|mark| is_declaration_of(text, space, name, *mark))
}

/// Where the name at a place is declared.
pub fn definition(text: &[u8], marks: &[Mark], place: usize) -> Option<Mark>
    ensures { result ≡ definition text.now marks.now place }
{
    match name_at(marks, place) {
        Some(mark) => declaration_of(
            text,
            marks,
            space_of(mark.role),
            part(text, mark.start, mark.end),
        ),
        None => None,
    }
}

/// All marks that stand for a name.
pub fn marks_of_name(
    alloc: Global,
    text: &[u8],
    marks: &[Mark],
    space: Space,
    name: &[u8],
) -> Result<Vec<Mark>, AllocError>
    ensures { IfOk result (λ found. found.items ≡ marks_of_name text.now marks.now space name.now) }
{
    marks
        .iter()
        .copied()
        .filter(|mark| is_name_of(text, space, name, *mark))
        .collect(alloc)
}

/// All marks that stand for the name at a place, its declarations too.
pub fn references(
    alloc: Global,
    text: &[u8],
    marks: &[Mark],
    place: usize,
) -> Result<Vec<Mark>, AllocError>
    ensures { IfOk result (λ found. found.items ≡ references text.now marks.now place) }
{
    match name_at(marks, place) {
        Some(mark) => marks_of_name(
            alloc,
            text,
            marks,
            space_of(mark.role),
            part(text, mark.start, mark.end),
        ),
        None => Ok(Vec::new(alloc)),
    }
}
